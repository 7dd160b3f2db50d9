//! The tokens that a statement passes over.

ghost use Rattle.std.specs.Prelude.{◌≡◌, ◌≤◌, length};
ghost use Rattle.std.specs.List.{prefix_len};
ghost use Rattle.dbc_grammar.specs.Passed.{is_semicolon, ends_symbols, pass};
ghost use Rattle.dbc_grammar.specs.Sorts.{is_passed};

use crate::words::{is_free_word, is_statement_word, is_word_kind};
use sig_text::Token;
use token_forms::token_text;

/// A sort of tokens that statements pass over.
#[derive(Clone, Copy, Debug, PartialEq, Eq)]
pub enum Passed {
    /// Words but `BS_` and `BU_`: the new symbols.
    Symbols,
    /// Words that begin no statement: the nodes.
    Nodes,
    /// All up to a `;`.
    ToSemicolon,
    /// All up to a `;` or a word that begins a statement.
    Lenient,
}

fn is_semicolon(bytes: &[u8], token: Token) -> bool
    ensures { result ≡ is_semicolon bytes.now token }
{
    token_text(bytes, token) == b";".as_slice()
}

/// Whether the text ends the list of new symbols.
fn ends_symbols(text: &[u8]) -> bool
    ensures { result ≡ ends_symbols text.now }
{
    text == b"BS_".as_slice() || text == b"BU_".as_slice()
}

/// Whether the token is of the sort.
fn is_passed(sort: Passed, bytes: &[u8], token: Token) -> bool
    ensures { result ≡ is_passed sort bytes.now token }
{
    match sort {
        Passed::Symbols => is_word_kind(token) && !ends_symbols(token_text(bytes, token)),
        Passed::Nodes => is_free_word(bytes, token),
        Passed::ToSemicolon => !is_semicolon(bytes, token),
        Passed::Lenient => {
            !(is_semicolon(bytes, token) || is_statement_word(token_text(bytes, token)))
        }
    }
}

/// How many tokens of the sort are at the front.
fn passed_len(sort: Passed, bytes: &[u8], tokens: &[Token]) -> usize
    ensures value { result ≡ prefix_len (is_passed sort bytes.now) tokens.now }
    ensures within { result ≤ length tokens.now }
{
    for (i, token) in tokens.iter().enumerate() {
        if !is_passed(sort, bytes, *token) {
            return i;
        }
    }
    tokens.len()
}

/// The tokens after all of the sort at the front.
pub fn pass<'a>(sort: Passed, bytes: &[u8], tokens: &'a [Token]) -> &'a [Token]
    ensures { result.now ≡ pass (is_passed sort bytes.now) tokens.now }
{
    &tokens[passed_len(sort, bytes, tokens)..]
}
