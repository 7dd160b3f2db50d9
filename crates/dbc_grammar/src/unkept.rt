//! The statements of which nothing is kept: version, new symbols, bit timing, nodes, the texts of environment
//! variables, and those that end at a `;`.

ghost use Rattle.std.specs.Prelude.{◌≡◌};
ghost use Rattle.token_forms.specs.Runs.{run_of};
ghost use Rattle.token_forms.specs.Views.{rest_view};
ghost use Rattle.dbc_grammar.specs.Forms.{optional, version_at, symbols_at, rate_at, timing_at, nodes_at, other_at, value_text_at, variable_texts_at, lenient_texts_at, unkept_at};

use crate::passed::{Passed, pass};
use crate::values::after_value_texts;
use crate::words::is_unkept_word;
use sig_text::Token;
use token_forms::{digits_at, literal_at, string_at, token_text, word_at};

/// The first of two, or the tokens as they were.
pub fn optional<'a>(tokens: &'a [Token], found: Option<&'a [Token]>) -> &'a [Token]
    ensures { result.now ≡ optional tokens.now (rest_view found.entry) }
{
    match found {
        Some(rest) => rest,
        None => tokens,
    }
}

#[tactic(auto, unfolding(crate::specs::Forms::version_at))]
fn version_at<'a>(bytes: &[u8], tokens: &'a [Token]) -> Option<&'a [Token]>
    ensures { rest_view result ≡ version_at bytes.now tokens.now }
{
    let rest = literal_at(bytes, b"VERSION", tokens)?;
    let (_version, rest) = string_at(rest)?;
    Some(rest)
}

#[tactic(auto, unfolding(crate::specs::Forms::symbols_at))]
fn symbols_at<'a>(bytes: &[u8], tokens: &'a [Token]) -> Option<&'a [Token]>
    ensures { rest_view result ≡ symbols_at bytes.now tokens.now }
{
    let rest = literal_at(bytes, b"NS_", tokens)?;
    let rest = literal_at(bytes, b":", rest)?;
    Some(pass(Passed::Symbols, bytes, rest))
}

#[tactic(auto, unfolding(crate::specs::Forms::rate_at))]
fn rate_at<'a>(bytes: &[u8], tokens: &'a [Token]) -> Option<&'a [Token]>
    ensures { rest_view result ≡ rate_at bytes.now tokens.now }
{
    let (_rate, rest) = digits_at(bytes, tokens)?;
    let rest = literal_at(bytes, b":", rest)?;
    let (_first, rest) = digits_at(bytes, rest)?;
    let rest = literal_at(bytes, b",", rest)?;
    let (_second, rest) = digits_at(bytes, rest)?;
    Some(rest)
}

#[tactic(auto, unfolding(crate::specs::Forms::timing_at))]
fn timing_at<'a>(bytes: &[u8], tokens: &'a [Token]) -> Option<&'a [Token]>
    ensures { rest_view result ≡ timing_at bytes.now tokens.now }
{
    let rest = literal_at(bytes, b"BS_", tokens)?;
    let rest = literal_at(bytes, b":", rest)?;
    Some(optional(rest, rate_at(bytes, rest)))
}

#[tactic(auto, unfolding(crate::specs::Forms::nodes_at))]
fn nodes_at<'a>(bytes: &[u8], tokens: &'a [Token]) -> Option<&'a [Token]>
    ensures { rest_view result ≡ nodes_at bytes.now tokens.now }
{
    let rest = literal_at(bytes, b"BU_", tokens)?;
    let rest = literal_at(bytes, b":", rest)?;
    Some(pass(Passed::Nodes, bytes, rest))
}

#[tactic(auto, unfolding(crate::specs::Forms::other_at))]
fn other_at<'a>(bytes: &[u8], tokens: &'a [Token]) -> Option<&'a [Token]>
    ensures { rest_view result ≡ other_at bytes.now tokens.now }
{
    let (word, rest) = word_at(tokens)?;
    if is_unkept_word(token_text(bytes, word)) {
        literal_at(bytes, b";", pass(Passed::ToSemicolon, bytes, rest))
    } else {
        None
    }
}

#[tactic(auto, unfolding(crate::specs::Forms::variable_texts_at))]
fn variable_texts_at<'a>(bytes: &[u8], tokens: &'a [Token]) -> Option<&'a [Token]>
    ensures { rest_view result ≡ variable_texts_at bytes.now tokens.now }
{
    let rest = literal_at(bytes, b"VAL_", tokens)?;
    let (_name, rest) = word_at(rest)?;
    literal_at(bytes, b";", after_value_texts(bytes, rest))
}

#[tactic(auto, unfolding(crate::specs::Forms::lenient_texts_at))]
fn lenient_texts_at<'a>(bytes: &[u8], tokens: &'a [Token]) -> Option<&'a [Token]>
    ensures { rest_view result ≡ lenient_texts_at bytes.now tokens.now }
{
    let rest = literal_at(bytes, b"VAL_", tokens)?;
    literal_at(bytes, b";", pass(Passed::Lenient, bytes, rest))
}

/// A statement of which nothing is kept: the tokens after it.
#[tactic(auto, unfolding(crate::specs::Forms::unkept_at))]
pub fn unkept_at<'a>(bytes: &[u8], tokens: &'a [Token]) -> Option<&'a [Token]>
    ensures { rest_view result ≡ unkept_at bytes.now tokens.now }
{
    if let Some(rest) = version_at(bytes, tokens) {
        return Some(rest);
    }
    if let Some(rest) = symbols_at(bytes, tokens) {
        return Some(rest);
    }
    if let Some(rest) = timing_at(bytes, tokens) {
        return Some(rest);
    }
    if let Some(rest) = nodes_at(bytes, tokens) {
        return Some(rest);
    }
    if let Some(rest) = variable_texts_at(bytes, tokens) {
        return Some(rest);
    }
    if let Some(rest) = lenient_texts_at(bytes, tokens) {
        return Some(rest);
    }
    other_at(bytes, tokens)
}
