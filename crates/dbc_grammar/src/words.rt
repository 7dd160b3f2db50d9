//! The words that begin the statements of the DBC format.

ghost use Rattle.std.specs.Prelude.{◌≡◌};
ghost use Rattle.std.specs.List.{list_any};
ghost use Rattle.std.specs.Str.{bytes_eq};
ghost use Rattle.dbc_grammar.specs.Words.{is_statement_word, is_word_kind, is_free_word, form_words, unkept_words, is_among};

use sig_text::{Token, TokenKind};
use token_forms::token_text;

/// Words whose statements have forms of their own.
const FORM_WORDS: [&[u8]; 9] = [
    b"VERSION",
    b"NS_",
    b"BS_",
    b"BU_",
    b"BO_",
    b"SG_",
    b"VAL_",
    b"SIG_VALTYPE_",
    b"SG_MUL_VAL_",
];

/// Words whose statements are any tokens up to a `;`, and are not kept.
const UNKEPT_WORDS: [&[u8]; 26] = [
    b"VAL_TABLE_",
    b"BO_TX_BU_",
    b"EV_",
    b"EV_DATA_",
    b"ENVVAR_DATA_",
    b"SGTYPE_",
    b"SGTYPE_VAL_",
    b"SIGTYPE_VALTYPE_",
    b"SIG_TYPE_REF_",
    b"BA_DEF_SGTYPE_",
    b"BA_SGTYPE_",
    b"CM_",
    b"BA_DEF_",
    b"BA_DEF_REL_",
    b"BA_DEF_DEF_",
    b"BA_DEF_DEF_REL_",
    b"BA_",
    b"BA_REL_",
    b"BU_SG_REL_",
    b"BU_EV_REL_",
    b"BU_BO_REL_",
    b"SIG_GROUP_",
    b"CAT_",
    b"CAT_DEF_",
    b"FILTER",
    b"NS_DESC_",
];

/// Whether the text is one of the words.
fn is_among(text: &[u8], words: &[&[u8]]) -> bool
    ensures { result ≡ list_any (λ word. bytes_eq text.now word.now) words.now }
{
    for word in words {
        if text == *word {
            return true;
        }
    }
    false
}

/// Whether the text begins a statement with a form of its own.
#[tactic(auto, unfolding(crate::specs::Words::form_words))]
fn is_form_word(text: &[u8]) -> bool
    ensures { result ≡ is_among text.now form_words }
{
    is_among(text, &FORM_WORDS)
}

/// Whether the text begins a statement that is not kept, whatever is in it.
#[tactic(auto, unfolding(crate::specs::Words::unkept_words))]
pub fn is_unkept_word(text: &[u8]) -> bool
    ensures { result ≡ is_among text.now unkept_words }
{
    is_among(text, &UNKEPT_WORDS)
}

/// Whether the text begins a statement of the DBC format.
pub fn is_statement_word(text: &[u8]) -> bool
    ensures { result ≡ is_statement_word text.now }
{
    is_form_word(text) || is_unkept_word(text)
}

/// Whether the token is a word.
pub fn is_word_kind(token: Token) -> bool
    ensures { result ≡ is_word_kind token.kind }
{
    match token.kind {
        TokenKind::Word => true,
        TokenKind::Number | TokenKind::Str | TokenKind::Sign => false,
    }
}

/// Whether the token is a word that begins no statement.
pub fn is_free_word(bytes: &[u8], token: Token) -> bool
    ensures { result ≡ is_free_word bytes.now token }
{
    is_word_kind(token) && !is_statement_word(token_text(bytes, token))
}
