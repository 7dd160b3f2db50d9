//! Value texts and value types of signals.

ghost use Rattle.std.specs.Prelude.{◌≡◌, IfOk};
ghost use Rattle.token_forms.specs.Runs.{run_of};
ghost use Rattle.token_forms.specs.Views.{rest_view, found_view};
ghost use Rattle.dbc_grammar.specs.Forms.{small_at, value_text_at, named_at, signal_texts_at, type_at, value_type_at};
ghost use Rattle.dbc_grammar.specs.Views.{triple_view};

use crate::statement::{Note, Says, ValueText};
use crate::unkept::optional;
use multiplex_tree::List;
use sig_text::Token;
use std::alloc::{AllocError, Global};
use token_forms::{literal_at, signed_at, string_at, whole_at, word_at};

/// A whole number of 32 bits.
pub fn small_at<'a>(bytes: &[u8], tokens: &'a [Token]) -> Option<(u32, &'a [Token])>
    ensures { found_view result ≡ small_at bytes.now tokens.now }
{
    let (number, rest) = whole_at(bytes, 4_294_967_295, tokens)?;
    Some((number as u32, rest))
}

#[tactic(auto, unfolding(crate::specs::Forms::value_text_at))]
fn value_text_at<'a>(bytes: &[u8], tokens: &'a [Token]) -> Option<(ValueText, &'a [Token])>
    ensures { found_view result ≡ value_text_at bytes.now tokens.now }
{
    let (number, rest) = signed_at(bytes, tokens)?;
    let (text, rest) = string_at(rest)?;
    Some((ValueText { number, text }, rest))
}

/// The tokens after all value texts at the front.
pub fn after_value_texts<'a>(bytes: &[u8], tokens: &'a [Token]) -> &'a [Token]
    ensures { result.now ≡ (run_of (value_text_at bytes.now) tokens.now).1 }
{
    let mut rest = tokens;
    for turn in 0..tokens.len() {
        match value_text_at(bytes, rest) {
            Some((_text, after)) => rest = after,
            None => return rest,
        }
    }
    rest
}

/// All value texts at the front, each of one token at least.
fn value_texts_at<'a>(
    alloc: Global,
    bytes: &[u8],
    tokens: &'a [Token],
) -> Result<(List<ValueText>, &'a [Token]), AllocError>
    ensures { IfOk result (λ run. (run.0, run.1.now) ≡ run_of (value_text_at bytes.now) tokens.now) }
{
    let mut texts = Vec::new(alloc);
    let mut rest = tokens;
    for turn in 0..tokens.len() {
        match value_text_at(bytes, rest) {
            Some((text, after)) => {
                texts.push(text)?;
                rest = after;
            }
            None => return Ok((List::of(texts), rest)),
        }
    }
    Ok((List::of(texts), rest))
}

/// The identifier and the name behind the word of a statement about a signal.
pub fn named_at<'a>(
    bytes: &[u8],
    word: &[u8],
    tokens: &'a [Token],
) -> Option<(u32, Token, &'a [Token])>
    ensures { triple_view result ≡ named_at bytes.now word.now tokens.now }
{
    let rest = literal_at(bytes, word, tokens)?;
    let (id, rest) = small_at(bytes, rest)?;
    let (name, rest) = word_at(rest)?;
    Some((id, name, rest))
}

/// The value texts of a signal.
#[tactic(auto, unfolding(crate::specs::Forms::signal_texts_at))]
pub fn signal_texts_at<'a>(
    alloc: Global,
    bytes: &[u8],
    tokens: &'a [Token],
) -> Result<Option<(Note, &'a [Token])>, AllocError>
    ensures { IfOk result (λ found. found_view found ≡ signal_texts_at bytes.now tokens.now) }
{
    let Some((id, signal, rest)) = named_at(bytes, b"VAL_", tokens) else {
        return Ok(None);
    };
    let (texts, rest) = value_texts_at(alloc, bytes, rest)?;
    match literal_at(bytes, b";", rest) {
        Some(rest) => Ok(Some((
            Note {
                id,
                signal,
                says: Says::Texts(texts),
            },
            rest,
        ))),
        None => Ok(None),
    }
}

/// `:? type ;`
#[tactic(auto, unfolding(crate::specs::Forms::type_at))]
fn type_at<'a>(bytes: &[u8], tokens: &'a [Token]) -> Option<(u32, &'a [Token])>
    ensures { found_view result ≡ type_at bytes.now tokens.now }
{
    let after = optional(tokens, literal_at(bytes, b":", tokens));
    let (kind, rest) = whole_at(bytes, 2, after)?;
    let rest = literal_at(bytes, b";", rest)?;
    Some((kind as u32, rest))
}

/// The value type of a signal.
#[tactic(auto, unfolding(crate::specs::Forms::value_type_at))]
pub fn value_type_at<'a>(bytes: &[u8], tokens: &'a [Token]) -> Option<(Note, &'a [Token])>
    ensures { found_view result ≡ value_type_at bytes.now tokens.now }
{
    let (id, signal, rest) = named_at(bytes, b"SIG_VALTYPE_", tokens)?;
    let (kind, rest) = type_at(bytes, rest)?;
    let says = Says::Type(kind);
    Some((Note { id, signal, says }, rest))
}
