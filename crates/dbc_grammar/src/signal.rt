//! A signal's statement.

ghost use Rattle.std.specs.Prelude.{◌≡◌};
ghost use Rattle.token_forms.specs.Runs.{run_of};
ghost use Rattle.token_forms.specs.Views.{rest_view, found_view};
ghost use Rattle.dbc_grammar.specs.Forms.{without_last_M, mark_of, mark_at, order_at, signedness_at, place_at, scaling_at, limits_at, node_at, receiver_at, receivers_at, signal_head_at, signal_at};
ghost use Rattle.dbc_grammar.specs.Statements.{place_of_first};
ghost use Rattle.dbc_grammar.specs.Views.{bytes_view, triple_view};

use crate::statement::{Place, Scaling, SignalForm};
use crate::unkept::optional;
use crate::values::small_at;
use crate::words::is_free_word;
use bench_model::Order;
use byte_forms::{Radix, after_literal, number_up_to};
use multiplex_tree::Mark;
use sig_text::Token;
use token_forms::{literal_at, signed_at, string_at, token_text, word_at};

/// The greatest group of a signal.
const MOST_GROUP: u64 = 4_294_967_295;

/// The text before an `M` at the end.
fn without_last_m(text: &[u8]) -> Option<&[u8]>
    ensures { bytes_view result ≡ without_last_M text.now }
{
    if !text.is_empty() && text[text.len() - 1] == b'M' {
        Some(&text[..text.len() - 1])
    } else {
        None
    }
}

/// `M`, `m` and digits, or `m`, digits and `M`.
#[tactic(auto, unfolding(crate::specs::Forms::mark_of))]
fn mark_of(text: &[u8]) -> Option<Mark>
    ensures { result ≡ mark_of text.now }
{
    if text == b"M".as_slice() {
        return Some(Mark {
            multiplexor: true,
            group: None,
        });
    }
    let digits = after_literal(b"m", text)?;
    if let Some(n) = number_up_to(Radix::Decimal, MOST_GROUP, digits) {
        return Some(Mark {
            multiplexor: false,
            group: Some(n),
        });
    }
    let digits = without_last_m(digits)?;
    let n = number_up_to(Radix::Decimal, MOST_GROUP, digits)?;
    Some(Mark {
        multiplexor: true,
        group: Some(n),
    })
}

/// The mark of a signal, which may be missing.
fn mark_at<'a>(bytes: &[u8], tokens: &'a [Token]) -> Option<(Mark, &'a [Token])>
    ensures { found_view result ≡ mark_at bytes.now tokens.now }
{
    match word_at(tokens) {
        Some((word, rest)) => {
            let mark = mark_of(token_text(bytes, word))?;
            Some((mark, rest))
        }
        None => Some((
            Mark {
                multiplexor: false,
                group: None,
            },
            tokens,
        )),
    }
}

#[tactic(auto, unfolding(crate::specs::Forms::order_at))]
fn order_at<'a>(bytes: &[u8], tokens: &'a [Token]) -> Option<(Order, &'a [Token])>
    ensures { found_view result ≡ order_at bytes.now tokens.now }
{
    if let Some(rest) = literal_at(bytes, b"1", tokens) {
        return Some((Order::Intel, rest));
    }
    let rest = literal_at(bytes, b"0", tokens)?;
    Some((Order::Motorola, rest))
}

#[tactic(auto, unfolding(crate::specs::Forms::signedness_at))]
fn signedness_at<'a>(bytes: &[u8], tokens: &'a [Token]) -> Option<(bool, &'a [Token])>
    ensures { found_view result ≡ signedness_at bytes.now tokens.now }
{
    if let Some(rest) = literal_at(bytes, b"+", tokens) {
        return Some((false, rest));
    }
    let rest = literal_at(bytes, b"-", tokens)?;
    Some((true, rest))
}

/// `start | size @ order sign`
#[tactic(auto, unfolding(crate::specs::Forms::place_at))]
fn place_at<'a>(bytes: &[u8], tokens: &'a [Token]) -> Option<(Place, &'a [Token])>
    ensures { found_view result ≡ place_at bytes.now tokens.now }
{
    let (start, rest) = small_at(bytes, tokens)?;
    let rest = literal_at(bytes, b"|", rest)?;
    let (size, rest) = small_at(bytes, rest)?;
    let rest = literal_at(bytes, b"@", rest)?;
    let (order, rest) = order_at(bytes, rest)?;
    let (signed, rest) = signedness_at(bytes, rest)?;
    Some((
        Place {
            start,
            size,
            order,
            signed,
        },
        rest,
    ))
}

/// `( factor , offset )`
#[tactic(auto, unfolding(crate::specs::Forms::scaling_at))]
fn scaling_at<'a>(bytes: &[u8], tokens: &'a [Token]) -> Option<(Scaling, &'a [Token])>
    ensures { found_view result ≡ scaling_at bytes.now tokens.now }
{
    let rest = literal_at(bytes, b"(", tokens)?;
    let (factor, rest) = signed_at(bytes, rest)?;
    let rest = literal_at(bytes, b",", rest)?;
    let (offset, rest) = signed_at(bytes, rest)?;
    let rest = literal_at(bytes, b")", rest)?;
    Some((Scaling { factor, offset }, rest))
}

/// `[ min | max ]`, which is not kept.
#[tactic(auto, unfolding(crate::specs::Forms::limits_at))]
fn limits_at<'a>(bytes: &[u8], tokens: &'a [Token]) -> Option<&'a [Token]>
    ensures { rest_view result ≡ limits_at bytes.now tokens.now }
{
    let rest = literal_at(bytes, b"[", tokens)?;
    let (_low, rest) = signed_at(bytes, rest)?;
    let rest = literal_at(bytes, b"|", rest)?;
    let (_high, rest) = signed_at(bytes, rest)?;
    literal_at(bytes, b"]", rest)
}

/// A word that begins no statement.
#[tactic(auto, unfolding(crate::specs::Forms::node_at))]
fn node_at<'a>(bytes: &[u8], tokens: &'a [Token]) -> Option<(Token, &'a [Token])>
    ensures { found_view result ≡ node_at bytes.now tokens.now }
{
    let (word, rest) = word_at(tokens)?;
    if is_free_word(bytes, word) {
        Some((word, rest))
    } else {
        None
    }
}

/// One more receiver, with a `,` before it or nothing.
#[tactic(auto, unfolding(crate::specs::Forms::receiver_at))]
fn receiver_at<'a>(bytes: &[u8], tokens: &'a [Token]) -> Option<(Token, &'a [Token])>
    ensures { found_view result ≡ receiver_at bytes.now tokens.now }
{
    node_at(bytes, optional(tokens, literal_at(bytes, b",", tokens)))
}

/// The tokens after all receivers that follow another one.
fn after_receivers<'a>(bytes: &[u8], tokens: &'a [Token]) -> &'a [Token]
    ensures { result.now ≡ (run_of (receiver_at bytes.now) tokens.now).1 }
{
    let mut rest = tokens;
    for turn in 0..tokens.len() {
        match receiver_at(bytes, rest) {
            Some((_receiver, after)) => rest = after,
            None => return rest,
        }
    }
    rest
}

/// The tokens after any number of receivers.
#[tactic(auto, unfolding(crate::specs::Forms::receivers_at))]
fn receivers_at<'a>(bytes: &[u8], tokens: &'a [Token]) -> &'a [Token]
    ensures { result.now ≡ receivers_at bytes.now tokens.now }
{
    match node_at(bytes, tokens) {
        Some((_first, rest)) => after_receivers(bytes, rest),
        None => tokens,
    }
}

/// `SG_ Word mark? :`
#[tactic(auto, unfolding(crate::specs::Forms::signal_head_at))]
fn signal_head_at<'a>(bytes: &[u8], tokens: &'a [Token]) -> Option<(Token, Mark, &'a [Token])>
    ensures { triple_view result ≡ signal_head_at bytes.now tokens.now }
{
    let rest = literal_at(bytes, b"SG_", tokens)?;
    let (name, rest) = word_at(rest)?;
    let (mark, rest) = mark_at(bytes, rest)?;
    let rest = literal_at(bytes, b":", rest)?;
    Some((name, mark, rest))
}

/// Where the first token is.
pub fn place_of_first(tokens: &[Token]) -> usize
    ensures { result ≡ place_of_first tokens.now }
{
    match tokens {
        [token, ..] => token.at,
        [] => 0,
    }
}

/// A signal.
#[tactic(auto, unfolding(crate::specs::Forms::signal_at))]
pub fn signal_at<'a>(bytes: &[u8], tokens: &'a [Token]) -> Option<(SignalForm, &'a [Token])>
    ensures { found_view result ≡ signal_at bytes.now tokens.now }
{
    let (name, mark, rest) = signal_head_at(bytes, tokens)?;
    let (place, rest) = place_at(bytes, rest)?;
    let (scaling, rest) = scaling_at(bytes, rest)?;
    let rest = limits_at(bytes, rest)?;
    let (unit, rest) = string_at(rest)?;
    Some((
        SignalForm {
            at: place_of_first(tokens),
            name,
            mark,
            place,
            scaling,
            unit,
        },
        receivers_at(bytes, rest),
    ))
}
