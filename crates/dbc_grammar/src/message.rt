//! A message's statement, with the signals directly below it.

ghost use Rattle.std.specs.Prelude.{◌≡◌, IfOk};
ghost use Rattle.token_forms.specs.Runs.{run_of};
ghost use Rattle.token_forms.specs.Views.{found_view};
ghost use Rattle.dbc_grammar.specs.Forms.{signal_at, is_identifier, heading_at, message_at};

use crate::keys::{FIRST_LONG_ID, LAST_SHORT_ID};
use crate::signal::signal_at;
use crate::statement::{Heading, MessageForm, SignalForm};
use crate::values::small_at;
use multiplex_tree::List;
use sig_text::Token;
use std::alloc::{AllocError, Global};
use token_forms::{literal_at, word_at};

/// An identifier of 11 bits, or of 29 bits with bit 31 set.
fn is_identifier(id: u32) -> bool
    ensures { result ≡ is_identifier id }
{
    id <= LAST_SHORT_ID || FIRST_LONG_ID <= id
}

/// `BO_ id Word : length Word`
#[tactic(auto, unfolding(crate::specs::Forms::heading_at))]
fn heading_at<'a>(bytes: &[u8], tokens: &'a [Token]) -> Option<(Heading, &'a [Token])>
    ensures { found_view result ≡ heading_at bytes.now tokens.now }
{
    let rest = literal_at(bytes, b"BO_", tokens)?;
    let (id, rest) = small_at(bytes, rest)?;
    let (name, rest) = word_at(rest)?;
    let rest = literal_at(bytes, b":", rest)?;
    let (byte_count, rest) = small_at(bytes, rest)?;
    let (_sender, rest) = word_at(rest)?;
    if is_identifier(id) {
        Some((
            Heading {
                id,
                name,
                byte_count,
            },
            rest,
        ))
    } else {
        None
    }
}

/// All signals at the front.
fn signals_at<'a>(
    alloc: Global,
    bytes: &[u8],
    tokens: &'a [Token],
) -> Result<(List<SignalForm>, &'a [Token]), AllocError>
    ensures { IfOk result (λ run. (run.0, run.1.now) ≡ run_of (signal_at bytes.now) tokens.now) }
{
    let mut signals = Vec::new(alloc);
    let mut rest = tokens;
    for turn in 0..tokens.len() {
        match signal_at(bytes, rest) {
            Some((signal, after)) => {
                signals.push(signal)?;
                rest = after;
            }
            None => return Ok((List::of(signals), rest)),
        }
    }
    Ok((List::of(signals), rest))
}

/// A message with the signals directly below it.
#[tactic(auto, unfolding(crate::specs::Forms::message_at))]
pub fn message_at<'a>(
    alloc: Global,
    bytes: &[u8],
    tokens: &'a [Token],
) -> Result<Option<(MessageForm, &'a [Token])>, AllocError>
    ensures { IfOk result (λ found. found_view found ≡ message_at bytes.now tokens.now) }
{
    match heading_at(bytes, tokens) {
        Some((heading, rest)) => {
            let (signals, rest) = signals_at(alloc, bytes, rest)?;
            Ok(Some((MessageForm { heading, signals }, rest)))
        }
        None => Ok(None),
    }
}
