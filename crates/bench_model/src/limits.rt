//! The fifth rule: how many messages, signals, value texts, entries and ranges there may be, and how long names
//! and texts are.

ghost use Rattle.std.specs.Prelude.{◌≡◌, ℕ, List, []};
ghost use Rattle.std.specs.List.{list_all};
ghost use Rattle.multiplex_tree.specs.Activity.{parent_at};
ghost use Rattle.bench_model.specs.declared.fault.CheckWhy.TheVariants.{Limit};
ghost use Rattle.bench_model.specs.declared.database.Message.{Message};
ghost use Rattle.bench_model.specs.Check.{is_name, is_text, has_short_text, is_small, has_few_ranges, message_breaks, signal_breaks, message_faults, faults_by};
ghost use Rattle.bench_model.specs.Verdict.{IsVerdict};

use crate::refusal::{message_fault, signal_fault};
use crate::{CheckFault, CheckWhy, Coding, Entry, Label, Message, Signal, Text};
use multiplex_tree::Tree;
use std::alloc::Global;

/// The most messages of a database.
const MOST_MESSAGES: usize = 65_536;
/// The most signals of a message.
const MOST_SIGNALS: usize = 1_024;
/// The most value texts, entries or ranges of a signal.
const MOST_CHOICES: usize = 65_536;
/// The most bytes of a name.
const LONGEST_NAME: usize = 128;
/// The most bytes of a unit or a value text.
const LONGEST_TEXT: usize = 1_024;

/// Whether a name has 1 to 128 bytes.
fn is_name(name: &Text) -> bool
    ensures { result ≡ is_name name.now }
{
    let length = name.bytes().len();
    1 <= length && length <= LONGEST_NAME
}

/// Whether a unit or a value text has at most 1,024 bytes.
fn is_text(text: &Text) -> bool
    ensures { result ≡ is_text text.now }
{
    text.bytes().len() <= LONGEST_TEXT
}

/// Whether the text or the unit of an entry is short enough.
fn has_short_text(entry: &Entry) -> bool
    ensures { result ≡ has_short_text entry.now }
{
    match entry {
        Entry::Logical {
            text: Some(text),
            ..
        } => is_text(text),
        Entry::Physical { unit, .. } => is_text(unit),
        Entry::Logical { text: None, .. } | Entry::Plain => true,
    }
}

/// Whether each value text is short enough.
fn have_short_texts(labels: &[Label]) -> bool
    ensures { result ≡ list_all (λ l. is_text l.text) labels.now }
{
    labels.iter().all(|label| is_text(&label.text))
}

/// Whether the text or the unit of each entry is short enough.
fn all_have_short_texts(entries: &[Entry]) -> bool
    ensures { result ≡ list_all has_short_text entries.now }
{
    entries.iter().all(has_short_text)
}

/// Whether a coding keeps the limits.
fn is_small(coding: &Coding) -> bool
    ensures { result ≡ is_small coding.now }
{
    match coding {
        Coding::Scaled { unit, labels, .. } => {
            let labels = labels.items();
            is_text(unit) && labels.len() <= MOST_CHOICES && have_short_texts(labels)
        }
        Coding::Listed { entries } => {
            let entries = entries.items();
            entries.len() <= MOST_CHOICES && all_have_short_texts(entries)
        }
    }
}

/// Whether the parent of the signal at this place, if it has one, selects it by few enough ranges.
fn has_few_ranges(tree: &Tree, place: usize) -> bool
    ensures { result ≡ has_few_ranges (parent_at tree.now.parents place) }
{
    match tree.parents.items().get(place) {
        Some(Some(parent)) => parent.ranges.items().len() <= MOST_CHOICES,
        Some(None) | None => true,
    }
}

/// Whether the message itself, apart from its signals, breaks a limit.
fn breaks_limits(message: &Message) -> bool
    ensures { result ≡ message_breaks Limit [] 0 message.now }
{
    !is_name(&message.name) || message.signals.items().len() > MOST_SIGNALS
}

/// Whether the signal at this place of the message breaks a limit.
fn signal_breaks_limits(message: &Message, place: usize, signal: &Signal) -> bool
    ensures { result ≡ signal_breaks Limit message.now place signal.now }
{
    !(is_name(&signal.name) && is_small(&signal.coding) && has_few_ranges(&message.tree, place))
}

/// A message keeps the limits, its own judged before those of its signals.
fn check_message_limits(alloc: Global, message: &Message) -> Result<(), CheckFault>
    ensures { (ms : List Message) (i : ℕ) → IsVerdict (message_faults Limit ms (i, message.now)) result }
{
    if breaks_limits(message) {
        return Err(message_fault(CheckWhy::Limit, message));
    }
    for (place, signal) in message.signals.items().iter().enumerate() {
        if signal_breaks_limits(message, place, signal) {
            return Err(signal_fault(alloc, CheckWhy::Limit, message, signal));
        }
    }
    Ok(())
}

/// The number of messages and every message keep the limits.
pub(crate) fn check_limits(alloc: Global, messages: &[Message]) -> Result<(), CheckFault>
    ensures { IsVerdict (faults_by messages.now Limit) result }
{
    if messages.len() > MOST_MESSAGES {
        return Err(CheckFault::At {
            why: CheckWhy::Limit,
            message: None,
            signal: None,
        });
    }
    for message in messages {
        check_message_limits(alloc, message)?;
    }
    Ok(())
}
