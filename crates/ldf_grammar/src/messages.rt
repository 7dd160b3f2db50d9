//! The messages that frames become.

ghost use Rattle.std.specs.Prelude.{◌≡◌, ◌++◌, IfOk, OnOk, None, map, replicate};
ghost use Rattle.ldf_grammar.specs.Gather.{Definitions, entries_of, signal_of, signal_in, signals_of, message_of, messages_in, messages_of};
ghost use Rattle.ldf_grammar.specs.Lookup.{HasDefinitions};

use crate::lookups::Lookups;
use crate::statement::{Frame, FrameSignal, SignalLine, Statement};
use bench_model::{Coding, Entry, Key, Message, Order, Signal, Text};
use multiplex_tree::{List, Parent, Tree};
use std::alloc::{AllocError, Global};
use token_forms::token_text;

/// An equal entry of its own.
fn copy_entry(alloc: Global, entry: &Entry) -> Result<Entry, AllocError>
    ensures { IfOk result (λ copy. copy ≡ entry.now) }
{
    match entry {
        Entry::Logical {
            raw,
            text: Some(text),
        } => Ok(Entry::Logical {
            raw: *raw,
            text: Some(text.copy(alloc)?),
        }),
        Entry::Logical { raw, text: None } => Ok(Entry::Logical {
            raw: *raw,
            text: None,
        }),
        Entry::Physical {
            low,
            high,
            scale,
            unit,
        } => Ok(Entry::Physical {
            low: *low,
            high: *high,
            scale: *scale,
            unit: unit.copy(alloc)?,
        }),
        Entry::Plain => Ok(Entry::Plain),
    }
}

/// Equal entries of their own.
fn copy_entries(alloc: Global, entries: &[Entry]) -> Result<List<Entry>, AllocError>
    ensures { IfOk result (λ copies. copies ≡ entries.now) }
{
    let mut copies = Vec::with_capacity(alloc, entries.len())?;
    for entry in entries {
        copies.push(copy_entry(alloc, entry)?)?;
    }
    Ok(List::of(copies))
}

/// The entries of a signal: those of its encoding, or none; a byte array has none.
fn entries_of<'a>(
    alloc: Global,
    bytes: &'a [u8],
    lookups: &Lookups<'a, '_>,
    name: &'a [u8],
    line: SignalLine,
) -> Result<List<Entry>, AllocError>
    ensures { (d : Definitions) → HasDefinitions lookups.now d →
        IfOk result (λ entries. entries ≡ entries_of bytes.now d name.now line) }
{
    match lookups.entries(bytes, name) {
        Some(entries) if !line.is_array => copy_entries(alloc, entries),
        _ => Ok(List::of(Vec::new(alloc))),
    }
}

/// The signal of a frame whose definition is this line.
fn signal_of<'a>(
    alloc: Global,
    bytes: &'a [u8],
    lookups: &Lookups<'a, '_>,
    signal: &FrameSignal,
    line: SignalLine,
) -> Result<Signal, AllocError>
    ensures { (d : Definitions) → HasDefinitions lookups.now d →
        IfOk result (λ made. made ≡ signal_of bytes.now d signal.now line) }
{
    let name = token_text(bytes, signal.name);
    Ok(Signal {
        name: Text::of(alloc, name)?,
        start: signal.offset,
        size: line.size,
        order: Order::Intel,
        signed: false,
        float: false,
        coding: Coding::Listed {
            entries: entries_of(alloc, bytes, lookups, name, line)?,
        },
    })
}

/// Adds the signal, where it is defined.
fn add_signal<'a>(
    alloc: Global,
    bytes: &'a [u8],
    lookups: &Lookups<'a, '_>,
    signal: &FrameSignal,
    signals: &mut Vec<Signal>,
) -> Result<(), AllocError>
    ensures { (d : Definitions) → HasDefinitions lookups.now d →
        OnOk result (signals.new.items ≡ signals.old.items ++ signal_in bytes.now d signal.now) }
{
    match lookups.signal(token_text(bytes, signal.name)) {
        Some(line) => {
            signals.push(signal_of(alloc, bytes, lookups, signal, line)?)?;
            Ok(())
        }
        None => Ok(()),
    }
}

/// The signals of a frame that are defined.
fn signals_of<'a>(
    alloc: Global,
    bytes: &'a [u8],
    lookups: &Lookups<'a, '_>,
    frame: &Frame,
) -> Result<Vec<Signal>, AllocError>
    ensures { (d : Definitions) → HasDefinitions lookups.now d →
        IfOk result (λ signals. signals.items ≡ signals_of bytes.now d frame.now) }
{
    let mut signals = Vec::new(alloc);
    for signal in frame.signals.items() {
        add_signal(alloc, bytes, lookups, signal, &mut signals)?;
    }
    Ok(signals)
}

/// A tree of so many signals without parents.
fn tree_without_parents(alloc: Global, count: usize) -> Result<Tree, AllocError>
    ensures { IfOk result (λ tree. tree.parents ≡ replicate count None) }
{
    let mut parents: Vec<Option<Parent>> = Vec::with_capacity(alloc, count)?;
    while parents.len() < count {
        parents.push(None)?;
    }
    Ok(Tree {
        parents: List::of(parents),
    })
}

/// The message of a frame.
fn message_of<'a>(
    alloc: Global,
    bytes: &'a [u8],
    lookups: &Lookups<'a, '_>,
    frame: &Frame,
) -> Result<Message, AllocError>
    ensures { (d : Definitions) → HasDefinitions lookups.now d →
        IfOk result (λ message. message ≡ message_of bytes.now d frame.now) }
{
    let signals = signals_of(alloc, bytes, lookups, frame)?;
    let tree = tree_without_parents(alloc, signals.len())?;
    Ok(Message {
        name: Text::of(alloc, token_text(bytes, frame.name))?,
        key: Key {
            extended: false,
            id: frame.id,
        },
        length: frame.length,
        signals: List::of(signals),
        tree,
    })
}

/// Adds the messages of a section `Frames`.
fn add_messages<'a>(
    alloc: Global,
    bytes: &'a [u8],
    lookups: &Lookups<'a, '_>,
    frames: &[Frame],
    messages: &mut Vec<Message>,
) -> Result<(), AllocError>
    ensures { (d : Definitions) → HasDefinitions lookups.now d →
        OnOk result (messages.new.items ≡ messages.old.items ++ map (message_of bytes.now d) frames.now) }
{
    for frame in frames {
        messages.push(message_of(alloc, bytes, lookups, frame)?)?;
    }
    Ok(())
}

/// Adds the messages that a statement makes.
fn add_made<'a>(
    alloc: Global,
    bytes: &'a [u8],
    lookups: &Lookups<'a, '_>,
    statement: &Statement,
    messages: &mut Vec<Message>,
) -> Result<(), AllocError>
    ensures { (d : Definitions) → HasDefinitions lookups.now d →
        OnOk result (messages.new.items ≡ messages.old.items ++ messages_in bytes.now d statement.now) }
{
    match statement {
        Statement::Frames { frames } => {
            add_messages(alloc, bytes, lookups, frames.items(), messages)
        }
        Statement::Signals { .. }
        | Statement::Encodings { .. }
        | Statement::Representations { .. }
        | Statement::PassedOver => Ok(()),
    }
}

/// The messages of all frames in order.
pub(crate) fn messages_of<'a>(
    alloc: Global,
    bytes: &'a [u8],
    lookups: &Lookups<'a, '_>,
    statements: &[Statement],
) -> Result<Vec<Message>, AllocError>
    ensures { (d : Definitions) → HasDefinitions lookups.now d →
        IfOk result (λ messages. messages.items ≡ messages_of bytes.now d statements.now) }
{
    let mut messages = Vec::new(alloc);
    for statement in statements {
        add_made(alloc, bytes, lookups, statement, &mut messages)?;
    }
    Ok(messages)
}
