//! Messages of which one thing is at the edge of a limit.

ghost use Rattle.std.specs.Prelude.{◌≡◌, ◌<◌, length, IfOk, All};
ghost use Rattle.multiplex_tree.specs.Trees.{IsTreeOver};
ghost use Rattle.bench_model.specs.Limits.{IsLabel, IsEntry, IsCoding, IsMade};

use crate::building::label_of;
use crate::signals::{M, M1M, PLAIN};
use bench_model::{Coding, Entry, Key, Label, Message, Order, Scale, Signal, Text};
use multiplex_tree::{Link, List, Mark, Range, Tree, resolve};
use std::alloc::{AllocError, Global};
use std::test::Fail;

/// What is at its edge in messages of one plain signal each. Texts are given by their lengths.
#[derive(Clone, Copy)]
pub enum Edge {
    Length(u32),
    Size(u32),
    Start(u32),
    Float(bool),
    MessageName(usize),
    SignalName(usize),
    Unit(usize),
    LabelText(usize),
    EntryText(usize),
    EntryUnit(usize),
    Labels(usize),
    Entries(usize),
    Ranges(usize),
    Signals(u32),
    Messages(u32),
    /// So many messages, none of which has a name.
    Nameless(u32),
}

fn text_of(alloc: Global, length: usize) -> Result<Text, AllocError> {
    Ok(Text::from_vec(vec![in alloc; b'n'; length]?))
}

/// A raw value for its value.
const ONE_TO_ONE: Scale = Scale {
    factor: 1,
    offset: 0,
    k: 0,
};

/// So many value texts.
fn labels_of(alloc: Global, count: usize, text: usize) -> Result<Vec<Label>, AllocError>
    ensures { IfOk result (λ labels. All IsLabel labels.items) }
{
    let mut labels = Vec::new(alloc);
    for _label in 0..count {
        let text = text_of(alloc, text)?;
        labels.push(label_of(0, text))?;
    }
    Ok(labels)
}

/// A scaling with so many value texts.
pub fn scaled_coding(
    alloc: Global,
    unit: usize,
    count: usize,
    text: usize,
) -> Result<Coding, AllocError>
    ensures { IfOk result IsCoding }
{
    let unit = text_of(alloc, unit)?;
    let labels = labels_of(alloc, count, text)?;
    Ok(Coding::Scaled {
        scale: ONE_TO_ONE,
        unit,
        labels: List::of(labels),
    })
}

fn range_of(alloc: Global, unit: usize) -> Result<Entry, AllocError>
    ensures { IfOk result IsEntry }
{
    let unit = text_of(alloc, unit)?;
    Ok(Entry::Physical {
        low: 0,
        high: 9,
        scale: ONE_TO_ONE,
        unit,
    })
}

fn logical_of(alloc: Global, text: usize) -> Result<Entry, AllocError>
    ensures { IfOk result IsEntry }
{
    let text = text_of(alloc, text)?;
    Ok(Entry::Logical {
        raw: 0,
        text: Some(text),
    })
}

/// An encoding of so many entries after a range.
fn listed_coding(
    alloc: Global,
    unit: usize,
    count: usize,
    text: usize,
) -> Result<Coding, AllocError>
    ensures { IfOk result IsCoding }
{
    let mut entries = Vec::new(alloc);
    entries.push(range_of(alloc, unit)?)?;
    for _entry in 1..count {
        entries.push(logical_of(alloc, text)?)?;
    }
    Ok(Coding::Listed {
        entries: List::of(entries),
    })
}

fn coding_at(alloc: Global, edge: Edge) -> Result<Coding, AllocError>
    ensures { IfOk result IsCoding }
{
    match edge {
        Edge::Unit(length) => scaled_coding(alloc, length, 0, 0),
        Edge::LabelText(length) => scaled_coding(alloc, 0, 1, length),
        Edge::Labels(count) => scaled_coding(alloc, 0, count, 0),
        Edge::EntryText(length) => listed_coding(alloc, 0, 2, length),
        Edge::EntryUnit(length) => listed_coding(alloc, length, 1, 0),
        Edge::Entries(count) => listed_coding(alloc, 0, count, 0),
        _ => scaled_coding(alloc, 0, 0, 0),
    }
}

/// A number in decimal digits.
pub fn digits_of(alloc: Global, number: u32) -> Result<Vec<u8>, AllocError> {
    Ok(number.to_string(alloc)?.into_bytes())
}

/// The name of a signal: its place, unless its name is at its edge.
fn name_at(alloc: Global, edge: Edge, place: u32) -> Result<Text, AllocError> {
    match edge {
        Edge::SignalName(length) => text_of(alloc, length),
        _ => Text::of(alloc, &digits_of(alloc, place)?),
    }
}

fn start_at(edge: Edge) -> u32 {
    match edge {
        Edge::Start(start) => start,
        _ => 0,
    }
}

fn size_at(edge: Edge) -> u32 {
    match edge {
        Edge::Size(size) => size,
        _ => 8,
    }
}

fn float_at(edge: Edge) -> bool {
    match edge {
        Edge::Float(float) => float,
        _ => false,
    }
}

/// A plain signal of this name, start, size and kind of number.
pub fn signal_of(name: Text, start: u32, size: u32, float: bool, coding: Coding) -> Signal
    requires { IsCoding coding }
    ensures { IsCoding result.coding }
{
    Signal {
        name,
        start,
        size,
        order: Order::Intel,
        signed: false,
        float,
        coding,
    }
}

fn signal_at(alloc: Global, edge: Edge, place: u32) -> Result<Signal, AllocError>
    ensures { IfOk result (λ signal. IsCoding signal.coding) }
{
    let name = name_at(alloc, edge, place)?;
    let coding = coding_at(alloc, edge)?;
    Ok(signal_of(name, start_at(edge), size_at(edge), float_at(edge), coding))
}

fn signals_at(alloc: Global, edge: Edge, count: u32) -> Result<Vec<Signal>, AllocError>
    ensures { IfOk result (λ signals. All (λ s. IsCoding s.coding) signals.items) }
{
    let mut signals = Vec::new(alloc);
    for place in 0..count {
        signals.push(signal_at(alloc, edge, place)?)?;
    }
    Ok(signals)
}

/// The tree of so many signals without multiplexer indicators.
pub fn plain_tree(alloc: Global, signals: usize) -> Result<Tree, Fail>
    ensures { IfOk result (λ tree. IsTreeOver signals tree.parents) }
{
    let marks = vec![in alloc; PLAIN; signals]?;
    Ok(resolve(alloc, &marks, &[])?)
}

/// The tree of two signals, the second below the first with so many ranges.
fn ranged_tree(alloc: Global, count: usize) -> Result<Tree, Fail>
    ensures { IfOk result (λ tree. IsTreeOver 2 tree.parents) }
{
    let ranges = vec![in alloc; Range { low: 0, high: 0 }; count]?;
    let link = Link {
        child: 1,
        parent: Some(0),
        ranges: List::of(ranges),
    };
    let links = vec![in alloc; link]?;
    Ok(resolve(alloc, &[M, M1M], &links)?)
}

/// The tree of so many signals, of which the second has its ranges at the edge or none has a parent.
fn tree_at(alloc: Global, edge: Edge, signals: usize) -> Result<Tree, Fail>
    ensures { IfOk result (λ tree. IsTreeOver signals tree.parents) }
{
    match edge {
        Edge::Ranges(count) if signals == 2 => ranged_tree(alloc, count),
        _ => plain_tree(alloc, signals),
    }
}

/// The length of a message's name.
fn name_length_at(edge: Edge) -> usize {
    match edge {
        Edge::MessageName(length) => length,
        Edge::Nameless(_) => 0,
        _ => 1,
    }
}

fn length_at(edge: Edge) -> u32 {
    match edge {
        Edge::Length(length) => length,
        _ => 8,
    }
}

fn signal_count_at(edge: Edge) -> u32 {
    match edge {
        Edge::Signals(count) => count,
        Edge::Ranges(_) => 2,
        _ => 1,
    }
}

fn message_count_at(edge: Edge) -> u32 {
    match edge {
        Edge::Messages(count) | Edge::Nameless(count) => count,
        _ => 1,
    }
}

/// A message of so many bytes and these parts.
pub fn made(name: Text, key: Key, size: u32, signals: Vec<Signal>, tree: Tree) -> Message
    requires tree { IsTreeOver (length signals.items) tree.parents }
    requires codings { All (λ s. IsCoding s.coding) signals.items }
    ensures { IsMade result }
{
    Message {
        name,
        key,
        length: size,
        signals: List::of(signals),
        tree,
    }
}

/// A message whose identifier is its place.
fn message_at(alloc: Global, edge: Edge, place: u32) -> Result<Message, Fail>
    ensures { IfOk result IsMade }
{
    let name = text_of(alloc, name_length_at(edge))?;
    let key = Key {
        extended: false,
        id: place,
    };
    let signals = signals_at(alloc, edge, signal_count_at(edge))?;
    let tree = tree_at(alloc, edge, signals.len())?;
    Ok(made(name, key, length_at(edge), signals, tree))
}

pub fn messages_at(alloc: Global, edge: Edge) -> Result<Vec<Message>, Fail>
    ensures { IfOk result (λ messages. All IsMade messages.items) }
{
    let mut messages = Vec::new(alloc);
    for place in 0..message_count_at(edge) {
        messages.push(message_at(alloc, edge, place)?)?;
    }
    Ok(messages)
}
