//! Signals with their parents, and messages.

ghost use Rattle.std.specs.Prelude.{◌≡◌, ◌++◌, ◌<◌, [], ◌∷◌, OnOk, IfOk};
ghost use Rattle.image_compiler.specs.Size.{signal_behind, parent_behind, message_behind};
ghost use Rattle.image_compiler.specs.Layout.{signal_row, signal_rows, signal_parts, parent_row, parent_parts, ranges_words, message_row, message_parts, signals_words, shape_word};
ghost use Rattle.image_compiler.specs.Typed.{IsTypedSignal, IsTypedMessage};
ghost use Rattle.image_words.specs.Index.{extended_from};

use crate::choices::{coding_size, write_coding, write_coding_parts};
use crate::parts::{Parts, Row, table_size, total, write_all_parts};
use crate::texts::{append, place_behind, reference, sum, text_size, write_text};
use bench_model::{Message, Order, Signal};
use image_words::key_number_of;
use image_words::layout::{ORDER_WEIGHT, RANGE_WORDS, SIGN_WEIGHT, SIGNAL_WORDS, SIZE_WEIGHT};
use multiplex_tree::{Parent, Range};
use std::alloc::{AllocError, Global};

impl Parts for Signal {
    ghost behind = { signal_behind };

    ghost parts = { signal_parts };

    ghost is_typed = { IsTypedSignal };

    fn behind(&self) -> Result<u64, AllocError> {
        let coding = coding_size(&self.coding)?;
        sum(text_size(&self.name), coding)
    }

    fn write_parts(&self, alloc: Global, out: &mut Vec<u64>, place: u64) -> Result<(), AllocError> {
        let coding = sum(place, text_size(&self.name))?;
        write_text(out, &self.name)?;
        write_coding_parts(alloc, out, coding, &self.coding)
    }
}

/// A range of raw values.
fn write_range(out: &mut Vec<u64>, range: Range) -> Result<(), AllocError>
    ensures { OnOk result (out.new.items ≡ out.old.items ++ range.low ∷ range.high ∷ []) }
{
    append(out, &[range.low, range.high])
}

/// Ranges of raw values.
fn write_ranges(out: &mut Vec<u64>, ranges: &[Range]) -> Result<(), AllocError>
    ensures { OnOk result (out.new.items ≡ out.old.items ++ ranges_words ranges.now) }
{
    for range in ranges {
        write_range(out, *range)?;
    }
    Ok(())
}

impl Parts for Option<Parent> {
    ghost behind = { parent_behind };

    ghost parts = { parent_parts };

    ghost is_typed = { λ p. Unit {0} };

    fn behind(&self) -> Result<u64, AllocError> {
        match self {
            None => Ok(0),
            Some(parent) => place_behind(0, RANGE_WORDS, parent.ranges.items().len()),
        }
    }

    fn write_parts(
        &self,
        _alloc: Global,
        out: &mut Vec<u64>,
        _place: u64,
    ) -> Result<(), AllocError> {
        match self {
            None => Ok(()),
            Some(parent) => write_ranges(out, parent.ranges.items()),
        }
    }
}

/// The shape of a signal: its start, its size, its order and its sign.
fn shape_of(signal: &Signal) -> u64
    ensures { result ≡ shape_word signal.now }
{
    let order = match signal.order {
        Order::Intel => 0,
        Order::Motorola => ORDER_WEIGHT,
    };
    let sign = if signal.signed { SIGN_WEIGHT } else { 0 };
    u64::from(signal.start) + u64::from(signal.size) * SIZE_WEIGHT + order + sign
}

/// The three words of a signal's row on its parent, whose ranges are at a place.
fn write_parent(out: &mut Vec<u64>, place: u64, parent: &Option<Parent>) -> Result<(), AllocError>
    ensures { OnOk result (out.new.items ≡ out.old.items ++ parent_row place parent.now) }
{
    match parent {
        None => append(out, &[0, place, 0]),
        Some(parent) => {
            let number = sum(parent.signal as u64, 1)?;
            append(out, &[number, place, parent.ranges.items().len() as u64])
        }
    }
}

/// The row of a signal, where what it refers to begins at one place and its parent's ranges at another.
fn write_signal(
    out: &mut Vec<u64>,
    place: u64,
    ranges: u64,
    signal: &Signal,
    parent: &Option<Parent>,
) -> Result<(), AllocError>
    ensures { OnOk result (out.new.items ≡ out.old.items ++ signal_row place ranges signal.now parent.now) }
{
    let name = reference(place, &signal.name)?;
    let coding = sum(place, text_size(&signal.name))?;
    append(out, &[name, shape_of(signal)])?;
    write_parent(out, ranges, parent)?;
    write_coding(out, coding, &signal.coding)
}

/// The rows of the signals, each with its parent.
fn write_signals(
    out: &mut Vec<u64>,
    first: u64,
    first_ranges: u64,
    signals: &[Signal],
    parents: &[Option<Parent>],
) -> Result<(), AllocError>
    ensures { OnOk result (out.new.items ≡ out.old.items ++ signal_rows first first_ranges signals.now parents.now) }
{
    let mut place = first;
    let mut ranges = first_ranges;
    for i in 0..signals.len().min(parents.len()) {
        let signal = &signals[i];
        let parent = &parents[i];
        write_signal(out, place, ranges, signal, parent)?;
        let behind = signal.behind()?;
        place = sum(place, behind)?;
        let taken = parent.behind()?;
        ranges = sum(ranges, taken)?;
    }
    Ok(())
}

/// The signals of a message from a place on: their rows, what they refer to, and the ranges of their parents.
fn write_signal_lists(
    alloc: Global,
    out: &mut Vec<u64>,
    place: u64,
    message: &Message,
) -> Result<(), AllocError>
    ensures { OnOk result (out.new.items ≡ out.old.items ++ signals_words place message.now) }
{
    let signals = message.signals.items();
    let parents = message.tree.parents.items();
    let first = place_behind(place, SIGNAL_WORDS, signals.len())?;
    let behind = total(signals)?;
    let ranges = sum(first, behind)?;
    write_signals(out, first, ranges, signals, parents)?;
    write_all_parts(alloc, out, first, signals)?;
    write_all_parts(alloc, out, ranges, parents)
}

/// An identifier has 32 bits, as its type says.
fn identifier_bits(id: u32)
    ensures { id < extended_from }
{}

impl Parts for Message {
    ghost behind = { message_behind };

    ghost parts = { message_parts };

    ghost is_typed = { IsTypedMessage };

    fn behind(&self) -> Result<u64, AllocError> {
        let signals = table_size(SIGNAL_WORDS, self.signals.items())?;
        let ranges = total(self.tree.parents.items())?;
        let lists = sum(signals, ranges)?;
        identifier_bits(self.key.id);
        sum(text_size(&self.name), lists)
    }

    fn write_parts(&self, alloc: Global, out: &mut Vec<u64>, place: u64) -> Result<(), AllocError> {
        let signals = sum(place, text_size(&self.name))?;
        write_text(out, &self.name)?;
        write_signal_lists(alloc, out, signals, self)
    }
}

impl Row for Message {
    ghost row_words = { message_row };

    fn write_row(&self, out: &mut Vec<u64>, place: u64) -> Result<(), AllocError> {
        let name = reference(place, &self.name)?;
        let signals = sum(place, text_size(&self.name))?;
        let count = self.signals.items().len() as u64;
        append(
            out,
            &[
                key_number_of(self.key),
                name,
                u64::from(self.length),
                count,
                signals,
            ],
        )
    }
}
