//! The walk over the meaning of a frame, straight from the words of an image.

ghost use Rattle.std.specs.Prelude.{◌≡◌, ◌<◌, Some, slice_get, OnOk, IfOk};
ghost use Rattle.std.specs.Option.{option_to_list};
ghost use Rattle.bench_model.specs.declared.database.Bus.{Bus};
ghost use Rattle.bench_model.specs.Meaning.{active_values, message_meaning, bench_meaning};
ghost use Rattle.image_words.specs.Knowledge.{SomeFits, Narrows, Holds};
ghost use Rattle.image_words.specs.Reading.{Learned, EachHas, EachIs, SignalsAt, MessageAt, IsValueAt};
ghost use Rattle.image_words.specs.Found.{BusOf};
ghost use Rattle.image_words.specs.Visits.{Run, IsGiven, IsGivenMatch};
ghost use Rattle.image_words.specs.Buffers.{if_there, value_in};

use crate::activity::is_active;
use crate::layout::{BUS_WORDS, HEADER_WORDS, MESSAGE_WORDS, SIGNAL_WORDS};
use crate::matching::matching;
use crate::rows::{BusRow, bus_row, message_row, signal_row};
use crate::values::{read_text, read_value};
use crate::{ValueBuffer, Visit, Words};
use bench_model::{Ask, valid_is_decodable, valid_keeps_rules};
use std::alloc::AllocError;

/// Reads the value of the signal at a place, and says whether there is one: where it is active and present.
fn read_signal<W: Words>(
    words: &mut W,
    at: usize,
    count: usize,
    place: usize,
    bytes: &[u8],
    value: &mut ValueBuffer,
) -> Result<bool, AllocError>
    requires some { SomeFits (W.knows words.old) }
    requires signals { EachHas (W.knows words.old) (SignalsAt at count) }
    requires place { place < count }
    ensures learned { Learned W.knows W.reads words.old words.new }
    ensures value { IfOk result (λ there. EachIs (W.knows words.new) (SignalsAt at count)
        (λ image m. IsValueAt bytes.now m place (if_there there (value_in value.new)))) }
{
    let _size = words.len();
    let row = signal_row(words, at + SIGNAL_WORDS * place);
    if !is_active(words, at, count, place, row.level, bytes) {
        return Ok(false);
    }
    let Some(raw) = row.level.shape.raw(bytes) else {
        return Ok(false);
    };
    read_value(words, row, raw, value)?;
    Ok(true)
}

/// Gives the visitor a value, where there is one.
fn give<V: Visit>(visitor: &mut V, there: bool, value: &ValueBuffer) -> Result<(), AllocError>
    ensures { OnOk result (Run V.takes visitor.old (option_to_list (if_there there (value_in value.now))) visitor.new) }
{
    if !there {
        return Ok(());
    }
    visitor.signal(value)?;
    Ok(())
}

/// Gives the visitor the values of the signals that are active and present.
fn walk_signals<W: Words, V: Visit>(
    words: &mut W,
    at: usize,
    count: usize,
    bytes: &[u8],
    value: &mut ValueBuffer,
    visitor: &mut V,
) -> Result<(), AllocError>
    requires some { SomeFits (W.knows words.old) }
    requires signals { EachHas (W.knows words.old) (SignalsAt at count) }
    ensures learned { Learned W.knows W.reads words.old words.new }
    ensures given { OnOk result (EachIs (W.knows words.new) (SignalsAt at count)
        (λ image m. Run V.takes visitor.old (active_values bytes.now m) visitor.new)) }
{
    for place in 0..count {
        let there = read_signal(words, at, count, place, bytes, value)?;
        give(visitor, there, value)?;
    }
    Ok(())
}

/// Gives the visitor what the bytes mean as the message whose row is at a place.
fn walk_message<W: Words, V: Visit>(
    words: &mut W,
    at: usize,
    bytes: &[u8],
    value: &mut ValueBuffer,
    visitor: &mut V,
) -> Result<(), AllocError>
    requires some { SomeFits (W.knows words.old) }
    requires message { EachHas (W.knows words.old) (MessageAt at) }
    ensures learned { Learned W.knows W.reads words.old words.new }
    ensures given { OnOk result (EachIs (W.knows words.new) (MessageAt at)
        (λ image m. IsGiven V.names V.takes visitor.old (message_meaning bytes.now m) visitor.new)) }
{
    let row = message_row(words, at);
    read_text(words, row.name, &mut value.name)?;
    visitor.message(value.name.as_slice())?;
    walk_signals(words, row.signals_at, row.signals, bytes, value, visitor)?;
    Ok(())
}

/// The row of the bus at a place of the bench.
fn bus_at<W: Words>(words: &mut W, bus: u32) -> BusRow
    requires some { SomeFits (W.knows words.old) }
    requires bus { bus < (W.knows words.old).buses }
    ensures learned { Learned W.knows W.reads words.old words.new }
    ensures row { Holds (W.knows words.new)
        (λ image bench. (b : Bus) × (slice_get bench.buses bus ≡ Some b) × BusOf result image b) }
{
    valid_is_decodable();
    valid_keeps_rules();
    let _size = words.len();
    bus_row(words, HEADER_WORDS + BUS_WORDS * bus as usize)
}

/// Gives the visitor what bytes mean on a bus, and says whether a message of its database matches: the meaning
/// under the bench of each list that fits when it returns, so of words that were never read nothing is asked.
/// `bus` is the bus's place in the bench. It takes memory only where a text is longer than all before in its buffer of
/// `value`. After out of memory the visitor may have been given a part of the meaning.
pub fn walk<W: Words, V: Visit>(
    words: &mut W,
    bus: u32,
    ask: Ask,
    bytes: &[u8],
    value: &mut ValueBuffer,
    visitor: &mut V,
) -> Result<bool, AllocError>
    requires some { SomeFits (W.knows words.old) }
    requires bus { bus < (W.knows words.old).buses }

    // Also after out of memory.
    ensures narrows { Narrows (W.knows words.old) (W.knows words.new) }
    ensures reads { W.reads words.old words.new }

    ensures given { IfOk result (λ matched. Holds (W.knows words.new) (λ image bench.
        IsGivenMatch V.names V.takes visitor.old (bench_meaning bench bus ask bytes.now) matched visitor.new)) }
{
    let row = bus_at(words, bus);
    let _size = words.len();
    let Some(position) = matching(words, row, ask) else {
        return Ok(false);
    };
    let at = row.messages_at + MESSAGE_WORDS * position;
    walk_message(words, at, bytes, value, visitor)?;
    Ok(true)
}
