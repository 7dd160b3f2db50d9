//! The text of items.

ghost use Rattle.std.specs.Prelude.{◌≡◌, ◌++◌, [], ◌∷◌, OnOk, OnErr};
ghost use Rattle.std.specs.Fmt.{decimal};
ghost use Rattle.subscriber_text.specs.ItemText.{gap_words, line_of, item_text};
ghost use Rattle.subscriber_text.specs.LineParts.{stamps_text};
ghost use Rattle.exact_scale.specs.Buffer.{Extends};

use crate::Wants;
use crate::line::{append_line, append_words};
use crate::record::append_reading;
use bench_model::{Item, Missed};
use itoa::Buffer;
use std::alloc::AllocError;

/// Appends the line of a gap.
fn append_gap(out: &mut Vec<u8>, format: u32, bus: &[u8], missed: &Missed) -> Result<(), AllocError>
    ensures ok { OnOk result (out.new.items ≡ out.old.items ++ line_of
        (gap_words format bus.now missed.now)) }
    ensures grows { Extends out.old.items out.new.items }
{
    let mut first = Buffer::new();
    let mut count = Buffer::new();
    let words = [
        bus,
        first.format(missed.first).as_bytes(),
        count.format(missed.count).as_bytes(),
    ];
    append_words(out, b"g", &words)?;
    if format == 2 {
        append_stamps(out, missed)?;
    }
    out.push(b'\n')?;
    Ok(())
}

/// Appends the stamps and the versions of the first and the last record of a gap, each behind a blank.
fn append_stamps(out: &mut Vec<u8>, missed: &Missed) -> Result<(), AllocError>
    ensures ok { OnOk result (out.new.items ≡ out.old.items ++ stamps_text missed.now) }
    ensures grows { Extends out.old.items out.new.items }
{
    let mut first_micros = Buffer::new();
    let mut last_micros = Buffer::new();
    let mut first_version = Buffer::new();
    let mut last_version = Buffer::new();
    let words = [
        first_micros.format(missed.first_micros).as_bytes(),
        last_micros.format(missed.last_micros).as_bytes(),
        first_version.format(missed.first_version).as_bytes(),
        last_version.format(missed.last_version).as_bytes(),
    ];
    append_words(out, b"", &words)
}

/// Appends a line of a word, the bus and a number.
fn append_number(out: &mut Vec<u8>, word: &[u8], bus: &[u8], number: u64) -> Result<(), AllocError>
    ensures ok { OnOk result (out.new.items ≡ out.old.items ++ line_of (word.now ∷ bus.now
        ∷ decimal number ∷ [])) }
    ensures grows { Extends out.old.items out.new.items }
{
    let mut digits = Buffer::new();
    append_line(out, word, &[bus, digits.format(number).as_bytes()])
}

/// Appends what is wanted of an item. After an error some of it may be in the buffer.
fn append_part(out: &mut Vec<u8>, wants: &Wants, item: &Item) -> Result<(), AllocError>
    ensures ok { OnOk result (out.new.items ≡ out.old.items ++ item_text wants.now item.now) }
    ensures grows { Extends out.old.items out.new.items }
{
    match item {
        Item::Start { bus, number, .. } => match wants.wanted_bus(*bus) {
            Some(bus) => append_number(out, b"start", bus, *number),
            None => Ok(()),
        },
        Item::Reading { reading } => append_reading(out, wants, reading),
        Item::Gap { bus, missed } => match wants.wanted_bus(*bus) {
            Some(bus) => append_gap(out, wants.format(), bus, missed),
            None => Ok(()),
        },
        Item::End { bus, number } => match wants.wanted_bus(*bus) {
            Some(bus) => append_number(out, b"end", bus, *number),
            None => Ok(()),
        },
    }
}

/// Appends the text of what is wanted of an item. After an error the buffer has the bytes that it had.
pub fn append(wants: &Wants, item: &Item, out: &mut Vec<u8>) -> Result<(), AllocError>
    ensures ok { OnOk result (out.new.items ≡ out.old.items ++ item_text wants.now item.now) }
    ensures err { OnErr result (out.new.items ≡ out.old.items) }
{
    let start = out.len();
    match append_part(out, wants, item) {
        Ok(()) => Ok(()),
        Err(error) => {
            out.truncate(start);
            Err(error)
        }
    }
}
