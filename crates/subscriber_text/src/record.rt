//! The text of records.

ghost use Rattle.std.specs.Prelude.{◌≡◌, [], ◌∷◌, ◌++◌, OnOk};
ghost use Rattle.bench_model.specs.declared.reading.Body.TheVariants as Bodies;
ghost use Rattle.bench_model.specs.declared.reading.Item.TheVariants as Items;
ghost use Rattle.std.specs.Fmt.{decimal};
ghost use Rattle.byte_forms.specs.Hexadecimal.{hex_digits};
ghost use Rattle.subscriber_text.specs.LineParts.{group_text};
ghost use Rattle.subscriber_text.specs.ItemText.{hex_bytes, key_text, cause_text, name_or_dash, message_of, signals_of, record_words, line_of, item_text};
ghost use Rattle.subscriber_text.specs.WantView.{name_of};
ghost use Rattle.exact_scale.specs.Buffer.{Extends};

use crate::Wants;
use crate::bytes::append_hex;
use crate::line::{append_line, append_words};
use crate::message_parts::{RecordPlace, append_begin, append_message_line};
use crate::signal::append_signals;
use bench_model::{Body, CutCause, Key, Reading, SignalValue, Text};
use byte_forms::hex_of_number;
use itoa::Buffer;
use std::alloc::AllocError;
use text_words::append_word;

/// The digits of an identifier out of its eight.
fn key_digits(key: Key, digits: &[u8; 8]) -> &[u8]
    requires { digits.now ≡ hex_digits 8 key.id }
    ensures { result.now ≡ key_text key }
{
    if key.extended {
        &digits[..]
    } else {
        &digits[5..]
    }
}

fn cause_word(cause: CutCause) -> &'static [u8]
    ensures { result.now ≡ cause_text cause }
{
    match cause {
        CutCause::Late => b"late",
        CutCause::Again => b"again",
        CutCause::Order => b"order",
        CutCause::Abort => b"abort",
        CutCause::End => b"end",
    }
}

/// Appends an identifier and bytes, behind a blank, and ends the line.
fn append_frame(out: &mut Vec<u8>, key: Key, bytes: &[u8]) -> Result<(), AllocError>
    ensures ok { OnOk result (out.new.items ≡ out.old.items ++ line_of ([] ∷ (key_text key
        ++ 35 ∷ hex_bytes bytes.now) ∷ [])) }
    ensures grows { Extends out.old.items out.new.items }
{
    append_word(out, key_digits(key, &hex_of_number(key.id)))?;
    out.push(b'#')?;
    append_hex(out, bytes)?;
    out.push(b'\n')?;
    Ok(())
}

/// Appends the line of a bad line, which has no stamp.
fn append_bad(out: &mut Vec<u8>, bus: &[u8], reading: &Reading) -> Result<(), AllocError>
    ensures ok { OnOk result (out.new.items ≡ out.old.items ++ line_of
        (record_words bus.now reading.now Bodies.Bad)) }
    ensures grows { Extends out.old.items out.new.items }
{
    let mut number = Buffer::new();
    let mut version = Buffer::new();
    let words = [
        bus,
        number.format(reading.number).as_bytes(),
        version.format(reading.version).as_bytes(),
    ];
    append_line(out, b"x", &words)
}

/// Appends a parameter group number, a source address and a destination address, each behind a blank.
fn append_group(out: &mut Vec<u8>, pgn: u32, sa: u8, da: u8) -> Result<(), AllocError>
    ensures ok { OnOk result (out.new.items ≡ out.old.items ++ group_text pgn sa da) }
    ensures grows { Extends out.old.items out.new.items }
{
    let mut group = Buffer::new();
    let mut source = Buffer::new();
    let mut destination = Buffer::new();
    let words = [
        group.format(pgn).as_bytes(),
        source.format(sa).as_bytes(),
        destination.format(da).as_bytes(),
    ];
    append_words(out, b"", &words)
}

/// Appends what the line of a transport ends in: its group, its bytes and its name.
fn append_transport(
    out: &mut Vec<u8>,
    pgn: u32,
    sa: u8,
    da: u8,
    bytes: &[u8],
    name: &[u8],
) -> Result<(), AllocError>
    ensures ok { OnOk result (out.new.items ≡ out.old.items ++ line_of ([] ∷ decimal pgn ∷ decimal sa
        ∷ decimal da ∷ hex_bytes bytes.now ∷ name.now ∷ [])) }
    ensures grows { Extends out.old.items out.new.items }
{
    append_group(out, pgn, sa, da)?;
    out.push(b' ')?;
    append_hex(out, bytes)?;
    append_line(out, b"", &[name])
}

/// Appends what the line of a transport that was broken off ends in: its group and the cause.
fn append_cut(
    out: &mut Vec<u8>,
    pgn: u32,
    sa: u8,
    da: u8,
    cause: CutCause,
) -> Result<(), AllocError>
    ensures ok { OnOk result (out.new.items ≡ out.old.items ++ line_of ([] ∷ decimal pgn ∷ decimal sa
        ∷ decimal da ∷ cause_text cause ∷ [])) }
    ensures grows { Extends out.old.items out.new.items }
{
    append_group(out, pgn, sa, da)?;
    append_line(out, b"", &[cause_word(cause)])
}

/// Appends the first line of a record.
fn append_first_line(out: &mut Vec<u8>, bus: &[u8], reading: &Reading) -> Result<(), AllocError>
    ensures ok { OnOk result (out.new.items ≡ out.old.items ++ line_of
        (record_words bus.now reading.now reading.now.body)) }
    ensures grows { Extends out.old.items out.new.items }
{
    let place = RecordPlace::of(reading);
    match &reading.body {
        Body::Message { name, .. } => append_message_line(out, bus, place, name.bytes()),
        Body::Unmatched { key, bytes } => {
            append_begin(out, b"u", bus, place)?;
            append_frame(out, *key, bytes.bytes())
        }
        Body::Remote { key } => {
            append_begin(out, b"r", bus, place)?;
            append_line(out, b"", &[key_digits(*key, &hex_of_number(key.id))])
        }
        Body::Error { id } => {
            append_begin(out, b"e", bus, place)?;
            append_line(out, b"", &[&hex_of_number(*id)])
        }
        Body::Bad => append_bad(out, bus, reading),
        Body::Transport {
            pgn,
            sa,
            da,
            bytes,
            name,
            ..
        } => {
            append_begin(out, b"t", bus, place)?;
            append_transport(out, *pgn, *sa, *da, bytes.bytes(), name_or_dash(name))
        }
        Body::Cut { pgn, sa, da, cause } => {
            append_begin(out, b"c", bus, place)?;
            append_cut(out, *pgn, *sa, *da, *cause)
        }
    }
}

fn name_or_dash(name: &Option<Text>) -> &[u8]
    ensures { result.now ≡ name_or_dash name.now }
{
    match name {
        None => b"-",
        Some(name) => name.bytes(),
    }
}

/// The name of the message that a record is of, where one matched.
fn message_of(body: &Body) -> Option<&[u8]>
    ensures { name_of result ≡ message_of body.now }
{
    match body {
        Body::Message { name, .. } => Some(name.bytes()),
        Body::Transport {
            name: Some(name),
            ..
        } => Some(name.bytes()),
        Body::Transport { name: None, .. }
        | Body::Unmatched { .. }
        | Body::Remote { .. }
        | Body::Error { .. }
        | Body::Bad
        | Body::Cut { .. } => None,
    }
}

/// The signals of a record.
fn signals_of(body: &Body) -> &[SignalValue]
    ensures { result.now ≡ signals_of body.now }
{
    match body {
        Body::Message { signals, .. } | Body::Transport { signals, .. } => signals.items(),
        Body::Unmatched { .. }
        | Body::Remote { .. }
        | Body::Error { .. }
        | Body::Bad
        | Body::Cut { .. } => &[],
    }
}

/// Appends what is wanted of a record.
pub(crate) fn append_reading(
    out: &mut Vec<u8>,
    wants: &Wants,
    reading: &Reading,
) -> Result<(), AllocError>
    ensures ok { OnOk result (out.new.items ≡ out.old.items ++ item_text wants.now
        (Items.Reading reading.now)) }
    ensures grows { Extends out.old.items out.new.items }
{
    let message = message_of(&reading.body);
    let Some(bus) = wants.wanted_record(reading.bus, message) else {
        return Ok(());
    };
    append_first_line(out, bus, reading)?;
    append_signals(out, wants, reading.bus, message, signals_of(&reading.body))
}
