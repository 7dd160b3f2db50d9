//! The records of a line, decoded over the words of an image.
ghost use Rattle.std.specs.Prelude.{◌≡◌, ◌<◌, ◌+◌, ◌^◌, ◌∷◌, [], ◌++◌, List, length, IfOk, OnOk};
ghost use Rattle.bench_model.specs.Meaning.{bench_meaning};
ghost use Rattle.candump_log.specs.declared.log_line.LogLine.{LogLine as Line};
ghost use Rattle.decoded_list.specs.Asking.{IsSaidOfMessage};
ghost use Rattle.decoded_list.specs.Listening.{HasTaken};
ghost use Rattle.decoded_list.specs.Records.{Meaning, stamp_of, brought_on, records_at};
ghost use Rattle.decoded_list.specs.RecordsView.{one_or_none};
ghost use Rattle.bus_text.specs.PrinterView.{AreRecords, IsOwnText, next_place};

use crate::BenchImage;
use crate::printer::RecordPrinter;
use bench_model::{Ask, Plain, Reading};
use candump_log::LogLine;
use decoded_list::{BusDecoder, stamp_of};
use j1939_tp::TpOut;
use std::alloc::AllocError;
use subscriber_text::{RecordPlace, the_parts_of_a_record_are_its_text};

/// Prints a line's own record where it is that of a frame that a message matches, and answers whether it is.
fn print_matched(
    image: &mut BenchImage,
    bus: u32,
    line: &LogLine,
    printer: &mut RecordPrinter,
) -> Result<bool, AllocError>
    requires bus { bus < length image.old.buses }
    requires begun { printer.old.text.items ≡ [] }
    ensures text { IfOk result (λ matched. IsOwnText printer.old.wants.now (bench_meaning image.old bus) printer.old.place
        line.now matched printer.new.text.items) }
    ensures wants { OnOk result (printer.new.wants.now ≡ printer.old.wants.now) }
    ensures bench { image.new ≡ image.old }
{
    the_parts_of_a_record_are_its_text();
    let LogLine::Frame { key, payload, .. } = line else {
        return Ok(false);
    };
    let matched = image.walk(bus, Ask::Frame { key: *key }, payload.bytes(), printer)?;
    Ok(matched)
}

/// What the image says to what the transport protocol brought: a message that came whole asks for that of its group.
fn said_of_message(
    image: &mut BenchImage,
    bus: u32,
    brought: &TpOut,
) -> Result<Option<Plain>, AllocError>
    requires bus { bus < length image.old.buses }
    ensures said { IfOk result (IsSaidOfMessage (bench_meaning image.old bus) brought.now) }
    ensures bench { image.new ≡ image.old }
{
    match brought {
        TpOut::Whole { pgn, bytes, .. } => {
            image.meaning(bus, Ask::Group { pgn: *pgn }, bytes.bytes())
        }
        TpOut::Nothing | TpOut::Cut { .. } => Ok(None),
    }
}

/// Counts the records of a line, prints its own where a message did not match, and gives the other one.
fn take_records(
    decoder: &mut BusDecoder,
    line: &LogLine,
    matched: bool,
    brought: TpOut,
    whole: Option<Plain>,
    printer: &mut RecordPrinter,
) -> Result<Option<Reading>, AllocError>
    requires room { decoder.old.next + 2 < 2 ^ 64 }
    ensures text { (meaning : Meaning) (before : List Line)
        → IsOwnText printer.old.wants.now meaning (next_place decoder.old line.now) line.now matched printer.old.text.items
        → brought ≡ brought_on decoder.old.kind before line.now → IsSaidOfMessage meaning brought whole
        → IfOk result (AreRecords printer.old.wants.now (records_at meaning decoder.old.kind
        (record { bus = decoder.old.bus; version = 0 }) before decoder.old.next line.now) printer.new.text.items) }
    ensures wants { printer.new.wants.now ≡ printer.old.wants.now }
    ensures next { IfOk result (λ other. decoder.new.next ≡ decoder.old.next + (1 + length (one_or_none other))) }
    ensures same { decoder.new ≡ record decoder.old { next = decoder.new.next } }
{
    if matched {
        return Ok(decoder.transport_record(0, line, brought, whole));
    }
    let records = decoder.records(0, line, None, brought, whole)?;
    printer.append(records.own)?;
    Ok(records.transported)
}

/// Decodes the next line of the bus at this place over the image as version 0: prints its own record, in place of what
/// the printer had, and gives the other one.
pub(crate) fn print_own(
    image: &mut BenchImage,
    decoder: &mut BusDecoder,
    bus: u32,
    line: &LogLine,
    printer: &mut RecordPrinter,
) -> Result<Option<Reading>, AllocError>
    requires place { bus ≡ decoder.old.bus }
    requires bus { bus < length image.old.buses }
    requires room { decoder.old.next + 2 < 2 ^ 64 }
    ensures text { (before : List Line) → HasTaken decoder.old before
        → IfOk result (AreRecords printer.old.wants.now (records_at (bench_meaning image.old decoder.old.bus)
        decoder.old.kind (record { bus = decoder.old.bus; version = 0 }) before decoder.old.next line.now)
        printer.new.text.items) }
    ensures taken { (before : List Line) → HasTaken decoder.old before
        → OnOk result (HasTaken decoder.new (before ++ line.now ∷ [])) }
    ensures next { IfOk result (λ other. decoder.new.next ≡ decoder.old.next + (1 + length (one_or_none other))) }
    ensures same { (decoder.new.bus ≡ decoder.old.bus) × (decoder.new.kind ≡ decoder.old.kind) }
    ensures wants { OnOk result (printer.new.wants.now ≡ printer.old.wants.now) }
    ensures bench { image.new ≡ image.old }
{
    printer.begin(RecordPlace {
        bus,
        number: decoder.next_number(),
        version: 0,
        micros: stamp_of(line),
    });
    let matched = print_matched(image, bus, line, printer)?;
    let brought = decoder.hear(line)?;
    let whole = said_of_message(image, bus, &brought)?;
    take_records(decoder, line, matched, brought, whole, printer)
}
