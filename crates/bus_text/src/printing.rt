//! A bus's log, decoded and printed line by line.
ghost use Rattle.std.specs.Prelude.{◌≡◌, ◌<◌, ◌≤◌, ◌+◌, ◌^◌, ◌∷◌, [], ◌++◌, List, length, true, false, OnOk, IfSome, map};
ghost use Rattle.byte_forms.specs.Lines.{all_lines};
ghost use Rattle.candump_log.specs.declared.log_line.LogLine.{LogLine as Line};
ghost use Rattle.candump_log.specs.LineOf.{line_of};
ghost use Rattle.candump_log.specs.LinesState.{source_state, fresh, log_of};
ghost use Rattle.decoded_list.specs.RecordsView.{one_or_none};
ghost use Rattle.subscriber_text.specs.ItemText.{items_text};
ghost use Rattle.bus_text.specs.BusText.{bus_at, reading_items, bus_text};
ghost use Rattle.bus_text.specs.Buffering.{buffer_limit, output, Buffers, PrintsText};
ghost use Rattle.bus_text.specs.LineView.{start_at, line_text, HasDecoded};
ghost use Rattle.bus_text.specs.Printing.{PrintsBus, Settles, IsWritten};
ghost use Rattle.bus_text.specs.declared.bus.BusPlace.{BusPlace as Place};

use crate::printer::RecordPrinter;
use crate::records::print_own;
use crate::{BenchImage, BusPlace, BusRefused, TextBuffer, the_text_goes_on};
use bench_model::{Item, Reading};
use candump_log::{Lines, LogLine, NoLines, lines_read};
use decoded_list::BusDecoder;
use port_io::{Sink, Source};
use std::alloc::Global;
use subscriber_text::{PrintRefused, Wants};

/// The log of a bus that was printed, as it is, and how that ended.
#[derive(Drop)]
pub struct Printed<S> {
    pub log: S,
    pub end: Result<(), BusRefused>,
}

/// Prints the start of a bus before the record of number 0.
fn print_start<K: Sink>(
    bus: u32,
    number: u64,
    wants: &Wants,
    buffer: &mut TextBuffer,
    out: &mut K,
) -> Result<(), PrintRefused>
    ensures prints { PrintsText (items_text wants.now (start_at bus number))
        (output (K.written out.old) (K.write_faults out.old) buffer.old) result
        (output (K.written out.new) (K.write_faults out.new) buffer.new) }
    ensures other { K.other out.new ≡ K.other out.old }
{
    if number == 0 {
        let start = Item::Start {
            bus,
            number: 0,
            turn: 0,
        };
        return buffer.append(wants, &start, out);
    }
    Ok(())
}

/// Prints the records of a line: its own, whose text the printer has, and the other one.
fn print_records<K: Sink>(
    printer: &RecordPrinter,
    other: Option<Reading>,
    buffer: &mut TextBuffer,
    out: &mut K,
) -> Result<(), PrintRefused>
    ensures prints { PrintsText (printer.now.text.items
        ++ items_text printer.now.wants.now (reading_items (one_or_none other)))
        (output (K.written out.old) (K.write_faults out.old) buffer.old) result
        (output (K.written out.new) (K.write_faults out.new) buffer.new) }
    ensures other { K.other out.new ≡ K.other out.old }
{
    buffer.append_text(&printer.text, out)?;
    if let Some(reading) = other {
        buffer.append(printer.wants, &Item::Reading { reading }, out)?;
    }
    Ok(())
}

/// Decodes a line of the bus at this place over the image as version 0, and prints its records.
fn print_line<K: Sink>(
    image: &mut BenchImage,
    decoder: &mut BusDecoder,
    place: u32,
    line: &LogLine,
    printer: &mut RecordPrinter,
    buffer: &mut TextBuffer,
    out: &mut K,
) -> Result<(), PrintRefused>
    requires place { place ≡ decoder.old.bus }
    requires bus { place < length image.old.buses }
    requires room { decoder.old.next + 2 < 2 ^ 64 }
    ensures prints { (bus : Place) (lines : List Line) → HasDecoded image.old bus decoder.old lines
        → PrintsText (line_text printer.old.wants.now image.old bus lines line.now)
        (output (K.written out.old) (K.write_faults out.old) buffer.old) result
        (output (K.written out.new) (K.write_faults out.new) buffer.new) }
    ensures decoded { (bus : Place) (lines : List Line) → HasDecoded image.old bus decoder.old lines
        → OnOk result (HasDecoded image.old bus decoder.new (lines ++ line.now ∷ [])) }
    ensures next { OnOk result (decoder.new.next ≤ decoder.old.next + 2) }
    ensures same { decoder.new.bus ≡ decoder.old.bus }
    ensures bench { image.new ≡ image.old }
    ensures wants { OnOk result (printer.new.wants.now ≡ printer.old.wants.now) }
    ensures other { K.other out.new ≡ K.other out.old }
{
    the_text_goes_on();
    let number = decoder.next_number();
    let other = print_own(image, decoder, place, line, printer)?;
    print_start(place, number, printer.wants, buffer, out)?;
    print_records(printer, other, buffer, out)
}

/// Prints the end of a bus behind its records.
fn print_end<K: Sink>(
    bus: u32,
    decoder: &BusDecoder,
    wants: &Wants,
    buffer: &mut TextBuffer,
    out: &mut K,
) -> Result<(), PrintRefused>
    ensures prints { PrintsText (items_text wants.now (Item.End bus decoder.now.next ∷ []))
        (output (K.written out.old) (K.write_faults out.old) buffer.old) result
        (output (K.written out.new) (K.write_faults out.new) buffer.new) }
    ensures short { OnOk result (length buffer.new < buffer_limit) }
    ensures other { K.other out.new ≡ K.other out.old }
{
    let end = Item::End {
        bus,
        number: decoder.next_number(),
    };
    buffer.append(wants, &end, out)
}

/// Prints the text of the lines that a reader of a log gives, up to the end of the log.
fn print_lines<S: Source, K: Sink>(
    alloc: Global,
    image: &mut BenchImage,
    bus: BusPlace,
    wants: &Wants,
    lines: &mut Lines<S>,
    buffer: &mut TextBuffer,
    out: &mut K,
) -> Result<(), BusRefused>
    requires bus { bus.place < length image.old.buses }
    requires fresh { lines.old ≡ fresh lines.old.source lines.old.other }
    requires log { log_of lines.old ≡ lines.old.source.left }
    ensures prints { PrintsBus wants.now image.old bus lines.old.source lines.new.source
        (output (K.written out.old) (K.write_faults out.old) buffer.old)
        (output (K.written out.new) (K.write_faults out.new) buffer.new) result }
    ensures short { OnOk result (length buffer.new < buffer_limit) }
    ensures bench { image.new ≡ image.old }
    ensures log_side { lines.new.other ≡ lines.old.other }
    ensures other { K.other out.new ≡ K.other out.old }
{
    lines_read();
    the_text_goes_on();
    let mut decoder = BusDecoder::new(alloc, bus.place, bus.kind);
    let mut printer = RecordPrinter::new(alloc, wants);
    'lines: while let Some(line) = lines.next()? {
        print_line(
            image,
            &mut decoder,
            bus.place,
            &line,
            &mut printer,
            buffer,
            out,
        )?;
    }
    print_end(bus.place, &decoder, wants, buffer, out)?;
    Ok(())
}

/// Writes all that is pending before a fault is answered, but where the sink is what failed.
fn settle<K: Sink>(
    end: Result<(), BusRefused>,
    buffer: &mut TextBuffer,
    out: &mut K,
) -> Result<(), BusRefused>
    ensures kept { Buffers (output (K.written out.old) (K.write_faults out.old) buffer.old) []
        (output (K.written out.new) (K.write_faults out.new) buffer.new) }
    ensures answer { Settles end (K.write_faults out.old) (K.write_faults out.new) result }
    ensures written { IsWritten result buffer.new }
    ensures short { OnOk end (length buffer.old < buffer_limit) → OnOk result (length buffer.new < buffer_limit) }
    ensures other { K.other out.new ≡ K.other out.old }
{
    match end {
        Ok(()) => Ok(()),
        Err(BusRefused::WriteFault) => Err(BusRefused::WriteFault),
        Err(refused) => {
            buffer.flush(out)?;
            Err(refused)
        }
    }
}

/// Prints the text of the bus at this place of the bench, whose kind the bench says: the records of the lines of its
/// log, decoded over the image of the bench as version 0, between its start and its end, as far as they are wanted. The
/// text goes through the buffer, which all of a tool's buses share: at the end of a log its last bytes are pending, and
/// the caller flushes behind the last bus. The log comes back in every case.
pub fn print_bus<S: Source, K: Sink>(
    alloc: Global,
    image: &mut BenchImage,
    place: u32,
    wants: &Wants,
    log: S,
    buffer: &mut TextBuffer,
    out: &mut K,
) -> Printed<S>
    requires bus { place < length image.old.buses }
    requires log { S.ended log ≡ false }

    // What was taken of the log, what of its text was given to the buffer, and the cause of the answer.
    ensures prints { PrintsBus wants.now image.old (bus_at image.old place)
        (source_state (S.left log) (S.taken log) (S.read_faults log) (S.ended log))
        (source_state (S.left result.log) (S.taken result.log) (S.read_faults result.log) (S.ended result.log))
        (output (K.written out.old) (K.write_faults out.old) buffer.old)
        (output (K.written out.new) (K.write_faults out.new) buffer.new) result.end }
    // On Ok the text of all lines was given, nothing else, nothing less.
    ensures ok { OnOk result.end (IfSome (S.left log) (λ bytes. Buffers
        (output (K.written out.old) (K.write_faults out.old) buffer.old)
        (bus_text wants.now image.old (bus_at image.old place) (map line_of (all_lines bytes)))
        (output (K.written out.new) (K.write_faults out.new) buffer.new))) }
    ensures written { IsWritten result.end buffer.new }
    // However much was pending before.
    ensures short { OnOk result.end (length buffer.new < buffer_limit) }
    ensures bench { image.new ≡ image.old }
    ensures log_side { S.other result.log ≡ S.other log }
    ensures other { K.other out.new ≡ K.other out.old }
{
    let mut lines = match Lines::new(alloc, log) {
        Ok(lines) => lines,
        Err(NoLines { source }) => {
            return Printed {
                log: source,
                end: settle(Err(BusRefused::Memory), buffer, out),
            };
        }
    };
    let bus = BusPlace::of(image.bench(), place);
    let end = print_lines(alloc, image, bus, wants, &mut lines, buffer, out);
    let end = settle(end, buffer, out);
    Printed {
        log: lines.into_source(),
        end,
    }
}
