//! What no clause says: that calls succeed with ample memory, and that worked logs have their texts, read and
//! written in pieces of any size, and as far as reads and writes succeed.
ghost use Rattle.std.specs.Prelude.{◌≡◌, ◌<◌, false, length, IfOk};

use crate::cases::*;
use crate::databases::bus_of;
use crate::pieces::{Pieces, WHOLE, log_of, sink_of};
use bench_model::{Bench, Text};
use bus_text::{BenchImage, BusRefused, Printed, TextBuffer, print_bus};
use multiplex_tree::List;
use port_io::{MemSink, MemSource, Source};
use std::alloc::Global;
use std::process::Abort;
use std::test::Fail;
use subscriber_text::Wants;

/// How many words an image may take.
const ROOM: usize = 1_000;

/// The image of a bench of one bus, that of a case.
fn image_of(alloc: Global, case: &Case) -> Result<BenchImage, Fail>
    ensures bus { IfOk result (λ image. length image.buses ≡ 1) }
{
    let bus = bus_of(alloc, case.bus, case.kind, case.message.as_ref())?;
    let buses = List::of(vec![in alloc; bus]?);
    Ok(BenchImage::compile(alloc, Bench { buses }, ROOM)?)
}

/// The image of a bench of the buses of two cases.
fn image_of_two(alloc: Global, first: &Case, second: &Case) -> Result<BenchImage, Fail>
    ensures bus { IfOk result (λ image. length image.buses ≡ 2) }
{
    let one = bus_of(alloc, first.bus, first.kind, first.message.as_ref())?;
    let two = bus_of(alloc, second.bus, second.kind, second.message.as_ref())?;
    if first.bus == second.bus {
        return Err("two buses of one name")?;
    }
    let buses = List::of(vec![in alloc; one, two]?);
    Ok(BenchImage::compile(alloc, Bench { buses }, ROOM)?)
}

/// Wants that cover all of these buses.
fn wants_of(alloc: Global, names: &[&[u8]]) -> Result<Wants, Fail> {
    let mut buses = Vec::new(alloc);
    for name in names {
        buses.push(Text::of(alloc, name)?)?;
    }
    Ok(Wants::all(alloc, &buses)?)
}

/// What a print of a log left: how it ended, what was written, and the log.
#[derive(Drop)]
struct Outcome {
    end: Result<(), BusRefused>,
    sink: MemSink,
    log: MemSource,
}

/// Prints a log of the only bus of a bench, whose text starts anew in an empty buffer.
fn print_only(
    alloc: Global,
    image: &mut BenchImage,
    wants: &Wants,
    log: MemSource,
    sink: &mut MemSink,
) -> Result<Printed<MemSource>, Fail>
    requires bus { length image.old.buses ≡ 1 }
    requires log { ⟦<MemSource as Source>⟧.ended log ≡ false }
{
    let mut buffer = TextBuffer::new(alloc)?;
    let Printed { log, end } = print_bus(alloc, image, 0, wants, log, &mut buffer, sink);
    let end = flushed(end, &mut buffer, sink);
    Ok(Printed { log, end })
}

/// How a print ends whose last text is written, too.
fn flushed(
    end: Result<(), BusRefused>,
    buffer: &mut TextBuffer,
    sink: &mut MemSink,
) -> Result<(), BusRefused> {
    end?;
    buffer.flush(sink)?;
    Ok(())
}

/// Prints a log of the bus of a case.
fn print_into(
    alloc: Global,
    case: &Case,
    log: MemSource,
    sink: &mut MemSink,
) -> Result<Printed<MemSource>, Fail>
    requires { ⟦<MemSource as Source>⟧.ended log ≡ false }
{
    let wants = wants_of(alloc, &[case.bus])?;
    let mut image = image_of(alloc, case)?;
    print_only(alloc, &mut image, &wants, log, sink)
}

/// What a print of a log left.
fn print_log(
    alloc: Global,
    case: &Case,
    log: &[u8],
    pieces: Pieces,
    room: usize,
) -> Result<Outcome, Fail> {
    let mut sink = sink_of(alloc, pieces, room)?;
    let log = log_of(alloc, log, pieces)?;
    let Printed { log, end } = print_into(alloc, case, log, &mut sink)?;
    Ok(Outcome { end, sink, log })
}

/// The print of a log ended so, and this was written.
fn assert_outcome(rt: &impl Abort, outcome: &Outcome, end: Result<(), BusRefused>, text: &[u8]) {
    assert_eq!(rt; outcome.end, end);
    assert_eq!(rt; outcome.sink.bytes(), text);
}

/// The log of a case has its text, read and written in these pieces.
fn assert_text(
    rt: &impl Abort,
    alloc: Global,
    case: &Case,
    read: usize,
    write: usize,
) -> Result<(), Fail> {
    let pieces = Pieces {
        read,
        write,
        ..WHOLE
    };
    let outcome = print_log(alloc, case, case.log.as_bytes(), pieces, 4_096)?;
    assert_outcome(rt, &outcome, Ok(()), case.text.as_bytes());
    Ok(())
}

#[test]
fn a_log_of_frames_has_its_text(rt: HostRuntime) -> Result<(), Fail> {
    assert_text(&rt, rt.alloc(), &FRAME, 65_536, 65_536)?;
    assert_text(&rt, rt.alloc(), &FRAMES, 65_536, 65_536)
}

#[test]
fn an_empty_log_has_an_end(rt: HostRuntime) -> Result<(), Fail> {
    assert_text(&rt, rt.alloc(), &EMPTY, 65_536, 65_536)
}

#[test]
fn each_kind_of_line_has_a_record(rt: HostRuntime) -> Result<(), Fail> {
    assert_text(&rt, rt.alloc(), &KINDS, 65_536, 65_536)
}

#[test]
fn messages_of_several_packets_have_records_of_their_own(rt: HostRuntime) -> Result<(), Fail> {
    assert_text(&rt, rt.alloc(), &TO_ALL, 65_536, 65_536)?;
    assert_text(&rt, rt.alloc(), &TWICE, 65_536, 65_536)?;
    assert_text(&rt, rt.alloc(), &OUT_OF_ORDER, 65_536, 65_536)?;
    assert_text(&rt, rt.alloc(), &IN_TIME, 65_536, 65_536)?;
    assert_text(&rt, rt.alloc(), &LATE, 65_536, 65_536)
}

#[test]
fn a_lin_signal_has_the_text_or_the_scaling_of_its_encoding(rt: HostRuntime) -> Result<(), Fail> {
    assert_text(&rt, rt.alloc(), &LISTED, 65_536, 65_536)
}

#[test]
fn a_j1939_message_is_found_by_its_parameter_group(rt: HostRuntime) -> Result<(), Fail> {
    assert_text(&rt, rt.alloc(), &GROUP, 65_536, 65_536)?;
    assert_text(&rt, rt.alloc(), &WHOLE_GROUP, 65_536, 65_536)
}

#[test]
fn reads_and_writes_of_any_size_give_one_text(rt: HostRuntime) -> Result<(), Fail> {
    for size in 1..64 {
        assert_text(&rt, rt.alloc(), &FRAMES, size, 64 - size)?;
        assert_text(&rt, rt.alloc(), &KINDS, size, size)?;
    }
    Ok(())
}

/// The first lines of a text.
fn first_lines(text: &str, count: usize) -> &[u8] {
    let bytes = text.as_bytes();
    let mut left = count;
    for (i, byte) in bytes.iter().enumerate() {
        if left == 0 {
            return &bytes[..i];
        }
        if *byte == b'\n' {
            left -= 1;
        }
    }
    bytes
}

/// Reads of this size, of which some fail: the text stops behind the records of the whole lines read before.
fn assert_stop(
    rt: &impl Abort,
    alloc: Global,
    read: usize,
    failing_reads: &'static [u64],
    lines: usize,
) -> Result<(), Fail> {
    let pieces = Pieces {
        read,
        failing_reads,
        ..WHOLE
    };
    let outcome = print_log(alloc, &FRAMES, FRAMES.log.as_bytes(), pieces, 4_096)?;
    let text = first_lines(FRAMES.text, lines);
    assert_outcome(rt, &outcome, Err(BusRefused::ReadFault), text);
    Ok(())
}

#[test]
fn a_failing_read_stops_the_text_behind_whole_lines(rt: HostRuntime) -> Result<(), Fail> {
    assert_stop(&rt, rt.alloc(), 46, &[0], 0)?;
    assert_stop(&rt, rt.alloc(), 46, &[1], 3)?;
    assert_stop(&rt, rt.alloc(), 46, &[2], 5)?;
    assert_stop(&rt, rt.alloc(), 46, &[3], 6)
}

#[test]
fn a_read_that_fails_within_a_line_leaves_that_line_out(rt: HostRuntime) -> Result<(), Fail> {
    assert_stop(&rt, rt.alloc(), 30, &[1], 0)?;
    assert_stop(&rt, rt.alloc(), 30, &[2], 3)?;
    assert_stop(&rt, rt.alloc(), 30, &[4], 5)
}

/// What a log of at most 256 bytes still gives, in one read.
fn read_all(alloc: Global, mut log: MemSource) -> Result<Vec<u8>, Fail> {
    let mut rest = vec![in alloc; 0; 256]?;
    let count = log.read(&mut rest)?;
    rest.truncate(count);
    Ok(rest)
}

/// A print of the frames ends so, and the log still has this to give.
fn assert_left(
    rt: &impl Abort,
    alloc: Global,
    pieces: Pieces,
    end: Result<(), BusRefused>,
    left: &[u8],
) -> Result<(), Fail> {
    let Outcome {
        end: ended,
        log,
        ..
    } = print_log(alloc, &FRAMES, FRAMES.log.as_bytes(), pieces, 4_096)?;
    assert_eq!(rt; ended, end);
    assert_eq!(rt; read_all(alloc, log)?.as_slice(), left);
    Ok(())
}

#[test]
fn the_log_comes_back_with_the_bytes_that_were_not_taken(rt: HostRuntime) -> Result<(), Fail> {
    assert_left(&rt, rt.alloc(), WHOLE, Ok(()), b"")?;
    let pieces = Pieces {
        read: 50,
        failing_reads: &[1],
        ..WHOLE
    };
    let left = &FRAMES.log.as_bytes()[50..100];
    assert_left(&rt, rt.alloc(), pieces, Err(BusRefused::ReadFault), left)
}

/// Prints the log of a case as that of the bus at this place.
fn print_at(
    alloc: Global,
    image: &mut BenchImage,
    place: u32,
    case: &Case,
    buffer: &mut TextBuffer,
    sink: &mut MemSink,
) -> Result<(), Fail>
    requires { place < length image.old.buses }
    ensures { image.new ≡ image.old }
{
    let wants = wants_of(alloc, &[FRAME.bus, TANK.bus])?;
    let log = log_of(alloc, case.log.as_bytes(), WHOLE)?;
    print_bus(alloc, image, place, &wants, log, buffer, sink).end?;
    Ok(())
}

/// Two buses printed through one buffer, the second behind the text of the first, which is still pending.
fn print_two(alloc: Global, sink: &mut MemSink) -> Result<(), Fail> {
    let mut image = image_of_two(alloc, &FRAME, &TANK)?;
    let mut buffer = TextBuffer::new(alloc)?;
    print_at(alloc, &mut image, 0, &FRAME, &mut buffer, sink)?;
    print_at(alloc, &mut image, 1, &TANK, &mut buffer, sink)?;
    buffer.flush(sink)?;
    Ok(())
}

/// One text behind another.
fn text_of_two(alloc: Global, first: &str, second: &str) -> Result<String, Fail> {
    let mut text = String::from_str(alloc, first)?;
    text.push_str(second)?;
    Ok(text)
}

#[test]
fn two_buses_are_decoded_under_databases_of_their_own(rt: HostRuntime) -> Result<(), Fail> {
    let mut sink = sink_of(rt.alloc(), WHOLE, 4_096)?;
    print_two(rt.alloc(), &mut sink)?;
    let text = text_of_two(rt.alloc(), FRAME.text, TANK.text)?;
    assert_eq!(rt; sink.bytes(), text.as_bytes());
    Ok(())
}

/// How many empty lines make a text of several times what a buffer takes.
const MANY: usize = 20_000;

/// Appends a number between two words.
fn push_numbered(
    alloc: Global,
    text: &mut String,
    before: &str,
    number: usize,
    behind: &str,
) -> Result<(), Fail> {
    text.push_str(before)?;
    text.push_str(format!(in alloc; "{number}")?.as_str())?;
    text.push_str(behind)?;
    Ok(())
}

/// The text of that many empty lines, which are bad ones.
fn text_of_bad_lines(alloc: Global) -> Result<String, Fail> {
    let mut text = String::from_str(alloc, "start A 0\n")?;
    for number in 0..MANY {
        push_numbered(alloc, &mut text, "x A ", number, " 0\n")?;
    }
    push_numbered(alloc, &mut text, "end A ", MANY, "\n")?;
    Ok(text)
}

/// A long log whose writes fail so ends so, and a prefix of its text was written, this much at least.
fn assert_long(
    rt: &impl Abort,
    alloc: Global,
    failing_writes: &'static [u64],
    end: Result<(), BusRefused>,
    least: usize,
) -> Result<(), Fail> {
    let text = text_of_bad_lines(alloc)?;
    let log = vec![in alloc; b'\n'; MANY]?;
    let pieces = Pieces {
        failing_writes,
        ..WHOLE
    };
    let outcome = print_log(alloc, &EMPTY, &log, pieces, 1_000_000)?;
    assert_eq!(rt; outcome.end, end);
    let written = outcome.sink.bytes();
    assert!(rt; text.as_bytes().starts_with(written));
    assert!(rt; written.len() >= least);
    Ok(())
}

#[test]
fn a_text_longer_than_the_buffer_is_written_as_it_goes(rt: HostRuntime) -> Result<(), Fail> {
    let length = text_of_bad_lines(rt.alloc())?.len();
    assert_long(&rt, rt.alloc(), &[], Ok(()), length)
}

#[test]
fn a_failing_write_leaves_a_prefix(rt: HostRuntime) -> Result<(), Fail> {
    assert_long(&rt, rt.alloc(), &[0], Err(BusRefused::WriteFault), 0)?;
    assert_long(&rt, rt.alloc(), &[1], Err(BusRefused::WriteFault), 65_536)?;
    assert_long(&rt, rt.alloc(), &[2], Err(BusRefused::WriteFault), 131_072)
}

/// Such a value may go to a worker and come back from one.
fn assert_crosses<T: Send + Drop>(_value: &T) {}

#[test]
fn values_cross_to_workers(rt: HostRuntime) -> Result<(), Fail> {
    assert_crosses(&TextBuffer::new(rt.alloc())?);
    assert_crosses(&Printed {
        log: MemSource::new(Vec::new(rt.alloc()), 1, Vec::new(rt.alloc())),
        end: Err(BusRefused::TooLong),
    });
    Ok(())
}
