//! What no clause says: that calls succeed with ample memory, and that the buses of a worked bench have their
//! texts, read and written in pieces of any size, and as far as reads and writes succeed.
ghost use Rattle.std.specs.Prelude.{◌≡◌, false, length, All, IfOk, vec_len};

use crate::cases::{Case, FRAMES, GROUP, LISTED};
use crate::databases::bus_of;
use crate::pieces::{Pieces, WHOLE, log_of, sink_of};
use bench_model::{Bench, Text};
use bench_text::{BusesRefused, print_buses};
use bus_text::{BenchImage, TextBuffer};
use multiplex_tree::List;
use port_io::{MemSink, MemSource, Source};
use std::alloc::Global;
use std::process::Abort;
use std::test::Fail;
use subscriber_text::Wants;

/// How many words an image may take.
const ROOM: usize = 1_000;

/// The image of a bench of the buses of three cases.
fn image_of(alloc: Global, first: &Case, second: &Case, third: &Case) -> Result<BenchImage, Fail>
    ensures buses { IfOk result (λ image. length image.buses ≡ 3) }
{
    let one = bus_of(alloc, first.bus, first.kind, first.message.as_ref())?;
    let two = bus_of(alloc, second.bus, second.kind, second.message.as_ref())?;
    let three = bus_of(alloc, third.bus, third.kind, third.message.as_ref())?;
    if first.bus == second.bus || first.bus == third.bus || second.bus == third.bus {
        return Err("two buses of one name")?;
    }
    let buses = List::of(vec![in alloc; one, two, three]?);
    Ok(BenchImage::compile(alloc, Bench { buses }, ROOM)?)
}

/// The logs of three cases, of which the second alone has reads that fail.
fn logs_of(
    alloc: Global,
    first: &Case,
    second: &Case,
    third: &Case,
    pieces: Pieces,
) -> Result<Vec<MemSource>, Fail>
    ensures count { IfOk result (λ logs. vec_len logs ≡ 3) }
    ensures fresh { IfOk result (λ logs. All (λ log. ⟦<MemSource as Source>⟧.ended log ≡ false) logs.items) }
{
    let sound = Pieces {
        failing_reads: &[],
        ..pieces
    };
    let one = log_of(alloc, first.log.as_bytes(), sound)?;
    let two = log_of(alloc, second.log.as_bytes(), pieces)?;
    let three = log_of(alloc, third.log.as_bytes(), sound)?;
    Ok(vec![in alloc; one, two, three]?)
}

/// Wants that cover the buses of three cases.
fn wants_of(alloc: Global, first: &Case, second: &Case, third: &Case) -> Result<Wants, Fail> {
    let mut names = Vec::new(alloc);
    for name in [first.bus, second.bus, third.bus] {
        names.push(Text::of(alloc, name)?)?;
    }
    Ok(Wants::all(alloc, &names)?)
}

/// What a print of three buses left: why it ended early, if it did, what was written, and the logs.
#[derive(Drop)]
struct Outcome {
    refused: Option<BusesRefused>,
    sink: MemSink,
    logs: Vec<MemSource>,
}

/// Prints logs of the three buses of an image through a buffer of their own.
fn print_all(
    alloc: Global,
    image: &mut BenchImage,
    wants: &Wants,
    logs: &mut Vec<MemSource>,
    sink: &mut MemSink,
) -> Result<Option<BusesRefused>, Fail>
    requires buses { length image.old.buses ≡ 3 }
    requires count { vec_len logs.old ≡ 3 }
    requires fresh { All (λ log. ⟦<MemSource as Source>⟧.ended log ≡ false) logs.old.items }
{
    let mut buffer = TextBuffer::new(alloc)?;
    Ok(print_buses(alloc, image, wants, logs, &mut buffer, sink).err())
}

/// Prints logs of the buses of three cases.
fn print_into(
    alloc: Global,
    first: &Case,
    second: &Case,
    third: &Case,
    logs: &mut Vec<MemSource>,
    sink: &mut MemSink,
) -> Result<Option<BusesRefused>, Fail>
    requires count { vec_len logs.old ≡ 3 }
    requires fresh { All (λ log. ⟦<MemSource as Source>⟧.ended log ≡ false) logs.old.items }
{
    let wants = wants_of(alloc, first, second, third)?;
    let mut image = image_of(alloc, first, second, third)?;
    print_all(alloc, &mut image, &wants, logs, sink)
}

/// What a print of the logs of three cases left.
fn print(
    alloc: Global,
    first: &Case,
    second: &Case,
    third: &Case,
    pieces: Pieces,
) -> Result<Outcome, Fail> {
    let mut sink = sink_of(alloc, pieces, 4_096)?;
    let mut logs = logs_of(alloc, first, second, third, pieces)?;
    let refused = print_into(alloc, first, second, third, &mut logs, &mut sink)?;
    Ok(Outcome {
        refused,
        sink,
        logs,
    })
}

/// The texts of three cases, one after another.
fn text_of(alloc: Global, first: &str, second: &str, third: &str) -> Result<String, Fail> {
    let mut text = String::from_str(alloc, first)?;
    text.push_str(second)?;
    text.push_str(third)?;
    Ok(text)
}

/// The three texts of `FRAMES`, `LISTED` and `GROUP`.
fn whole_text(alloc: Global) -> Result<String, Fail> {
    text_of(alloc, FRAMES.text, LISTED.text, GROUP.text)
}

/// Nothing was refused, and this was written.
fn assert_whole(rt: &impl Abort, outcome: &Outcome, text: &str) {
    assert!(rt; outcome.refused.is_none());
    assert_eq!(rt; outcome.sink.bytes(), text.as_bytes());
}

/// The text of a bus of each kind is written whole, in these pieces.
fn assert_text(rt: &impl Abort, alloc: Global, read: usize, write: usize) -> Result<(), Fail> {
    let pieces = Pieces {
        read,
        write,
        ..WHOLE
    };
    let text = whole_text(alloc)?;
    let outcome = print(alloc, &FRAMES, &LISTED, &GROUP, pieces)?;
    assert_whole(rt, &outcome, text.as_str());
    Ok(())
}

#[test]
fn buses_of_three_kinds_have_their_texts_in_order(rt: HostRuntime) -> Result<(), Fail> {
    assert_text(&rt, rt.alloc(), 65_536, 65_536)
}

#[test]
fn reads_and_writes_of_any_size_give_one_text(rt: HostRuntime) -> Result<(), Fail> {
    assert_text(&rt, rt.alloc(), 1, 46)?;
    assert_text(&rt, rt.alloc(), 7, 7)?;
    assert_text(&rt, rt.alloc(), 46, 1)
}

/// What a print left, of whose three logs the second fails.
fn print_failing(alloc: Global, failing_reads: &'static [u64]) -> Result<Outcome, Fail> {
    let pieces = Pieces {
        read: 46,
        failing_reads,
        ..WHOLE
    };
    print(alloc, &LISTED, &FRAMES, &GROUP, pieces)
}

/// The print stopped at a fault of the second log: the first text is whole, and the second one goes this far.
fn assert_written(
    rt: &impl Abort,
    alloc: Global,
    outcome: &Outcome,
    text: &str,
) -> Result<(), Fail> {
    let text = text_of(alloc, LISTED.text, text, "")?;
    assert_eq!(rt; outcome.refused, Some(BusesRefused::ReadFault { bus: 1 }));
    assert_eq!(rt; outcome.sink.bytes(), text.as_bytes());
    Ok(())
}

/// The last of three logs.
fn third_of(rt: &impl Abort, mut logs: Vec<MemSource>) -> Result<MemSource, Fail> {
    assert_eq!(rt; logs.len(), 3);
    Ok(logs.pop().ok_or("three logs")?)
}

/// A log gives these bytes first, 46 of them.
fn assert_first(rt: &impl Abort, mut log: MemSource, bytes: &[u8]) {
    let mut prefix = [0u8; 46];
    assert_eq!(rt; log.read(&mut prefix).ok(), Some(46));
    assert_eq!(rt; prefix.as_slice(), bytes);
}

/// The second of three logs fails: the text goes this far into that of its bus, and the third is as it was.
fn assert_stop(
    rt: &impl Abort,
    alloc: Global,
    failing_reads: &'static [u64],
    text: &str,
) -> Result<(), Fail> {
    let outcome = print_failing(alloc, failing_reads)?;
    assert_written(rt, alloc, &outcome, text)?;
    let third = third_of(rt, outcome.logs)?;
    assert_first(rt, third, &GROUP.log.as_bytes()[..46]);
    Ok(())
}

#[test]
fn a_log_that_fails_stops_the_text_and_leaves_the_later_logs(rt: HostRuntime) -> Result<(), Fail> {
    assert_stop(&rt, rt.alloc(), &[0], "")?;
    assert_stop(
        &rt,
        rt.alloc(),
        &[1],
        "start A 0\nm A 0 0 1000000 Engine\ns Speed 4000 8000 \"rpm\"\n",
    )
}

/// A write was refused, and what was written is a prefix of this length.
fn assert_cut(rt: &impl Abort, outcome: &Outcome, text: &str, length: usize) {
    assert!(rt; matches!(outcome.refused, Some(BusesRefused::WriteFault)));
    assert!(rt; text.as_bytes().starts_with(outcome.sink.bytes()));
    assert_eq!(rt; outcome.sink.bytes().len(), length);
}

/// Where this write fails, the writes before it have written a prefix of the text.
fn assert_prefix(
    rt: &impl Abort,
    alloc: Global,
    failing_writes: &'static [u64],
    length: usize,
) -> Result<(), Fail> {
    let pieces = Pieces {
        write: 100,
        failing_writes,
        ..WHOLE
    };
    let text = whole_text(alloc)?;
    let outcome = print(alloc, &FRAMES, &LISTED, &GROUP, pieces)?;
    assert_cut(rt, &outcome, text.as_str(), length);
    Ok(())
}

#[test]
fn each_write_that_fails_leaves_a_prefix(rt: HostRuntime) -> Result<(), Fail> {
    assert_prefix(&rt, rt.alloc(), &[0], 0)?;
    assert_prefix(&rt, rt.alloc(), &[1], 100)?;
    assert_prefix(&rt, rt.alloc(), &[2], 200)?;
    assert_prefix(&rt, rt.alloc(), &[3], 300)
}
