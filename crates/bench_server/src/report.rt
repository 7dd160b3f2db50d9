//! The line that a status appends to the error output.

ghost use Rattle.std.specs.Prelude.{◌≡◌, ◌++◌, [], flat_map, slice_index_or, IfOk, OnOk};
ghost use Rattle.text_words.specs.SpacedWords.{behind_blank};
ghost use Rattle.bus_text.specs.Prefixes.{sink_state};
ghost use Rattle.bench_server.specs.Pieces.{WritesPrefix, joined};
ghost use Rattle.bench_server.specs.FaultLine.{bus_words, fault_line, HasPlainLine};
ghost use Rattle.bench_server.specs.Reporting.{Stays};
ghost use Rattle.bench_server.specs.Tool.{plan_names};

use crate::Status;
use crate::ended::{Ended, status_of};
use crate::pieces::write_pieces;
use bench_file::PlannedBus;
use bench_loader::DatabaseFault;
use itoa::Buffer;
use port_io::Sink;
use std::alloc::{AllocError, Global};
use text_words::append_word;

/// The line of words that are those of no command: the words of every command of the finished program.
const USAGE: &[u8] =
    b"usage: sigserve decode BENCH | check FILE | mill N | serve BENCH DESK PLACE..\n";

/// The name of the bus at this place.
fn name_of(buses: &[PlannedBus], bus: u32) -> &[u8]
    ensures { result.now ≡ slice_index_or (plan_names buses.now) bus [] }
{
    match buses.get(bus as usize) {
        Some(bus) => bus.name.bytes(),
        None => b"",
    }
}

/// Appends the name of a bus behind a blank, where there is a bus.
fn append_bus(line: &mut Vec<u8>, buses: &[PlannedBus], bus: Option<u32>) -> Result<(), AllocError>
    ensures { OnOk result (line.new.items
        ≡ line.old.items ++ flat_map behind_blank (bus_words (plan_names buses.now) bus)) }
{
    if let Some(bus) = bus {
        append_word(line, name_of(buses, bus))?;
    }
    Ok(())
}

/// The line of a database that is refused, that of the bus at this place or the only one.
fn refused_line(
    alloc: Global,
    buses: &[PlannedBus],
    bus: Option<u32>,
    fault: &DatabaseFault,
) -> Result<Vec<u8>, AllocError>
    ensures { IfOk result (λ line. line.items ≡ fault_line (plan_names buses.now) (Status.Refused bus fault.now)) }
{
    let mut line = Vec::from_slice(alloc, b"refused")?;
    append_bus(&mut line, buses, bus)?;
    line.push(b' ')?;
    fault.text(&mut line)?;
    line.push(b'\n')?;
    Ok(line)
}

/// Appends pieces, as far as the sink takes them.
fn append_pieces<E: Sink>(err: &mut E, pieces: &[&[u8]])
    ensures { WritesPrefix (sink_state (E.written err.old) (E.write_faults err.old)) (joined pieces.now)
        (sink_state (E.written err.new) (E.write_faults err.new)) }
{
    match write_pieces(err, pieces) {
        Ok(()) | Err(_) => {}
    }
}

/// Appends the line of a bench that is too large.
fn append_large<E: Sink>(err: &mut E, need: u64, room: u64)
    ensures { WritesPrefix (sink_state (E.written err.old) (E.write_faults err.old))
        (fault_line [] (Status.TooLarge need room)) (sink_state (E.written err.new) (E.write_faults err.new)) }
{
    let mut needed = Buffer::new();
    let mut there = Buffer::new();
    let need = needed.format(need).as_bytes();
    let room = there.format(room).as_bytes();
    append_pieces(err, &[b"large ", need, b" ", room, b"\n"]);
}

/// Appends a line that takes no memory: that of any status but a refused database.
fn append_line<E: Sink>(err: &mut E, buses: &[PlannedBus], status: &Status)
    requires plain { HasPlainLine status.now }
    ensures { WritesPrefix (sink_state (E.written err.old) (E.write_faults err.old))
        (fault_line (plan_names buses.now) status.now) (sink_state (E.written err.new) (E.write_faults err.new)) }
{
    match status {
        Status::Ok | Status::Refused { .. } => append_pieces(err, &[]),
        Status::Usage => append_pieces(err, &[USAGE]),
        Status::BenchFile { line } => {
            let mut digits = Buffer::new();
            append_pieces(err, &[b"bench ", digits.format(*line).as_bytes(), b"\n"]);
        }
        Status::OpenFault => append_pieces(err, &[b"open\n"]),
        Status::ReadFault { bus: None } => append_pieces(err, &[b"read\n"]),
        Status::ReadFault { bus: Some(bus) } => {
            append_pieces(err, &[b"read ", name_of(buses, *bus), b"\n"]);
        }
        Status::WriteFault => append_pieces(err, &[b"write\n"]),
        Status::TooLong { bus } => append_pieces(err, &[b"long ", name_of(buses, *bus), b"\n"]),
        Status::TooLarge { need, room } => append_large(err, *need, *room),
        Status::Memory => append_pieces(err, &[b"memory\n"]),
    }
}

/// Appends the line of a status, for these buses, as far as the sink takes it, and answers the status. Where there is
/// no memory for the line of a refused database, the status is that.
pub(crate) fn report<E: Sink>(
    alloc: Global,
    err: &mut E,
    buses: &[PlannedBus],
    status: Status,
) -> Status
    ensures status { Stays status result }
    ensures line { WritesPrefix (sink_state (E.written err.old) (E.write_faults err.old))
        (fault_line (plan_names buses.now) result) (sink_state (E.written err.new) (E.write_faults err.new)) }
{
    let Status::Refused { bus, fault } = &status else {
        append_line(err, buses, &status);
        return status;
    };
    match refused_line(alloc, buses, *bus, fault) {
        Ok(line) => {
            append_pieces(err, &[&line]);
            status
        }
        Err(_) => {
            let memory = status_of(Ended::Memory);
            append_line(err, buses, &memory);
            memory
        }
    }
}
