//! That a log comes out the same whatever its reads, and what a read that fails leaves.
ghost use Rattle.std.specs.Prelude.{◌≤◌};

use super::cases::Want;
use super::says;
use super::table::{Longest, Table, log_ending};
use candump_log::{Lines, LinesRefused};
use port_io::{MemSource, Source};
use std::alloc::Global;
use std::process::Abort;
use std::test::Fail;

/// A reader of these bytes by such reads, of which those of these numbers fail.
fn reader(
    rt: &impl Abort,
    alloc: Global,
    bytes: &[u8],
    step: usize,
    fails: &[u64],
) -> Result<Lines<MemSource>, Fail>
    requires { 1 ≤ step }
{
    let source = MemSource::new(bytes.to_vec(alloc)?, step, fails.to_vec(alloc)?);
    match Lines::new(alloc, source) {
        Ok(lines) => Ok(lines),
        Err(_) => panic!(rt; "out of memory"),
    }
}

/// The next line says what is wanted.
fn assert_line(rt: &impl Abort, lines: &mut Lines<MemSource>, want: &Want) {
    if lines.failed() {
        panic!(rt; "a call was refused");
    }
    match lines.next() {
        Ok(Some(line)) => assert!(rt; says(&line, want), "{line:?}"),
        Ok(None) => panic!(rt; "the log has ended"),
        Err(why) => panic!(rt; "{why:?}"),
    }
}

/// The next lines say what is wanted.
fn assert_lines(rt: &impl Abort, lines: &mut Lines<MemSource>, wants: &[Want]) {
    for want in wants {
        assert_line(rt, lines, want);
    }
}

/// No line is left.
fn assert_end(rt: &impl Abort, lines: &mut Lines<MemSource>) {
    if lines.failed() {
        panic!(rt; "a call was refused");
    }
    match lines.next() {
        Ok(line) => assert!(rt; line.is_none()),
        Err(why) => panic!(rt; "{why:?}"),
    }
    assert!(rt; !lines.failed());
}

/// The next read fails.
fn assert_fault(rt: &impl Abort, lines: &mut Lines<MemSource>) {
    if lines.failed() {
        panic!(rt; "a call was refused");
    }
    match lines.next() {
        Ok(line) => panic!(rt; "{line:?}"),
        Err(why) => assert_eq!(rt; why, LinesRefused::ReadFault),
    }
    assert!(rt; lines.failed());
}

/// The log has the wanted lines by such reads.
fn assert_whole(rt: &impl Abort, alloc: Global, log: &Table, step: usize) -> Result<(), Fail>
    requires { 1 ≤ step }
{
    let mut lines = reader(rt, alloc, &log.bytes, step, &[])?;
    assert_lines(rt, &mut lines, &log.wants);
    assert_end(rt, &mut lines);
    Ok(())
}

const STEPS: [usize; 8] = [1, 2, 3, 46, 511, 512, 513, 65_536];

fn assert_whole_at_each(
    rt: &impl Abort,
    alloc: Global,
    log: &Table,
    steps: &[usize],
) -> Result<(), Fail> {
    for step in steps {
        assert!(rt; *step > 0);
        assert_whole(rt, alloc, log, *step)?;
    }
    Ok(())
}

#[test]
fn a_log_has_the_same_lines_whatever_its_reads(rt: HostRuntime) -> Result<(), Fail> {
    let alloc = rt.alloc();
    let log = log_ending(alloc, Longest::IsOver, Longest::Fits)?;
    assert_whole_at_each(&rt, alloc, &log, &STEPS)
}

#[test]
fn a_last_line_that_is_too_long_is_bad_whatever_the_reads(rt: HostRuntime) -> Result<(), Fail> {
    let alloc = rt.alloc();
    let log = log_ending(alloc, Longest::Fits, Longest::IsOver)?;
    assert_whole_at_each(&rt, alloc, &log, &STEPS)
}

#[test]
fn an_empty_log_has_no_line(rt: HostRuntime) -> Result<(), Fail> {
    let mut lines = reader(&rt, rt.alloc(), &[], 46, &[])?;
    assert_end(&rt, &mut lines);
    Ok(())
}

/// How many lines end among the first bytes.
fn lines_among(bytes: &[u8], count: usize) -> usize {
    bytes
        .iter()
        .take(count)
        .filter(|byte| **byte == b'\n')
        .count()
}

/// The lines of the bytes before the read of this number, and then its fault.
fn assert_failing(
    rt: &impl Abort,
    alloc: Global,
    log: &Table,
    step: usize,
    failing: u64,
) -> Result<(), Fail>
    requires { 1 ≤ step }
{
    let mut lines = reader(rt, alloc, &log.bytes, step, &[failing])?;
    let before = lines_among(&log.bytes, (failing as usize).saturating_mul(step));
    assert!(rt; before <= log.wants.len());
    assert_lines(rt, &mut lines, &log.wants[..before]);
    assert_fault(rt, &mut lines);
    Ok(())
}

/// Each read of the log fails in turn, also the one that says its end.
fn assert_each_failing(rt: &impl Abort, alloc: Global, log: &Table, step: usize) -> Result<(), Fail>
    requires { 1 ≤ step }
{
    let reads = log.bytes.len().div_ceil(step) as u64;
    for failing in 0..=reads {
        assert_failing(rt, alloc, log, step, failing)?;
    }
    assert_unreached(rt, alloc, log, step, reads)
}

/// The log is read whole where only a read behind its last would fail.
fn assert_unreached(
    rt: &impl Abort,
    alloc: Global,
    log: &Table,
    step: usize,
    last: u64,
) -> Result<(), Fail>
    requires { 1 ≤ step }
{
    let mut lines = reader(rt, alloc, &log.bytes, step, &[last.saturating_add(1)])?;
    assert_lines(rt, &mut lines, &log.wants);
    assert_end(rt, &mut lines);
    Ok(())
}

fn assert_failing_at_each(
    rt: &impl Abort,
    alloc: Global,
    log: &Table,
    steps: &[usize],
) -> Result<(), Fail> {
    for step in steps {
        assert!(rt; *step > 0);
        assert_each_failing(rt, alloc, log, *step)?;
    }
    Ok(())
}

#[test]
fn a_read_that_fails_leaves_the_lines_before_it(rt: HostRuntime) -> Result<(), Fail> {
    let alloc = rt.alloc();
    let log = log_ending(alloc, Longest::IsOver, Longest::Fits)?;
    assert_failing_at_each(&rt, alloc, &log, &[46, 512, 65_536])
}

/// Three lines of 23 bytes with their line feeds.
const THREE: &[u8] = b"(1.000000) can0 100#01\n(1.000000) can0 100#02\n(1.000000) can0 100#03\n";

/// How many bytes were taken behind each of the three lines.
fn assert_taken(rt: &impl Abort, alloc: Global, step: usize, taken: [u64; 3]) -> Result<(), Fail>
    requires { 1 ≤ step }
{
    let mut lines = reader(rt, alloc, THREE, step, &[])?;
    for (byte, wanted) in [&[0x01], &[0x02], &[0x03]].iter().zip(taken) {
        assert_line(rt, &mut lines, &Want::Frame(1_000_000, false, 0x100, *byte));
        assert_eq!(rt; lines.taken(), wanted);
    }
    Ok(())
}

#[test]
fn what_was_taken_is_counted_by_bytes(rt: HostRuntime) -> Result<(), Fail> {
    assert_taken(&rt, rt.alloc(), 23, [23, 46, 69])?;
    assert_taken(&rt, rt.alloc(), 46, [46, 46, 69])
}

/// Whether a line is ready before the next call, and whether the call gives one.
fn assert_ready(rt: &impl Abort, lines: &mut Lines<MemSource>, ready: bool, some: bool) {
    if lines.failed() {
        panic!(rt; "a call was refused");
    }
    assert_eq!(rt; lines.ready(), ready);
    match lines.next() {
        Ok(line) => assert_eq!(rt; line.is_some(), some),
        Err(why) => panic!(rt; "{why:?}"),
    }
    assert_eq!(rt; lines.taken(), 47);
}

/// Whether a line is ready, and whether a call gives one; none is given again after the end.
const READY: [(bool, bool); 5] = [
    (false, true),
    (true, true),
    (false, true),
    (false, false),
    (false, false),
];

fn assert_each_ready(rt: &impl Abort, lines: &mut Lines<MemSource>, rows: &[(bool, bool)]) {
    for (ready, some) in rows {
        assert_ready(rt, lines, *ready, *some);
    }
}

#[test]
fn a_line_is_ready_where_it_was_read(rt: HostRuntime) -> Result<(), Fail> {
    let alloc = rt.alloc();
    let bytes = b"(1.000000) can0 100#01\n(1.000000) can0 100#02\nx";
    let mut lines = reader(&rt, alloc, bytes, 65_536, &[])?;
    assert_each_ready(&rt, &mut lines, &READY);
    // The source comes back at its end, so a reader of what it has left finds nothing.
    assert_eq!(rt; lines.into_source().read(&mut [0u8; 9]), Ok(0));
    Ok(())
}
