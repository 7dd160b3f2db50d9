//! Runs of the tool over files in memory: what each leaves on its two outputs, its exit status, and how many logs it
//! hands back.

ghost use Rattle.std.specs.Prelude.{◌≤◌};

use bench_server::{Status, run_tool};
use port_io::{Library, MemFile, MemLibrary, MemSink, Sink};
use std::alloc::{AllocError, Global};
use std::process::Abort;
use std::test::*;

mod buses;
mod checks;
mod failures;
mod frames;
mod milling;
mod refusals;

/// A file by its name.
type File<'a> = (&'a str, &'a [u8]);

/// The words and the files of a run.
#[derive(Clone, Copy)]
struct Case<'a> {
    words: &'a [&'a str],
    files: &'a [File<'a>],
}

/// How the outside of a run behaves.
#[derive(Clone, Copy)]
struct Outside<'a> {
    /// The most bytes that a call moves.
    step: usize,
    /// The calls of the library that fail, counted from 0.
    library: &'a [u64],
    /// The read that fails of the log of this name.
    read: Option<(&'static str, u64)>,
    /// The writes of the output that fail.
    writes: &'a [u64],
    /// How many bytes the output takes.
    room: usize,
    /// The writes of the error output that fail.
    lines: &'a [u64],
}

/// What a run left.
#[derive(Drop)]
struct Left {
    status: Status,
    out: Vec<u8>,
    err: Vec<u8>,
    /// How many logs were handed back.
    logs: usize,
}

/// At most 64 bytes a call, with no failure.
const QUIET: Outside<'static> = Outside {
    step: 64,
    library: &[],
    read: None,
    writes: &[],
    room: 4096,
    lines: &[],
};

/// The failing reads of the file of this name.
fn fails_of(alloc: Global, read: Option<(&str, u64)>, name: &str) -> Result<Vec<u64>, AllocError> {
    match read {
        Some((log, call)) if log == name => Vec::from_slice(alloc, &[call]),
        Some(_) | None => Ok(Vec::new(alloc)),
    }
}

fn files_of(
    alloc: Global,
    files: &[File<'_>],
    outside: &Outside<'_>,
) -> Result<Vec<MemFile>, AllocError>
    requires { 1 ≤ outside.now.step }
{
    let mut made = Vec::new(alloc);
    for (name, content) in files {
        made.push(MemFile {
            name: String::from_str(alloc, name)?,
            content: Vec::from_slice(alloc, content)?,
            step: outside.step,
            fails: fails_of(alloc, outside.read, name)?,
        })?;
    }
    Ok(made)
}

fn words_of(alloc: Global, words: &[&str]) -> Result<Vec<String>, AllocError> {
    let mut made = Vec::new(alloc);
    for word in words {
        made.push(String::from_str(alloc, word)?)?;
    }
    Ok(made)
}

/// The tool alone: its callers see none of its clauses.
fn tool<B: Library, K: Sink, E: Sink>(
    alloc: Global,
    words: &[String],
    library: &mut B,
    out: &mut K,
    err: &mut E,
) -> (Status, usize)
where
    B::Log: Drop,
{
    let ran = run_tool(alloc, words, library, out, err);
    (ran.status, ran.logs.items().len())
}

/// A sink with so many bytes of room.
fn sink_of(alloc: Global, room: usize, step: usize, fails: &[u64]) -> Result<MemSink, AllocError>
    requires { 1 ≤ step }
{
    let room = vec![in alloc; 0; room]?;
    let fails = Vec::from_slice(alloc, fails)?;
    Ok(MemSink::new(room, step, fails))
}

/// The bytes that were written.
fn bytes_of(alloc: Global, sink: &MemSink) -> Result<Vec<u8>, AllocError> {
    Vec::from_slice(alloc, sink.bytes())
}

/// Runs the tool over these files in memory.
fn run_over(
    alloc: Global,
    words: &[&str],
    files: &[MemFile],
    outside: &Outside<'_>,
) -> Result<Left, AllocError>
    requires { 1 ≤ outside.now.step }
{
    let words = words_of(alloc, words)?;
    let mut library = MemLibrary::new(files, Vec::from_slice(alloc, outside.library)?);
    let mut out = sink_of(alloc, outside.room, outside.step, outside.writes)?;
    let mut err = sink_of(alloc, 256, outside.step, outside.lines)?;
    let (status, logs) = tool(alloc, &words, &mut library, &mut out, &mut err);
    let out = bytes_of(alloc, &out)?;
    let err = bytes_of(alloc, &err)?;
    Ok(Left {
        status,
        out,
        err,
        logs,
    })
}

/// Runs the tool over the files of a case.
fn run(
    rt: &impl Abort,
    alloc: Global,
    case: &Case<'_>,
    outside: &Outside<'_>,
) -> Result<Left, AllocError> {
    assert!(rt; 1 <= outside.step);
    let files = files_of(alloc, case.files, outside)?;
    run_over(alloc, case.words, &files, outside)
}

/// The exit status, the output and the error line of a run, and how many logs were handed back.
#[derive(Clone, Copy)]
struct End<'a> {
    code: u8,
    out: &'a [u8],
    err: &'a [u8],
    logs: usize,
}

/// What a run left is this end.
fn is_end(rt: &impl Abort, left: &Left, end: &End<'_>) {
    assert_eq!(rt; left.status.code(), end.code);
    assert_eq!(rt; left.out.as_slice(), end.out);
    assert_eq!(rt; left.err.as_slice(), end.err);
    assert_eq!(rt; left.logs, end.logs);
}

/// The run ends so.
fn ends(
    rt: &impl Abort,
    alloc: Global,
    case: &Case<'_>,
    outside: &Outside<'_>,
    end: &End<'_>,
) -> Result<(), AllocError> {
    let left = run(rt, alloc, case, outside)?;
    is_end(rt, &left, end);
    Ok(())
}

/// What a run left is this text, with no fault.
fn is_text(rt: &impl Abort, left: &Left, out: &[u8]) {
    assert_eq!(rt; left.status.code(), 0);
    assert_eq!(rt; left.out.as_slice(), out);
    assert_eq!(rt; left.err.len(), 0);
}

/// The files of a bench that is decoded, and its text.
type Decoded = (&'static [File<'static>], &'static [u8]);

/// A bench is decoded to its text, where the outside behaves so.
fn decodes(
    rt: &impl Abort,
    alloc: Global,
    files: &'static [File<'static>],
    out: &[u8],
    outside: &Outside<'_>,
) -> Result<(), AllocError> {
    let case = Case {
        words: DECODE,
        files,
    };
    let left = run(rt, alloc, &case, outside)?;
    is_text(rt, &left, out);
    Ok(())
}

/// Each bench is decoded to its text, where a call moves so many bytes.
fn all_decode(
    rt: &impl Abort,
    alloc: Global,
    rows: &[Decoded],
    step: usize,
) -> Result<(), AllocError> {
    let outside = Outside { step, ..QUIET };
    for (files, out) in rows {
        decodes(rt, alloc, files, out, &outside)?;
    }
    Ok(())
}

/// The same with each of these numbers of bytes a call.
fn all_decode_by(
    rt: &impl Abort,
    alloc: Global,
    rows: &[Decoded],
    steps: &[usize],
) -> Result<(), AllocError> {
    for step in steps {
        all_decode(rt, alloc, rows, *step)?;
    }
    Ok(())
}

/// How many bytes a call moves at most: less than a line, just the line of a frame, and a whole file.
const STEPS: &[usize] = &[1, 7, 46, 64, 4_096];

/// Each bench is decoded to its text, however few bytes a call moves.
fn each_decodes(rt: &impl Abort, alloc: Global, rows: &[Decoded]) -> Result<(), AllocError> {
    all_decode_by(rt, alloc, rows, STEPS)
}

/// The words that decode the bench file of all cases.
const DECODE: &[&str] = &["decode", "bench.txt"];

/// The bench file of one CAN bus.
const CAN: File<'static> = ("bench.txt", b"bus A can a.log a.dbc\n");

/// A frame of the identifier 256, with a raw value of 4,000 in its first two bytes.
const FRAME: File<'static> = ("a.log", b"(0000000001.000000) can0 100#A00F000000000000\n");

/// A database in which that value is a speed of twice as many revolutions a minute.
const SPEED: File<'static> = (
    "a.dbc",
    b"VERSION \"\"\nBO_ 256 Engine: 8 ECU\nSG_ Speed : 0|16@1+ (2,0) [0|131070] \"rpm\" Vector__XXX\n",
);

const SPEED_TEXT: &[u8] =
    b"start A 0\nm A 0 0 1000000 Engine\ns Speed 4000 8000 \"rpm\"\nend A 1\n";

/// That frame, which is to be decoded.
const CLASSIC: Case<'static> = Case {
    words: DECODE,
    files: &[CAN, SPEED, FRAME],
};
