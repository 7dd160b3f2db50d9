//! What no clause says: that the forms of the format are read so, that a log comes out the same whatever its
//! reads, and that the values may go to another thread.

mod cases;
mod error_frames;
mod streams;
mod table;

use bench_model::Text;
use candump_log::{Lines, LinesRefused, LogLine, NoLines, Payload, Routed, Span, interface, line};
use cases::{CLASSIC, Case, LENGTHS, REMOTE_AND_FD, STAMPS_AND_BLANKS, Want};
use error_frames::ERROR_FRAMES;
use port_io::{MemSource, Source};
use std::alloc::Global;
use std::process::Abort;
use std::test::Fail;

/// Whether the line says what is wanted.
fn says(line: &LogLine, want: &Want) -> bool {
    match (line, want) {
        (
            LogLine::Frame {
                micros,
                key,
                payload,
            },
            Want::Frame(wanted_micros, extended, id, bytes),
        ) => {
            *micros == *wanted_micros
                && key.extended == *extended
                && key.id == *id
                && payload.bytes() == *bytes
        }
        (LogLine::Remote { micros, key }, Want::Remote(wanted_micros, extended, id)) => {
            *micros == *wanted_micros && key.extended == *extended && key.id == *id
        }
        (LogLine::Error { micros, id }, Want::Error(wanted_micros, wanted_id)) => {
            *micros == *wanted_micros && *id == *wanted_id
        }
        (LogLine::Bad, Want::Bad) => true,
        _ => false,
    }
}

/// Each text says what is wanted, and has an interface where it is no bad line.
fn assert_cases(rt: &impl Abort, cases: &[Case]) {
    for case in cases {
        let line = line(case.text);
        assert!(rt; says(&line, &case.want), "{:?} is {line:?}", case.text);
        let is_bad = matches!(line, LogLine::Bad);
        assert_eq!(rt; interface(case.text).is_none(), is_bad);
    }
}

fn assert_classic(rt: &impl Abort) {
    assert_cases(rt, &CLASSIC);
}

fn assert_remote_and_fd(rt: &impl Abort) {
    assert_cases(rt, &REMOTE_AND_FD);
}

fn assert_stamps_and_blanks(rt: &impl Abort) {
    assert_cases(rt, &STAMPS_AND_BLANKS);
}

fn assert_error_frames(rt: &impl Abort) {
    assert_cases(rt, &ERROR_FRAMES);
}

fn assert_lengths(rt: &impl Abort) {
    assert_cases(rt, &LENGTHS);
}

#[test]
fn each_form_says_what_it_is(rt: HostRuntime) {
    assert_classic(&rt);
    assert_remote_and_fd(&rt);
    assert_stamps_and_blanks(&rt);
    assert_error_frames(&rt);
    assert_lengths(&rt);
}

/// Texts, and where their interfaces are.
const INTERFACES: [(&[u8], Option<Span>); 3] = [
    (b"(1.000000) can0 100#", Some(Span { at: 11, end: 15 })),
    (
        b"(12.000000)\t \tvcan12\r100#R x",
        Some(Span { at: 14, end: 20 }),
    ),
    (b"(1.000000) can0 100", None),
];

fn assert_interfaces(rt: &impl Abort, rows: &[(&[u8], Option<Span>)]) {
    for (text, span) in rows {
        assert_eq!(rt; interface(text), *span);
    }
}

#[test]
fn the_interface_is_the_word_behind_the_stamp(rt: HostRuntime) {
    assert_interfaces(&rt, &INTERFACES);
}

/// A frame, a blank and such bytes behind it, so many bytes in all.
fn padded(alloc: Global, len: usize, fill: u8) -> Result<Vec<u8>, Fail> {
    let mut text = b"(1.000000) can0 100#00 ".to_vec(alloc)?;
    for _ in 23..len {
        text.push(fill)?;
    }
    Ok(text)
}

/// A text of so many bytes says what is wanted.
fn assert_padded(
    rt: &impl Abort,
    alloc: Global,
    len: usize,
    fill: u8,
    want: &Want,
) -> Result<(), Fail> {
    assert!(rt; says(&line(&padded(alloc, len, fill)?), want));
    Ok(())
}

/// A text of 512 bytes is a frame, and one of 513 a bad line, whatever fills them.
fn assert_longest(rt: &impl Abort, alloc: Global, fills: &[u8]) -> Result<(), Fail> {
    for fill in fills {
        let frame = Want::Frame(1_000_000, false, 0x100, &[0x00]);
        assert_padded(rt, alloc, 512, *fill, &frame)?;
        assert_padded(rt, alloc, 513, *fill, &Want::Bad)?;
    }
    Ok(())
}

#[test]
fn a_line_has_512_bytes_at_most(rt: HostRuntime) -> Result<(), Fail> {
    assert_longest(&rt, rt.alloc(), b"aZ \r")
}

fn texts_of(alloc: Global, names: &[&[u8]]) -> Result<Vec<Text>, Fail> {
    let mut texts = Vec::new(alloc);
    for name in names {
        texts.push(Text::of(alloc, name)?)?;
    }
    Ok(texts)
}

/// The next line goes to this place among the names.
fn assert_place(rt: &impl Abort, lines: &mut Lines<MemSource>, names: &[Text], place: Option<u32>) {
    if lines.failed() || names.len() > 4 {
        panic!(rt; "a call was refused, or there are too many names");
    }
    match lines.next_on(names) {
        Ok(Some(routed)) => assert_eq!(rt; routed.place, place),
        Ok(None) | Err(_) => panic!(rt; "a line is left"),
    }
}

/// The next lines go to these places among the names.
fn assert_places(
    rt: &impl Abort,
    lines: &mut Lines<MemSource>,
    names: &[Text],
    places: &[Option<u32>],
) {
    for place in places {
        assert_place(rt, lines, names, *place);
    }
}

/// Lines of interfaces that are names and that are none.
fn routed_log(alloc: Global) -> Result<Vec<u8>, Fail> {
    let mut bytes = b"(1.0000) can0 100#01\n(1.000000) can0 1#\n(1.000000) can0 100#01\n\
        (1.000000) can1 100#02\n(1.000000) can2 100#03\n(1.000000) can0 100#04\n(1.000000) can 100#05\n"
        .to_vec(alloc)?;
    bytes.extend_from_slice(&padded(alloc, 513, b'a')?)?;
    bytes.extend_from_slice(b"\n(1.000000) can1 100#06")?;
    Ok(bytes)
}

/// The place of each line of that log among the names.
const PLACES: [Option<u32>; 9] = [
    None,
    None,
    Some(0),
    Some(1),
    None,
    Some(0),
    None,
    None,
    Some(1),
];

#[test]
fn a_line_goes_to_the_first_name_of_its_interface(rt: HostRuntime) -> Result<(), Fail> {
    let alloc = rt.alloc();
    let names = texts_of(alloc, &[b"can0", b"can1", b"can1", b"can0"])?;
    let source = MemSource::new(routed_log(alloc)?, 100, Vec::new(alloc));
    let Ok(mut lines) = Lines::new(alloc, source) else {
        panic!(rt; "out of memory");
    };
    assert_places(&rt, &mut lines, &names, &PLACES);
    Ok(())
}

fn crosses<T: Send + Drop>() {}

fn lines_cross<S: Source + Send + Drop>() {
    crosses::<Lines<S>>();
    crosses::<NoLines<S>>();
}

#[test]
fn all_may_go_to_another_thread() {
    lines_cross::<MemSource>();
    crosses::<LogLine>();
    crosses::<Routed>();
    crosses::<Payload>();
    crosses::<Span>();
    crosses::<LinesRefused>();
}
