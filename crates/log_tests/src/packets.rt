//! Runs of frames with what each brings, worked out by hand from the protocol's table.

use bench_model::CutCause;
use j1939_tp::{Listener, TpOut, pgn_of};
use std::alloc::{AllocError, Global};
use std::process::Abort;
use std::test::Fail;

mod cases;

use cases::{CASES, FURTHER_CASES};

/// A frame's stamp, identifier, and eight bytes, the first one the highest.
type Row = (u64, u32, u64);

/// Frames, and what each brings: `-`, or a group, a source and a destination with the bytes or the cause.
struct Case {
    name: &'static str,
    frames: &'static [Row],
    answers: &'static str,
}

fn cause_name(cause: CutCause) -> &'static str {
    match cause {
        CutCause::Late => "late",
        CutCause::Again => "again",
        CutCause::Order => "order",
        CutCause::Abort => "abort",
        CutCause::End => "end",
    }
}

/// Appends a group, a source and a destination.
fn push_session(alloc: Global, text: &mut String, numbers: [u32; 3]) -> Result<(), AllocError> {
    for number in numbers {
        text.push_str(format!(in alloc; "{number} ")?.as_str())?;
    }
    Ok(())
}

fn push_hexadecimal(alloc: Global, text: &mut String, bytes: &[u8]) -> Result<(), AllocError> {
    for byte in bytes {
        text.push_str(format!(in alloc; "{byte:02X}")?.as_str())?;
    }
    Ok(())
}

fn push_answer(alloc: Global, text: &mut String, out: &TpOut) -> Result<(), AllocError> {
    match out {
        TpOut::Nothing => text.push_str("-"),
        TpOut::Whole { pgn, sa, da, bytes } => {
            push_session(alloc, text, [*pgn, u32::from(*sa), u32::from(*da)])?;
            push_hexadecimal(alloc, text, bytes.bytes())
        }
        TpOut::Cut { pgn, sa, da, cause } => {
            push_session(alloc, text, [*pgn, u32::from(*sa), u32::from(*da)])?;
            text.push_str(cause_name(*cause))
        }
    }
}

/// Appends what this frame brings.
fn hear(
    alloc: Global,
    listener: &mut Listener,
    text: &mut String,
    frame: (u64, u32),
    bytes: &[u8],
) -> Result<(), AllocError> {
    if !text.is_empty() {
        text.push_str("; ")?;
    }
    let (micros, id) = frame;
    let out = listener.step(micros, id, bytes)?;
    push_answer(alloc, text, &out)
}

/// What these frames bring, one after another.
fn answers(alloc: Global, frames: &[Row]) -> Result<String, AllocError> {
    let mut listener = Listener::new(alloc);
    let mut text = String::new(alloc);
    for (micros, id, bytes) in frames {
        let bytes = bytes.to_be_bytes();
        hear(alloc, &mut listener, &mut text, (*micros, *id), &bytes)?;
    }
    Ok(text)
}

fn check_cases(rt: &impl Abort, alloc: Global, cases: &[Case]) -> Result<(), Fail> {
    for case in cases {
        let name = case.name;
        assert_eq!(rt;
            answers(alloc, case.frames)?.as_str(),
            case.answers,
            "{name}"
        );
    }
    Ok(())
}

#[test]
fn what_each_frame_brings(rt: HostRuntime) -> Result<(), Fail> {
    check_cases(&rt, rt.alloc(), CASES)
}

#[test]
fn what_late_odd_and_parallel_frames_bring(rt: HostRuntime) -> Result<(), Fail> {
    check_cases(&rt, rt.alloc(), FURTHER_CASES)
}

/// Values of this type may go to another thread.
fn assert_goes<T: Send>(_value: &T) {}

/// What the frames of a message of 1,785 bytes in 255 packets bring, each of the same byte seven times.
fn greatest(rt: &impl Abort, listener: &mut Listener) -> Result<TpOut, AllocError> {
    let mut out = listener.step(
        0,
        0x18EC_FF00,
        &[0x20, 0xF9, 0x06, 0xFF, 0xFF, 0xCA, 0xFE, 0],
    )?;
    for number in 1..=255u8 {
        assert!(rt; matches!(out, TpOut::Nothing));
        out = listener.step(0, 0x18EB_FF00, &[number; 8])?;
    }
    Ok(out)
}

fn assert_sevenfold(rt: &impl Abort, bytes: &[u8]) {
    assert_eq!(rt; bytes.len(), 1_785);
    for (place, byte) in bytes.iter().enumerate() {
        assert_eq!(rt; usize::from(*byte), place / 7 + 1);
    }
}

#[test]
fn the_greatest_message(rt: HostRuntime) -> Result<(), Fail> {
    let mut listener = Listener::new(rt.alloc());
    assert_goes(&listener);
    let out = greatest(&rt, &mut listener)?;
    assert!(rt; matches!(out, TpOut::Whole { .. }));
    if let TpOut::Whole { bytes, .. } = &out {
        assert_sevenfold(&rt, bytes.bytes());
    }
    Ok(())
}

/// Connection management of 7 bytes and of none, one of 8 bytes, a packet of 64, and the opening once more. Neither of
/// the first two opened a session, which the third would cut.
const ODD_LENGTHS: &[(u32, &[u8])] = &[
    (0x18EC_FF00, &[0x20, 0x0A, 0, 2, 0xFF, 0xCA, 0xFE]),
    (0x18EC_FF00, &[]),
    (0x18EC_FF00, &[0x20, 0x0A, 0, 2, 0xFF, 0xCA, 0xFE, 0]),
    (0x18EB_FF00, &[1; 64]),
    (0x18EC_FF00, &[0x20, 0x0A, 0, 2, 0xFF, 0xCA, 0xFE, 0]),
];

/// What frames of any length bring, one after another.
fn answers_of_any_length(alloc: Global, frames: &[(u32, &[u8])]) -> Result<String, AllocError> {
    let mut listener = Listener::new(alloc);
    let mut text = String::new(alloc);
    for (id, bytes) in frames {
        hear(alloc, &mut listener, &mut text, (0, *id), bytes)?;
    }
    Ok(text)
}

#[test]
fn frames_of_other_lengths_bring_nothing(rt: HostRuntime) -> Result<(), Fail> {
    let text = answers_of_any_length(rt.alloc(), ODD_LENGTHS)?;
    assert_eq!(rt; text.as_str(), "-; -; -; -; 65226 0 255 again");
    Ok(())
}

#[test]
fn groups_of_identifiers(rt: HostRuntime) {
    let rows = [
        (0x18EC_FF00, 60_416),
        (0x0CF0_0400, 61_444),
        (0x0CF0_04FE, 61_444),
        (0x18FE_CA00, 65_226),
        (0x18EF_1234, 61_184),
        (0x1BFF_FF00, 262_143),
        (0x0000_0000, 0),
    ];
    for (id, group) in rows {
        assert_eq!(rt; pgn_of(id), group);
    }
}
