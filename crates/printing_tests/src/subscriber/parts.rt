//! The text of a message's record, part by part.

use super::wants_of;
use bench_model::Exact;
use std::alloc::{AllocError, Global};
use std::process::Abort;
use std::test::Fail;
use subscriber_text::{
    RecordPlace, SignalParts, WantedSignals, Wants, append_message, append_wanted_signal,
};

const PLACE: RecordPlace = RecordPlace {
    bus: 0,
    number: 7,
    version: 2,
    micros: 1_000_000,
};

const SPEED: SignalParts = SignalParts {
    name: b"Speed",
    raw: 1200,
    value: Exact { num: 1505, k: 1 },
    unit: b"rpm",
    label: None,
};

const MODE: SignalParts = SignalParts {
    name: b"Mode",
    raw: -1,
    value: Exact { num: -1, k: 0 },
    unit: b"",
    label: Some(b"off"),
};

/// What a signal of a message appends.
fn append_one(
    wants: &Wants,
    wanted: WantedSignals,
    signal: SignalParts,
    text: &mut Vec<u8>,
) -> Result<(), AllocError> {
    append_wanted_signal(wants, PLACE.bus, b"Engine", wanted, signal, text)
}

/// What the record of a message of two signals appends.
fn text_of_parts(alloc: Global, wants: &Wants) -> Result<Vec<u8>, AllocError> {
    let mut text = Vec::new(alloc);
    let wanted = append_message(wants, PLACE, b"Engine", &mut text)?;
    append_one(wants, wanted, SPEED, &mut text)?;
    append_one(wants, wanted, MODE, &mut text)?;
    Ok(text)
}

/// The record has this text under the wants of these lines.
fn assert_parts(rt: &impl Abort, alloc: Global, lines: &[u8], expected: &[u8]) -> Result<(), Fail> {
    let wants = wants_of(alloc, lines)?;
    let text = text_of_parts(alloc, &wants)?;
    assert_eq!(rt; text.as_slice(), expected);
    Ok(())
}

#[test]
fn a_message_wanted_whole_has_all_its_lines(rt: HostRuntime) -> Result<(), Fail> {
    let lines = b"m A 7 2 1000000 Engine\ns Speed 1200 150.5 \"rpm\"\ns Mode -1 -1 \"\" \"off\"\n";
    assert_parts(&rt, rt.alloc(), b"WANT A Engine\n", lines)
}

#[test]
fn a_signal_that_is_wanted_alone_has_its_line(rt: HostRuntime) -> Result<(), Fail> {
    let lines = b"m A 7 2 1000000 Engine\ns Mode -1 -1 \"\" \"off\"\n";
    assert_parts(&rt, rt.alloc(), b"WANT A Engine Mode\n", lines)
}

#[test]
fn a_message_that_is_not_wanted_has_no_line(rt: HostRuntime) -> Result<(), Fail> {
    assert_parts(&rt, rt.alloc(), b"WANT A Other\nWANT Bus2 Engine\n", b"")
}
