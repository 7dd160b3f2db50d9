//! Wants, and what they cover.

use super::{all_wants, assert_text, buses, lines, message, one, record, signal, wants_of};
use bench_model::{Body, Exact, Item, Missed, Reading, SignalValue, Text};
use multiplex_tree::List;
use std::alloc::{AllocError, Global};
use std::process::Abort;
use std::test::Fail;
use subscriber_text::{Wants, WantsFault};

/// What reading a text of wants answers: its format, or its fault.
fn answer(alloc: Global, text: &[u8]) -> Result<Result<u32, WantsFault>, AllocError> {
    match Wants::read(alloc, &buses(alloc)?, text) {
        Ok(wants) => Ok(Ok(wants.format())),
        Err(fault) => Ok(Err(fault)),
    }
}

/// Texts of wants, and what reading them answers.
const TEXTS: [(&[u8], Result<u32, WantsFault>); 20] = [
    (b"", Ok(2)),
    (b"WANT A\n", Ok(2)),
    (b"FORMAT 1\n", Ok(1)),
    (b" FORMAT\t2 \r\nWANT Bus2 M S\r\n", Ok(2)),
    (b"\tWANT\t \tA  None \r\nWANT A", Ok(2)),
    (b"WANT A\nWANTED\n", Err(WantsFault::Line { n: 2 })),
    (b"WANT Z\n", Err(WantsFault::UnknownBus { n: 1 })),
    (b"WANT A\nFORMAT 1\n", Err(WantsFault::Line { n: 2 })),
    (b"WANT A\nFORMAT 2\n", Err(WantsFault::Line { n: 2 })),
    (b"FORMAT 2\nFORMAT 2\n", Err(WantsFault::Line { n: 2 })),
    (b"WANT A\r", Ok(2)),
    (b"FORMAT 3\n", Err(WantsFault::Line { n: 1 })),
    (b"FORMAT 01\n", Err(WantsFault::Line { n: 1 })),
    (b"FORMAT 1 1\n", Err(WantsFault::Line { n: 1 })),
    (
        b"FORMAT 2\nWANT A\nWANT a\n",
        Err(WantsFault::UnknownBus { n: 3 }),
    ),
    (b"WANT Z A B C\nWANT Z\n", Err(WantsFault::Line { n: 1 })),
    (b"WANT\n", Err(WantsFault::Line { n: 1 })),
    (b"WANT A\n\nWANT Z\n", Err(WantsFault::Line { n: 2 })),
    (b"GO\n", Err(WantsFault::Line { n: 1 })),
    (b"WANT A\r \n", Err(WantsFault::UnknownBus { n: 1 })),
];

fn reads(
    rt: &impl Abort,
    alloc: Global,
    rows: &[(&[u8], Result<u32, WantsFault>)],
) -> Result<(), Fail> {
    for (text, expected) in rows {
        assert_eq!(rt; answer(alloc, text)?, *expected);
    }
    Ok(())
}

#[test]
fn the_first_faulty_line_decides(rt: HostRuntime) -> Result<(), Fail> {
    reads(&rt, rt.alloc(), TEXTS.as_slice())
}

/// Lines that want a bus, and one line more.
fn lines_before(alloc: Global, end: &[u8]) -> Result<Vec<u8>, AllocError> {
    let mut text = lines(alloc, 9361)?;
    text.extend_from_slice(end)?;
    Ok(text)
}

#[test]
fn a_text_of_65535_bytes_is_read(rt: HostRuntime) -> Result<(), Fail> {
    let text = lines_before(rt.alloc(), b"WANT A\n\n")?;
    assert_eq!(rt; text.len(), 65_535);
    assert_eq!(rt;
        answer(rt.alloc(), &text)?,
        Err(WantsFault::Line { n: 9363 })
    );
    let text = lines_before(rt.alloc(), b"WANT A \n")?;
    assert_eq!(rt; text.len(), 65_535);
    assert_eq!(rt; answer(rt.alloc(), &text)?, Ok(2));
    Ok(())
}

/// The record of a message with two signals.
fn engine(alloc: Global) -> Result<Vec<Item>, AllocError> {
    let mut signals = Vec::new(alloc);
    let speed = Exact { num: 800000, k: 2 };
    let oil = Exact { num: -205, k: 1 };
    signals.push(signal(alloc, b"Speed", 4000, speed, b"rpm", b"fast")?)?;
    signals.push(signal(alloc, b"Oil", -20, oil, b"\xc2\xb0C", b"cold")?)?;
    one(alloc, message(alloc, b"Engine", signals)?)
}

const WHOLE: &[u8] = b"m A 0 0 1000000 Engine\n\
s Speed 4000 8000 \"rpm\" \"fast\"\n\
s Oil -20 -20.5 \"\xc2\xb0C\" \"cold\"\n";

const OIL: &[u8] = b"m A 0 0 1000000 Engine\ns Oil -20 -20.5 \"\xc2\xb0C\" \"cold\"\n";

/// Wants, and what they leave of that record.
const COVERED: [(&[u8], &[u8]); 9] = [
    (b"WANT A", WHOLE),
    (b"WANT A Engine", WHOLE),
    (b"WANT A Engine Oil", OIL),
    (
        b"WANT A Engine Oil\nWANT A Engine Speed\nWANT A Engine Oil",
        WHOLE,
    ),
    (b"WANT A Engine Speed\nWANT A Engine", WHOLE),
    (b"WANT A Engine Gear", b"m A 0 0 1000000 Engine\n"),
    (b"WANT A Gearbox Oil\nWANT A engine", b""),
    (b"WANT Bus2", b""),
    (b"WANT Bus2 Engine\nWANT A - Oil", b""),
];

fn covers(
    rt: &impl Abort,
    alloc: Global,
    items: &[Item],
    rows: &[(&[u8], &[u8])],
) -> Result<(), Fail> {
    for (text, expected) in rows {
        assert_text(rt, alloc, &wants_of(alloc, text)?, items, expected)?;
    }
    Ok(())
}

#[test]
fn wants_cover_a_bus_a_message_or_a_signal(rt: HostRuntime) -> Result<(), Fail> {
    let items = engine(rt.alloc())?;
    covers(&rt, rt.alloc(), &items, COVERED.as_slice())
}

/// The signals of a message in packets.
fn lamp_signals(alloc: Global) -> Result<Vec<SignalValue>, AllocError> {
    let mut signals = Vec::new(alloc);
    let one_lamp = Exact { num: 1, k: 0 };
    let count = Exact { num: 3, k: 0 };
    signals.push(signal(alloc, b"Lamp", 1, one_lamp, b"", b"on")?)?;
    signals.push(signal(alloc, b"Count", 3, count, b"", b"few")?)?;
    Ok(signals)
}

/// A message in packets, with two signals.
fn lamps(alloc: Global) -> Result<Vec<Item>, AllocError> {
    let signals = lamp_signals(alloc)?;
    let body = Body::Transport {
        pgn: 65226,
        sa: 0,
        da: 255,
        bytes: Text::of(alloc, b"\x01\x03")?,
        name: Some(Text::of(alloc, b"DM1")?),
        signals: List::of(signals),
    };
    one(alloc, record(3, 5, body))
}

const LAMPS: &[u8] = b"t A 3 0 5 65226 0 255 0103 DM1\n\
s Lamp 1 1 \"\" \"on\"\n\
s Count 3 3 \"\" \"few\"\n";

const LAMP: &[u8] = b"t A 3 0 5 65226 0 255 0103 DM1\ns Lamp 1 1 \"\" \"on\"\n";

/// Wants, and what they leave of that record.
const TRANSPORTED: [(&[u8], &[u8]); 4] = [
    (b"WANT A DM1", LAMPS),
    (b"WANT A DM1 Lamp", LAMP),
    (b"WANT A - Lamp\nWANT A -", b""),
    (b"WANT Bus2 DM1", b""),
];

#[test]
fn wants_cover_a_message_in_packets(rt: HostRuntime) -> Result<(), Fail> {
    let items = lamps(rt.alloc())?;
    covers(&rt, rt.alloc(), &items, TRANSPORTED.as_slice())
}

#[test]
fn format_1_has_all_signals_of_a_message_in_packets(rt: HostRuntime) -> Result<(), Fail> {
    let wants = all_wants(rt.alloc())?;
    assert_text(&rt, rt.alloc(), &wants, &lamps(rt.alloc())?, LAMPS)
}

#[test]
fn a_record_of_a_bus_past_the_names_is_not_wanted(rt: HostRuntime) -> Result<(), Fail> {
    let reading = Reading {
        bus: 2,
        number: 0,
        version: 0,
        micros: 0,
        body: Body::Bad,
    };
    let wants = all_wants(rt.alloc())?;
    let items = one(rt.alloc(), Item::Reading { reading })?;
    assert_text(&rt, rt.alloc(), &wants, &items, b"")
}

/// A start, a gap and an end of a bus.
fn marks(alloc: Global, bus: u32) -> Result<Vec<Item>, AllocError> {
    let missed = Missed {
        first: 2,
        count: 3,
        first_micros: 20,
        last_micros: 40,
        first_version: 0,
        last_version: 7,
    };
    let items = [
        Item::Start {
            bus,
            number: 2,
            turn: 1,
        },
        Item::Gap { bus, missed },
        Item::End { bus, number: 5 },
    ];
    Vec::from_array(alloc, items).map_err(AllocError::from)
}

const MARKS: &[u8] = b"start A 2\ng A 2 3 20 40 0 7\nend A 5\n";

/// Wants, and what they leave of the marks of the first bus.
const MARKED: [(&[u8], &[u8]); 3] = [
    (b"WANT A Engine Speed", MARKS),
    (b"WANT A None", MARKS),
    (b"WANT Bus2 Engine", b""),
];

#[test]
fn starts_gaps_and_ends_are_wanted_with_anything_of_the_bus(rt: HostRuntime) -> Result<(), Fail> {
    covers(&rt, rt.alloc(), &marks(rt.alloc(), 0)?, MARKED.as_slice())?;
    let wants = wants_of(rt.alloc(), b"")?;
    assert_text(&rt, rt.alloc(), &wants, &marks(rt.alloc(), 2)?, b"")
}

#[test]
fn what_no_message_matched_is_wanted_with_the_whole_bus(rt: HostRuntime) -> Result<(), Fail> {
    let wants = wants_of(rt.alloc(), b"WANT A -\nWANT Bus2")?;
    let items = one(rt.alloc(), record(3, 0, Body::Bad))?;
    assert_text(&rt, rt.alloc(), &wants, &items, b"")?;
    assert!(rt; wants.wants_bus(1));
    assert!(rt; !wants.wants_bus(2));
    Ok(())
}
