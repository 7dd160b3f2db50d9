//! The text of items, line by line.

use super::{all_wants, assert_text, message, one, record, signal, wants_of};
use bench_model::{Body, CutCause, Exact, Item, Key, Missed, SignalValue, Text};
use multiplex_tree::List;
use port_io::MemSink;
use std::alloc::{AllocError, Global};
use std::process::Abort;
use std::test::Fail;
use subscriber_text::{PrintRefused, Wants, WantsFault, header, print};

const SHORT: Key = Key {
    extended: false,
    id: 0x123,
};

const LOW: Key = Key {
    extended: false,
    id: 0x7,
};

const LONG: Key = Key {
    extended: true,
    id: 0x0CF0_0400,
};

/// A record of each kind of frame, and a start and an end.
fn frames(alloc: Global) -> Result<Vec<Item>, AllocError> {
    let bytes = Text::of(alloc, b"\xaa\x0b")?;
    let none = Text::of(alloc, b"")?;
    let items = [
        Item::Start {
            bus: 0,
            number: u64::MAX,
            turn: 3,
        },
        record(0, 1_000_000, Body::Unmatched { key: SHORT, bytes }),
        record(
            1,
            5,
            Body::Unmatched {
                key: LONG,
                bytes: none,
            },
        ),
        record(1, 1_000_001, Body::Remote { key: SHORT }),
        record(1, 1_000_001, Body::Remote { key: LOW }),
        record(2, 1_000_002, Body::Error { id: 0x2000_0004 }),
        record(3, 0, Body::Bad),
        Item::End { bus: 0, number: 4 },
        Item::End { bus: 2, number: 4 },
    ];
    Vec::from_array(alloc, items).map_err(AllocError::from)
}

const FRAMES: &[u8] = b"start A 18446744073709551615\n\
u A 0 0 1000000 123#AA0B\n\
u A 1 0 5 0CF00400#\n\
r A 1 0 1000001 123\n\
r A 1 0 1000001 007\n\
e A 2 0 1000002 20000004\n\
x A 3 0\n\
end A 4\n";

/// Parts of transports, and records that were missed.
fn transports(alloc: Global) -> Result<Vec<Item>, AllocError> {
    let bytes = Text::of(alloc, b"\x11\x22\x33\x44\x55\x66\x77\x88\x99\xaa")?;
    let unnamed = Body::Transport {
        pgn: 65226,
        sa: 0,
        da: 255,
        bytes,
        name: None,
        signals: List::of(Vec::new(alloc)),
    };
    let named = Body::Transport {
        pgn: 65226,
        sa: 0,
        da: 255,
        bytes: Text::of(alloc, b"")?,
        name: Some(Text::of(alloc, b"DM1")?),
        signals: List::of(Vec::new(alloc)),
    };
    let missed = Missed {
        first: 2,
        count: 3,
        first_micros: 1_000_020,
        last_micros: 1_000_040,
        first_version: 0,
        last_version: 7,
    };
    let items = [
        record(3, 1_100_000, unnamed),
        record(4, 1_100_001, named),
        cut(CutCause::Late),
        cut(CutCause::Again),
        cut(CutCause::Order),
        cut(CutCause::Abort),
        cut(CutCause::End),
        Item::Gap { bus: 0, missed },
    ];
    Vec::from_array(alloc, items).map_err(AllocError::from)
}

/// The record of a transport that was broken off.
fn cut(cause: CutCause) -> Item {
    let body = Body::Cut {
        pgn: 65226,
        sa: 0,
        da: 255,
        cause,
    };
    record(2, 1_050_000, body)
}

const TRANSPORTS: &[u8] = b"t A 3 0 1100000 65226 0 255 112233445566778899AA -\n\
t A 4 0 1100001 65226 0 255  DM1\n\
c A 2 0 1050000 65226 0 255 late\n\
c A 2 0 1050000 65226 0 255 again\n\
c A 2 0 1050000 65226 0 255 order\n\
c A 2 0 1050000 65226 0 255 abort\n\
c A 2 0 1050000 65226 0 255 end\n\
g A 2 3\n";

const SECOND_TRANSPORTS: &[u8] = b"t A 3 0 1100000 65226 0 255 112233445566778899AA -\n\
t A 4 0 1100001 65226 0 255  DM1\n\
c A 2 0 1050000 65226 0 255 late\n\
c A 2 0 1050000 65226 0 255 again\n\
c A 2 0 1050000 65226 0 255 order\n\
c A 2 0 1050000 65226 0 255 abort\n\
c A 2 0 1050000 65226 0 255 end\n\
g A 2 3 1000020 1000040 0 7\n";

/// Each kind of item has its line under these wants.
fn assert_kinds(
    rt: &impl Abort,
    alloc: Global,
    wants: &Wants,
    transported: &[u8],
) -> Result<(), Fail> {
    assert_text(rt, alloc, wants, &frames(alloc)?, FRAMES)?;
    assert_text(rt, alloc, wants, &transports(alloc)?, transported)
}

#[test]
fn each_kind_of_item_has_its_line(rt: HostRuntime) -> Result<(), Fail> {
    let wants = all_wants(rt.alloc())?;
    assert_eq!(rt; wants.format(), 1);
    assert_kinds(&rt, rt.alloc(), &wants, TRANSPORTS)
}

#[test]
fn format_2_tells_more_of_a_gap(rt: HostRuntime) -> Result<(), Fail> {
    let wants = wants_of(rt.alloc(), b"")?;
    assert_eq!(rt; wants.format(), 2);
    assert_kinds(&rt, rt.alloc(), &wants, SECOND_TRANSPORTS)
}

/// The value of a signal with no label.
fn unlabelled(alloc: Global) -> Result<SignalValue, AllocError> {
    Ok(SignalValue {
        name: Text::of(alloc, b"Speed")?,
        raw: 4000,
        value: Exact { num: 8000, k: 0 },
        unit: Text::of(alloc, b"rpm")?,
        label: None,
    })
}

/// The record of a signal with no label, and of one with no unit.
fn bare_signals(alloc: Global) -> Result<Vec<Item>, AllocError> {
    let mut signals = Vec::new(alloc);
    signals.push(unlabelled(alloc)?)?;
    signals.push(signal(alloc, b"Gear", 1, Exact { num: 1, k: 0 }, b"", b"First")?)?;
    one(alloc, message(alloc, b"Engine", signals)?)
}

#[test]
fn a_signal_without_label_or_unit_has_none(rt: HostRuntime) -> Result<(), Fail> {
    let wants = all_wants(rt.alloc())?;
    let items = bare_signals(rt.alloc())?;
    let expected =
        b"m A 0 0 1000000 Engine\ns Speed 4000 8000 \"rpm\"\ns Gear 1 1 \"\" \"First\"\n";
    assert_text(&rt, rt.alloc(), &wants, &items, expected)
}

/// Values of this type may go to another thread, and may be dropped there.
fn assert_goes<T: Send + Drop>(_value: &T) {}

#[test]
fn wants_and_faults_go_to_another_thread(rt: HostRuntime) -> Result<(), Fail> {
    assert_goes(&all_wants(rt.alloc())?);
    assert_goes(&WantsFault::Line { n: 1 });
    assert_goes(&PrintRefused::Memory);
    Ok(())
}

/// The record of a signal with bytes that are escaped.
fn escaped(alloc: Global) -> Result<Vec<Item>, AllocError> {
    let mut signals = Vec::new(alloc);
    let value = Exact { num: -205, k: 1 };
    signals.push(signal(alloc, b"S", -1, value, b"\"\\", b"a\x00\x1f \x7f\x80\xff\n")?)?;
    one(alloc, message(alloc, b"M", signals)?)
}

#[test]
fn quoted_texts_are_escaped(rt: HostRuntime) -> Result<(), Fail> {
    let wants = all_wants(rt.alloc())?;
    let items = escaped(rt.alloc())?;
    let expected =
        b"m A 0 0 1000000 M\ns S -1 -20.5 \"\\\"\\\\\" \"a\\x00\\x1F \\x7F\x80\xff\\x0A\"\n";
    assert_text(&rt, rt.alloc(), &wants, &items, expected)
}

/// A sink that takes 5 bytes a write, of which these fail.
fn sink_of(alloc: Global, failing: &[u64]) -> Result<MemSink, AllocError> {
    let failing = Vec::from_slice(alloc, failing)?;
    Ok(MemSink::new(vec![in alloc; 0; 64]?, 5, failing))
}

/// The same end printed twice, of which the first fails.
fn assert_prints(rt: &impl Abort, alloc: Global, wants: &Wants, sink: &mut MemSink) {
    let end = Item::End { bus: 0, number: 4 };
    let failed = print(alloc, wants, &end, sink);
    assert_eq!(rt; failed, Err(PrintRefused::WriteFault));
    assert_eq!(rt; print(alloc, wants, &end, sink), Ok(()));
}

#[test]
fn printing_tells_a_fault_of_the_sink(rt: HostRuntime) -> Result<(), Fail> {
    let wants = wants_of(rt.alloc(), b"")?;
    let mut sink = sink_of(rt.alloc(), &[4])?;
    assert_eq!(rt; header(&wants, &mut sink), Ok(()));
    assert_prints(&rt, rt.alloc(), &wants, &mut sink);
    assert_eq!(rt; sink.bytes(), b"sigserve 2\nend Aend A 4\n".as_slice());
    Ok(())
}

#[test]
fn format_1_has_no_header(rt: HostRuntime) -> Result<(), Fail> {
    let wants = all_wants(rt.alloc())?;
    let mut sink = sink_of(rt.alloc(), &[])?;
    assert_eq!(rt; header(&wants, &mut sink), Ok(()));
    assert!(rt; sink.bytes().is_empty());
    Ok(())
}
