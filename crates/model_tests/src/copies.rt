//! Copies of records, texts of both lengths, and benches with other databases: each call once with ample memory.

ghost use Rattle.std.specs.Prelude.{◌≡◌, ◌<◌, length, All, IfOk};
ghost use Rattle.bench_model.specs.Check.{IsValid};

use super::building::{MessageRow, bench_of, valid_of};
use super::messages::{MULTIPLEXED, SPEED_AND_MORE};
use bench_model::{Ask, Bench, Body, Change, Key, Kind, Reading, Text};
use multiplex_tree::List;
use std::alloc::{AllocError, Global};
use std::process::Abort;
use std::test::Fail;

/// Texts of no byte, of as many as are in the value itself, and of one more.
const TEXTS: &[&[u8]] = &[
    b"",
    b"a unit of 25 bytes, or 2",
    b"a unit of 25 bytes, or 24",
];

fn copy_of(alloc: Global, bytes: &[u8]) -> Result<Text, AllocError> {
    Text::of(alloc, bytes)?.copy(alloc)
}

fn moved(alloc: Global, bytes: &[u8]) -> Result<Text, AllocError> {
    Ok(Text::from_vec(Vec::from_slice(alloc, bytes)?))
}

fn keep_their_bytes(rt: &impl Abort, alloc: Global, texts: &[&[u8]]) -> Result<(), AllocError> {
    for bytes in texts {
        assert_eq!(rt; copy_of(alloc, bytes)?.bytes(), *bytes);
        assert_eq!(rt; moved(alloc, bytes)?.bytes(), *bytes);
    }
    Ok(())
}

#[test]
fn texts_around_the_inline_length_keep_their_bytes(rt: HostRuntime) -> Result<(), AllocError> {
    keep_their_bytes(&rt, rt.alloc(), TEXTS)
}

fn lamps(alloc: Global) -> Result<Body, AllocError> {
    let bytes = Text::of(alloc, &[0x11; 10])?;
    let name = Text::of(alloc, b"Lamps")?;
    Ok(Body::Transport {
        pgn: 65_226,
        sa: 0,
        da: 255,
        bytes,
        name: Some(name),
        signals: List::of(Vec::new(alloc)),
    })
}

/// A record of a transport, copied.
fn copied_reading(alloc: Global) -> Result<Reading, AllocError> {
    let reading = Reading {
        bus: 1,
        number: 7,
        version: 2,
        micros: 1_100_000,
        body: lamps(alloc)?,
    };
    reading.copy(alloc)
}

/// The parameter group and the bytes of a transport.
fn transport_of(body: &Body) -> Option<(u32, &[u8])> {
    match body {
        Body::Transport { pgn, bytes, .. } => Some((*pgn, bytes.bytes())),
        _ => None,
    }
}

#[test]
fn a_transport_record_is_copied(rt: HostRuntime) -> Result<(), AllocError> {
    let copy = copied_reading(rt.alloc())?;
    assert_eq!(rt; copy.number, 7);
    assert_eq!(rt;
        transport_of(&copy.body),
        Some((65_226, [0x11; 10].as_slice()))
    );
    Ok(())
}

/// Whether a frame of the multiplexed message has a meaning on the first bus.
fn has_meaning(alloc: Global, bench: &Bench) -> Result<bool, AllocError>
    requires bus { 0 < length bench.now.buses }
    requires valid { All (λ b. IsValid b.database) bench.now.buses }
{
    let ask = Ask::Frame {
        key: Key {
            extended: false,
            id: 0x200,
        },
    };
    Ok(bench.plain(alloc, 0, ask, &[1])?.is_some())
}

/// The bench with a database of these messages on its one bus.
fn replaced(alloc: Global, bench: &Bench, rows: &[MessageRow]) -> Result<Bench, Fail>
    requires bus { length bench.now.buses ≡ 1 }
    requires valid { All (λ b. IsValid b.database) bench.now.buses }
    ensures bus { IfOk result (λ after. length after.buses ≡ 1) }
    ensures valid { IfOk result (λ after. All (λ b. IsValid b.database) after.buses) }
{
    let database = valid_of(alloc, rows)?;
    let changes = vec![in alloc; Change { bus: 0, database }]?;
    let after = bench.replace(alloc, changes)?;
    Ok(after)
}

#[test]
fn a_replaced_database_decodes_and_the_bench_before_stays(rt: HostRuntime) -> Result<(), Fail> {
    let alloc = rt.alloc();
    let before = bench_of(alloc, Kind::Can, &[SPEED_AND_MORE])?;
    let after = replaced(alloc, &before, &[MULTIPLEXED])?;
    assert!(rt; !has_meaning(alloc, &before)?);
    assert!(rt; has_meaning(alloc, &after)?);
    Ok(())
}
