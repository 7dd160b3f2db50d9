//! The words of images, and how many they are.

ghost use Rattle.std.specs.Prelude.{◌≤◌};
ghost use Rattle.bench_model.specs.ValidBench.{IsValidBench};

use super::building::bench_of;
use super::messages::{ALL_PARTS, ENGINE_RPM, TWO_RANGES};
use bench_model::{Bench, Kind};
use image_compiler::{CompileRefused, compile};
use std::alloc::Global;
use std::process::Abort;
use std::test::*;

/// The image of a J1939 bus `A` with the message of every kind of part, word by word.
const ALL: &[u64] = &[
    // the header, and the row of bus A: J1939, one message, its indexes
    83,
    1,
    1,
    589_825,
    1,
    10,
    81,
    1,
    82,
    0x41,
    // the row of the message Engine, and its name
    0x1_18F0_0401,
    983_046,
    8,
    2,
    16,
    0x656E_6967_6E45,
    // the row of Speed: signed, little endian, no parent, -3 as its offset
    2_621_445,
    0x210_0000,
    0,
    77,
    0,
    0,
    42,
    1,
    2,
    0xFFFF_FFFF_FFFF_FFFD,
    1,
    2_686_979,
    // the row of Mode: big endian, below Speed, a list of four
    3_014_660,
    0x108_0017,
    1,
    77,
    2,
    1,
    47,
    4,
    0,
    0,
    0,
    0,
    // Speed, rpm, the label of -1, no
    0x64_6565_7053,
    0x6D_7072,
    0xFFFF_FFFF_FFFF_FFFF,
    1,
    2_949_122,
    0x6F6E,
    // Mode, and its entries
    0x6564_6F4D,
    0,
    5,
    5,
    0,
    0,
    0,
    4_915_202,
    0,
    6,
    6,
    0,
    0,
    0,
    0,
    1,
    0,
    9,
    1,
    0,
    0,
    4_980_737,
    2,
    0,
    0,
    0,
    0,
    0,
    0,
    // on, C, and the ranges 1-2 and 4-4
    0x6E6F,
    0x43,
    1,
    2,
    4,
    4,
    // the index by keys and the index by groups
    617_788_230_205_440,
    8_053_587_968,
];

/// The image of the bench has exactly so many words: with room for one word less it is refused, and that number is said.
fn image_of(rt: &impl Abort, alloc: Global, bench: &Bench, size: usize) -> Result<Vec<u64>, Fail>
    requires valid { IsValidBench bench.now }
    requires some { 1 ≤ size }
{
    match compile(alloc, bench, size - 1) {
        Err(CompileRefused::TooLarge { need }) => assert_eq!(rt; need, size as u64),
        _ => assert!(rt; false),
    }
    let image = compile(alloc, bench, size)?;
    assert_eq!(rt; image.len(), size);
    Ok(image)
}

#[test]
fn every_kind_of_part_has_its_words(rt: HostRuntime) -> Result<(), Fail> {
    let alloc = rt.alloc();
    let bench = bench_of(alloc, Kind::J1939, &[ALL_PARTS])?;
    let image = image_of(&rt, alloc, &bench, 83)?;
    assert_eq!(&rt; image.as_slice(), ALL);
    Ok(())
}

#[test]
fn a_bus_without_messages_has_its_row_and_its_name(rt: HostRuntime) -> Result<(), Fail> {
    let alloc = rt.alloc();
    let bench = bench_of(alloc, Kind::Can, &[])?;
    let image = image_of(&rt, alloc, &bench, 10)?;
    let words: [u64; 10] = [10, 1, 0, 589_825, 0, 10, 10, 0, 10, 0x41];
    assert_eq!(&rt; image.as_slice(), words.as_slice());
    Ok(())
}

#[test]
fn an_image_is_as_large_as_its_rows_its_indexes_and_its_texts(rt: HostRuntime) -> Result<(), Fail> {
    let alloc = rt.alloc();
    let bench = bench_of(alloc, Kind::Can, &[ENGINE_RPM])?;
    image_of(&rt, alloc, &bench, 31)?;
    // a second message with two signals and two ranges: 5 and 1 and 1, and twice 12 and 1 and 0, and 4
    let bench = bench_of(alloc, Kind::Can, &[ENGINE_RPM, TWO_RANGES])?;
    image_of(&rt, alloc, &bench, 31 + 7 + 26 + 4)?;
    Ok(())
}
