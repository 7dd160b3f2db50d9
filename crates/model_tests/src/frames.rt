//! The plain decoder over a bench and the decoder over its image give one meaning of a frame.

ghost use Rattle.bench_model.specs.ValidBench.{IsValidBench};

use super::building::{MessageRow, bench_of};
use bench_model::{Ask, Bench, Kind, Plain, SignalValue};
use image_compiler::compile;
use image_words::{decode, whole_list_fits};
use std::alloc::{AllocError, Global};
use std::process::Abort;
use std::test::Fail;

mod cases;
mod edges;
mod kinds;

use cases::CASES;
use edges::EDGES;
use kinds::KINDS;

/// A bus of this kind with these messages, what is asked, the frame's bytes, and the meaning in words.
pub struct Case {
    pub kind: Kind,
    pub messages: &'static [MessageRow],
    pub ask: Ask,
    pub bytes: &'static [u8],
    pub meaning: &'static str,
}

/// More words than the image of any of the benches has.
const ROOM: usize = 1000;

/// A signal's value in words: its name, raw value, value, unit, and ` = ` and its label.
fn write_value(alloc: Global, value: &SignalValue, out: &mut Vec<u8>) -> Result<(), AllocError> {
    out.extend_from_slice(b"; ")?;
    out.extend_from_slice(value.name.bytes())?;
    out.push(b' ')?;
    out.extend_from_slice(value.raw.to_string(alloc)?.as_bytes())?;
    out.push(b' ')?;
    value.value.append(out)?;
    out.push(b' ')?;
    out.extend_from_slice(value.unit.bytes())?;
    if let Some(label) = &value.label {
        out.extend_from_slice(b" = ")?;
        out.extend_from_slice(label.bytes())?;
    }
    Ok(())
}

/// A meaning in words: the message's name and its signals, or `no match`.
fn words_of(alloc: Global, meaning: &Option<Plain>) -> Result<Vec<u8>, AllocError> {
    let mut out = Vec::new(alloc);
    match meaning {
        Some(plain) => {
            out.extend_from_slice(plain.name.bytes())?;
            for value in plain.signals.items() {
                write_value(alloc, value, &mut out)?;
            }
        }
        None => out.extend_from_slice(b"no match")?,
    }
    Ok(out)
}

/// What the image of a bench says of a frame on its first bus.
fn decoded(alloc: Global, bench: &Bench, ask: Ask, bytes: &[u8]) -> Result<Option<Plain>, Fail>
    requires { IsValidBench bench.now }
{
    whole_list_fits();
    let mut image = compile(alloc, bench, ROOM)?;
    let plain = decode(alloc, &mut image, 0, ask, bytes)?;
    Ok(plain)
}

/// Both decoders give a case its meaning.
fn has_meaning(rt: &impl Abort, alloc: Global, case: &Case) -> Result<(), Fail> {
    let bench = bench_of(alloc, case.kind, case.messages)?;
    let plain = bench.plain(alloc, 0, case.ask, case.bytes)?;
    let words = words_of(alloc, &plain)?;
    assert_eq!(rt; words.as_slice(), case.meaning.as_bytes());
    let plain = decoded(alloc, &bench, case.ask, case.bytes)?;
    let words = words_of(alloc, &plain)?;
    assert_eq!(rt; words.as_slice(), case.meaning.as_bytes());
    Ok(())
}

fn have_meanings(rt: &impl Abort, alloc: Global, cases: &[Case]) -> Result<(), Fail> {
    for case in cases {
        has_meaning(rt, alloc, case)?;
    }
    Ok(())
}

#[test]
fn both_decoders_give_worked_frames_their_meanings(rt: HostRuntime) -> Result<(), Fail> {
    have_meanings(&rt, rt.alloc(), CASES)
}

#[test]
fn both_decoders_give_frames_at_the_edges_their_meanings(rt: HostRuntime) -> Result<(), Fail> {
    have_meanings(&rt, rt.alloc(), EDGES)
}

#[test]
fn both_decoders_agree_on_every_kind_of_coding_and_bus(rt: HostRuntime) -> Result<(), Fail> {
    have_meanings(&rt, rt.alloc(), KINDS)
}
