//! The records of worked logs, and those of a line that is decoded in two halves.

ghost use Rattle.std.specs.Prelude.{◌≡◌, ◌<◌, ◌+◌, ◌^◌, length, All, IfOk, OnOk};
ghost use Rattle.bench_model.specs.Check.{IsValid};

mod cases;
mod text;

use crate::databases::{LAMPS, bus_of};
use bench_model::{Bench, Kind, Plain, Text};
use candump_log::{LogLine, line};
use cases::{ANNOUNCED, CASES, Case};
use decoded_list::{BusDecoder, Records};
use j1939_tp::TpOut;
use multiplex_tree::List;
use std::alloc::{AllocError, Global};
use std::process::Abort;
use std::test::Fail;
use text::{write_record, write_records};

/// A bench of one bus, whose database has a message in version 1, and none in version 0.
fn bench_of(alloc: Global, kind: Kind, version: u32) -> Result<Bench, Fail>
    ensures bus { IfOk result (λ bench. length bench.buses ≡ 1) }
    ensures valid { IfOk result (λ bench. All (λ b. IsValid b.database) bench.buses) }
{
    let message = if version == 0 { None } else { Some(&LAMPS) };
    let bus = bus_of(alloc, b"A", kind, message)?;
    let buses = List::of(vec![in alloc; bus]?);
    Ok(Bench { buses })
}

/// The records of the next line, under this version.
fn step_under(
    alloc: Global,
    decoder: &mut BusDecoder,
    kind: Kind,
    version: u32,
    line: &LogLine,
) -> Result<Records, Fail>
    requires bus { decoder.old.bus ≡ 0 }
    requires room { decoder.old.next + 2 < 2 ^ 64 }
    ensures { OnOk result (decoder.new.bus ≡ 0) }
{
    let bench = bench_of(alloc, kind, version)?;
    let records = decoder.step(&bench, version, line)?;
    Ok(records)
}

/// Appends the records of the next line, in words.
fn write_step(
    alloc: Global,
    decoder: &mut BusDecoder,
    kind: Kind,
    row: &(u32, &str),
    text: &mut String,
) -> Result<(), Fail>
    requires bus { decoder.old.bus ≡ 0 }
    ensures { OnOk result (decoder.new.bus ≡ 0) }
{
    if decoder.next_number() >= 1_000 {
        return Err("too many records")?;
    }
    let (version, words) = *row;
    let line = line(words.as_bytes());
    let records = step_under(alloc, decoder, kind, version, &line)?;
    write_records(alloc, &records, text)?;
    Ok(())
}

/// The records of a case's lines, in words.
fn records_of(alloc: Global, case: &Case) -> Result<String, Fail> {
    let mut decoder = BusDecoder::new(alloc, 0, case.kind);
    let mut text = String::new(alloc);
    for row in case.lines {
        write_step(alloc, &mut decoder, case.kind, row, &mut text)?;
    }
    Ok(text)
}

fn have_records(rt: &impl Abort, alloc: Global, cases: &[Case]) -> Result<(), Fail> {
    for case in cases {
        let text = records_of(alloc, case)?;
        assert_eq!(rt; text.as_str(), case.records);
    }
    Ok(())
}

#[test]
fn worked_logs_have_their_records(rt: HostRuntime) -> Result<(), Fail> {
    have_records(&rt, rt.alloc(), CASES)
}

/// What a database says to a frame: a message of no signals.
fn said(alloc: Global) -> Result<Plain, AllocError> {
    let name = Text::of(alloc, b"Said")?;
    Ok(Plain {
        name,
        signals: List::of(Vec::new(alloc)),
    })
}

/// The first half of a decoder's first step, which brings nothing and numbers nothing.
fn hear_first(
    rt: &impl Abort,
    decoder: &mut BusDecoder,
    line: &LogLine,
) -> Result<TpOut, AllocError>
    ensures { decoder.new.next ≡ decoder.old.next }
{
    let brought = decoder.hear(line)?;
    assert!(rt; matches!(brought, TpOut::Nothing));
    assert_eq!(rt; decoder.next_number(), 0);
    Ok(brought)
}

/// The records of a line in two halves, where this was said to it.
fn records_in_halves(rt: &impl Abort, alloc: Global, said: Plain) -> Result<Records, AllocError> {
    let line = line(ANNOUNCED.as_bytes());
    let mut decoder = BusDecoder::new(alloc, 3, Kind::J1939);
    let brought = hear_first(rt, &mut decoder, &line)?;
    decoder.records(7, &line, Some(said), brought, None)
}

/// These records are this one alone, of the bus 3.
fn assert_own(rt: &impl Abort, alloc: Global, records: &Records, own: &str) -> Result<(), Fail> {
    let mut text = String::new(alloc);
    write_record(alloc, &records.own, &mut text)?;
    assert_eq!(rt; text.as_str(), own);
    assert!(rt; records.transported.is_none());
    assert_eq!(rt; records.own.bus, 3);
    Ok(())
}

#[test]
fn a_step_in_two_halves_takes_what_was_said(rt: HostRuntime) -> Result<(), Fail> {
    let said = said(rt.alloc())?;
    let records = records_in_halves(&rt, rt.alloc(), said)?;
    assert_own(&rt, rt.alloc(), &records, "0v7 1000000 message Said; ")
}

/// Such a value may go to a worker and come back from one.
fn assert_crosses<T: Send + Drop>(_value: &T) {}

#[test]
fn a_decoder_crosses_to_workers(rt: HostRuntime) -> Result<(), Fail> {
    assert_crosses(&BusDecoder::new(rt.alloc(), 0, Kind::Can));
    Ok(())
}
