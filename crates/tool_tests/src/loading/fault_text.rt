//! The words of each kind of fault.

use super::*;
use bench_loader::DatabaseFault;
use bench_model::{CheckFault, CheckWhy, Key, Text};
use dbc_grammar::DbcFault;
use ldf_grammar::LdfFault;
use multiplex_tree::MuxWhy;
use sig_text::LexFault;
use std::process::Abort;
use std::test::*;

/// The fault has this text. It is taken by value, so that a caller of many keeps none.
fn has_text(rt: &impl Abort, alloc: Global, fault: DatabaseFault, text: &[u8]) -> Result<(), Fail> {
    let mut out = Vec::new(alloc);
    fault.text(&mut out)?;
    assert_eq!(rt; out.as_slice(), text);
    Ok(())
}

fn dbc(fault: DbcFault) -> DatabaseFault {
    DatabaseFault::Dbc { fault }
}

fn ldf(fault: LdfFault) -> DatabaseFault {
    DatabaseFault::Ldf { fault }
}

#[test]
fn places_are_counted_in_bytes(rt: HostRuntime) -> Result<(), Fail> {
    let alloc = rt.alloc();
    has_text(&rt, alloc, DatabaseFault::Long, b"long")?;
    has_text(
        &rt,
        alloc,
        dbc(DbcFault::Statement { at: 11 }),
        b"statement 11",
    )?;
    has_text(&rt, alloc, dbc(DbcFault::Scale { at: 36 }), b"scale 36")?;
    has_text(
        &rt,
        alloc,
        ldf(LdfFault::Statement { at: 0 }),
        b"statement 0",
    )?;
    has_text(
        &rt,
        alloc,
        ldf(LdfFault::Scale { at: 16777215 }),
        b"scale 16777215",
    )?;
    has_text(
        &rt,
        alloc,
        ldf(LdfFault::UnknownName { at: 44 }),
        b"name 44",
    )
}

#[test]
fn lexical_faults_are_named_of_both_grammars(rt: HostRuntime) -> Result<(), Fail> {
    let alloc = rt.alloc();
    let fault = LexFault::OpenString { at: 7 };
    has_text(&rt, alloc, dbc(DbcFault::Lex { fault }), b"string 7")?;
    let fault = LexFault::OpenComment { at: 8 };
    has_text(&rt, alloc, ldf(LdfFault::Lex { fault }), b"comment 8")?;
    let fault = LexFault::Byte { at: 9 };
    has_text(&rt, alloc, ldf(LdfFault::Lex { fault }), b"byte 9")
}

/// A broken rule of no message.
fn alone(why: CheckWhy) -> CheckFault {
    CheckFault::At {
        why,
        message: None,
        signal: None,
    }
}

/// A broken rule of a message.
fn of_message(why: CheckWhy) -> CheckFault {
    CheckFault::At {
        why,
        message: Some(Key {
            extended: false,
            id: 256,
        }),
        signal: None,
    }
}

/// A broken rule of a signal of an extended message.
fn of_signal(alloc: Global, why: CheckWhy) -> Result<CheckFault, AllocError> {
    let signal = Text::of(alloc, b"Speed")?;
    Ok(CheckFault::At {
        why,
        message: Some(Key {
            extended: true,
            id: 3,
        }),
        signal: Some(signal),
    })
}

/// A broken rule is named alone, with a message, and with an extended message and a signal.
fn is_named(
    rt: &impl Abort,
    alloc: Global,
    why: CheckWhy,
    rule: &[u8],
    with_message: &[u8],
    with_signal: &[u8],
) -> Result<(), Fail> {
    let fault = alone(why);
    has_text(rt, alloc, ldf(LdfFault::Check { fault }), rule)?;
    let fault = of_message(why);
    has_text(rt, alloc, dbc(DbcFault::Check { fault }), with_message)?;
    let fault = of_signal(alloc, why)?;
    has_text(rt, alloc, dbc(DbcFault::Check { fault }), with_signal)
}

#[test]
fn broken_rules_are_named_with_message_and_signal(rt: HostRuntime) -> Result<(), Fail> {
    let alloc = rt.alloc();
    let (a, b): (&[u8], &[u8]) = (b"size 256", b"size 2147483651 Speed");
    is_named(&rt, alloc, CheckWhy::Size, b"size", a, b)?;
    let (a, b): (&[u8], &[u8]) = (b"message 256", b"message 2147483651 Speed");
    is_named(&rt, alloc, CheckWhy::DuplicateMessage, b"message", a, b)?;
    let (a, b): (&[u8], &[u8]) = (b"signal 256", b"signal 2147483651 Speed");
    is_named(&rt, alloc, CheckWhy::DuplicateSignal, b"signal", a, b)?;
    let (a, b): (&[u8], &[u8]) = (b"float 256", b"float 2147483651 Speed");
    is_named(&rt, alloc, CheckWhy::Float, b"float", a, b)?;
    let (a, b): (&[u8], &[u8]) = (b"limit 256", b"limit 2147483651 Speed");
    is_named(&rt, alloc, CheckWhy::Limit, b"limit", a, b)
}

/// A multiplexed signal without a place in the tree is named with the reason.
fn is_mux(rt: &impl Abort, alloc: Global, why: MuxWhy, text: &[u8]) -> Result<(), Fail> {
    let fault = DbcFault::Mux {
        id: 512,
        signal: Text::of(alloc, b"Mid")?,
        why,
    };
    has_text(rt, alloc, dbc(fault), text)
}

#[test]
fn multiplexed_signals_are_named_with_the_reason(rt: HostRuntime) -> Result<(), Fail> {
    let alloc = rt.alloc();
    is_mux(&rt, alloc, MuxWhy::NoParent, b"mux 512 Mid noparent")?;
    is_mux(&rt, alloc, MuxWhy::Ambiguous, b"mux 512 Mid ambiguous")?;
    is_mux(&rt, alloc, MuxWhy::Cycle, b"mux 512 Mid cycle")?;
    is_mux(&rt, alloc, MuxWhy::Deep, b"mux 512 Mid deep")
}
