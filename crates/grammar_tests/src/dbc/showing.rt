//! What a file is, and what a frame means under it, as text.

ghost use Rattle.std.specs.Prelude.{◌≡◌, length, All, IfOk};
ghost use Rattle.bench_model.specs.Check.{IsValid};

use super::*;
use bench_model::{
    Ask, Bench, Bus, CheckFault, CheckWhy, Database, Key, Kind, Plain, SignalValue, Text, Valid,
};
use multiplex_tree::{List, MuxWhy};
use sig_text::LexFault;
use std::alloc::{AllocError, Global};

/// A key as faults print it: its identifier, with bit 31 set where it is extended.
fn printed_id(key: Key) -> u32 {
    if key.extended {
        key.id | 0x8000_0000
    } else {
        key.id
    }
}

fn lex_text(alloc: Global, fault: LexFault) -> Result<String, AllocError> {
    match fault {
        LexFault::OpenString { at } => format!(in alloc; "string {at}"),
        LexFault::OpenComment { at } => format!(in alloc; "comment {at}"),
        LexFault::Byte { at } => format!(in alloc; "byte {at}"),
        LexFault::Memory => String::from_str(alloc, "memory"),
    }
}

fn why_text(why: CheckWhy) -> &'static str {
    match why {
        CheckWhy::Size => "size",
        CheckWhy::DuplicateMessage => "message",
        CheckWhy::DuplicateSignal => "signal",
        CheckWhy::Float => "float",
        CheckWhy::Limit => "limit",
    }
}

fn mux_text(why: MuxWhy) -> &'static str {
    match why {
        MuxWhy::NoParent => "noparent",
        MuxWhy::Ambiguous => "ambiguous",
        MuxWhy::Cycle => "cycle",
        MuxWhy::Deep => "deep",
    }
}

/// Appends a blank and a name.
fn push_name(text: &mut String, name: &Text) -> Result<(), AllocError> {
    text.push_str(" ")?;
    for byte in name.bytes() {
        text.push(char::from(*byte))?;
    }
    Ok(())
}

fn check_text(alloc: Global, fault: CheckFault) -> Result<String, AllocError> {
    let CheckFault::At {
        why,
        message,
        signal,
    } = fault
    else {
        return String::from_str(alloc, "memory");
    };
    let mut text = String::from_str(alloc, why_text(why))?;
    if let Some(key) = message {
        let id = printed_id(key);
        text.push_str(&format!(in alloc; " {id}")?)?;
    }
    if let Some(name) = signal {
        push_name(&mut text, &name)?;
    }
    Ok(text)
}

fn fault_text(alloc: Global, fault: DbcFault) -> Result<String, AllocError> {
    match fault {
        DbcFault::Lex { fault } => lex_text(alloc, fault),
        DbcFault::Statement { at } => format!(in alloc; "statement {at}"),
        DbcFault::Scale { at } => format!(in alloc; "scale {at}"),
        DbcFault::Mux { id, signal, why } => {
            let mut text = format!(in alloc; "mux {id}")?;
            push_name(&mut text, &signal)?;
            text.push_str(" ")?;
            text.push_str(mux_text(why))?;
            Ok(text)
        }
        DbcFault::Check { fault } => check_text(alloc, fault),
        DbcFault::Memory => String::from_str(alloc, "memory"),
    }
}

/// How many messages and signals a database has.
fn counts_text(alloc: Global, valid: &Valid) -> Result<String, AllocError> {
    let messages = valid.database().messages.items();
    let count = messages.len();
    let mut signals = 0u64;
    for message in messages {
        signals = signals.saturating_add(message.signals.items().len() as u64);
    }
    format!(in alloc; "ok {count} {signals}")
}

/// What `check` prints of a file.
pub fn checked_text(alloc: Global, file: &[u8]) -> Result<String, AllocError> {
    match read_dbc(alloc, file) {
        Ok(valid) => counts_text(alloc, &valid),
        Err(fault) => fault_text(alloc, fault),
    }
}

/// Appends `NAME RAW VALUE "UNIT" "LABEL";`.
fn push_value(text: &mut Vec<u8>, alloc: Global, value: &SignalValue) -> Result<(), AllocError> {
    text.extend_from_slice(value.name.bytes())?;
    let raw = value.raw;
    text.extend_from_slice(format!(in alloc; " {raw} ")?.as_bytes())?;
    value.value.append(text)?;
    text.extend_from_slice(b" \"")?;
    text.extend_from_slice(value.unit.bytes())?;
    text.extend_from_slice(b"\"")?;
    if let Some(label) = &value.label {
        text.extend_from_slice(b" \"")?;
        text.extend_from_slice(label.bytes())?;
        text.extend_from_slice(b"\"")?;
    }
    text.extend_from_slice(b";")
}

/// The signals that a frame gives.
fn plain_text(alloc: Global, plain: Option<Plain>) -> Result<Vec<u8>, AllocError> {
    let mut text = Vec::new(alloc);
    let Some(plain) = plain else {
        return Ok(text);
    };
    for value in plain.signals.items() {
        push_value(&mut text, alloc, value)?;
    }
    Ok(text)
}

/// A bench of one bus with this database.
fn bench_of(alloc: Global, database: Database) -> Result<Bench, AllocError>
    requires { IsValid database }
    ensures one { IfOk result (λ bench. length bench.buses ≡ 1) }
    ensures valid { IfOk result (λ bench. All (λ b. IsValid b.database) bench.buses) }
{
    let bus = Bus {
        name: Text::of(alloc, b"A")?,
        kind: Kind::Can,
        database,
    };
    let mut buses = Vec::new(alloc);
    buses.push(bus)?;
    Ok(Bench {
        buses: List::of(buses),
    })
}

/// What a frame means under a file, signal after signal; nothing where the file is refused.
pub fn frame_text(
    alloc: Global,
    file: &[u8],
    id: u32,
    bytes: &[u8],
) -> Result<Vec<u8>, AllocError> {
    let Ok(valid) = read_dbc(alloc, file) else {
        return Ok(Vec::new(alloc));
    };
    let bench = bench_of(alloc, valid.into_database())?;
    let key = Key {
        extended: false,
        id,
    };
    let plain = bench.plain(alloc, 0, Ask::Frame { key }, bytes)?;
    plain_text(alloc, plain)
}
