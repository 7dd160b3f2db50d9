//! Records in words.

use bench_model::{Body, CutCause, Reading, SignalValue, Text};
use decoded_list::Records;
use std::alloc::{AllocError, Global};

/// Appends bytes in hexadecimal digits.
fn push_hexadecimal(alloc: Global, text: &mut String, bytes: &[u8]) -> Result<(), AllocError> {
    for byte in bytes {
        text.push_str(format!(in alloc; "{:02X}", byte)?.as_str())?;
    }
    Ok(())
}

fn push_number(alloc: Global, text: &mut String, number: i128) -> Result<(), AllocError> {
    text.push_str(format!(in alloc; "{number}")?.as_str())
}

/// Appends a space and a name of ASCII letters.
fn push_name(text: &mut String, name: &Text) -> Result<(), AllocError> {
    text.push_str(" ")?;
    for byte in name.bytes() {
        text.push(char::from(*byte))?;
    }
    Ok(())
}

/// Appends the name of a message and its signals, each with its raw value.
fn push_signals(
    alloc: Global,
    text: &mut String,
    name: &Text,
    signals: &[SignalValue],
) -> Result<(), AllocError> {
    push_name(text, name)?;
    for signal in signals {
        push_name(text, &signal.name)?;
        text.push_str(" ")?;
        push_number(alloc, text, signal.raw)?;
    }
    Ok(())
}

/// Appends a word and the numbers of a session.
fn push_session(
    alloc: Global,
    text: &mut String,
    word: &str,
    numbers: [u32; 3],
) -> Result<(), AllocError> {
    text.push_str(word)?;
    for number in numbers {
        text.push_str(" ")?;
        push_number(alloc, text, i128::from(number))?;
    }
    Ok(())
}

fn push_cause(alloc: Global, text: &mut String, cause: CutCause) -> Result<(), AllocError> {
    text.push_str(format!(in alloc; " {:?}", cause)?.as_str())
}

/// Appends what a message of several packets says.
fn push_transported(
    alloc: Global,
    text: &mut String,
    bytes: &[u8],
    name: Option<&Text>,
    signals: &[SignalValue],
) -> Result<(), AllocError> {
    text.push_str(" ")?;
    push_hexadecimal(alloc, text, bytes)?;
    match name {
        Some(name) => push_signals(alloc, text, name, signals),
        None => Ok(()),
    }
}

/// Appends what a record says, in words.
fn push_body(alloc: Global, text: &mut String, body: &Body) -> Result<(), AllocError> {
    match body {
        Body::Message { name, signals } => {
            text.push_str("message")?;
            push_signals(alloc, text, name, signals.items())
        }
        Body::Unmatched { bytes, .. } => {
            text.push_str("unmatched ")?;
            push_hexadecimal(alloc, text, bytes.bytes())
        }
        Body::Remote { .. } => text.push_str("remote"),
        Body::Error { id } => {
            text.push_str("error ")?;
            push_number(alloc, text, i128::from(*id))
        }
        Body::Bad => text.push_str("bad"),
        Body::Transport {
            pgn,
            sa,
            da,
            bytes,
            name,
            signals,
        } => {
            push_session(
                alloc,
                text,
                "transport",
                [*pgn, u32::from(*sa), u32::from(*da)],
            )?;
            push_transported(alloc, text, bytes.bytes(), name.as_ref(), signals.items())
        }
        Body::Cut { pgn, sa, da, cause } => {
            push_session(alloc, text, "cut", [*pgn, u32::from(*sa), u32::from(*da)])?;
            push_cause(alloc, text, *cause)
        }
    }
}

pub(super) fn write_record(
    alloc: Global,
    record: &Reading,
    text: &mut String,
) -> Result<(), AllocError> {
    push_number(alloc, text, i128::from(record.number))?;
    text.push_str("v")?;
    push_number(alloc, text, i128::from(record.version))?;
    text.push_str(" ")?;
    push_number(alloc, text, i128::from(record.micros))?;
    text.push_str(" ")?;
    push_body(alloc, text, &record.body)?;
    text.push_str("; ")
}

pub(super) fn write_records(
    alloc: Global,
    records: &Records,
    text: &mut String,
) -> Result<(), AllocError> {
    write_record(alloc, &records.own, text)?;
    match &records.transported {
        Some(record) => write_record(alloc, record, text),
        None => Ok(()),
    }
}
