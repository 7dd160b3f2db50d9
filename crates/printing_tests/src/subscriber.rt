//! The wants of a subscriber, and the text of items under them.

use bench_model::{Body, Exact, Item, Reading, SignalValue, Text};
use multiplex_tree::List;
use std::alloc::{AllocError, Global};
use std::process::Abort;
use std::test::Fail;
use subscriber_text::{Wants, append};

mod before_go;
mod items;
mod parts;
mod wants;

/// The buses `A` and `Bus2`.
fn buses(alloc: Global) -> Result<Vec<Text>, AllocError> {
    let mut names = Vec::new(alloc);
    names.push(Text::of(alloc, b"A")?)?;
    names.push(Text::of(alloc, b"Bus2")?)?;
    Ok(names)
}

/// A record of bus 0 with a body.
fn record(number: u64, micros: u64, body: Body) -> Item {
    Item::Reading {
        reading: Reading {
            bus: 0,
            number,
            version: 0,
            micros,
            body,
        },
    }
}

/// A signal's value with a label.
fn signal(
    alloc: Global,
    name: &[u8],
    raw: i128,
    value: Exact,
    unit: &[u8],
    label: &[u8],
) -> Result<SignalValue, AllocError> {
    Ok(SignalValue {
        name: Text::of(alloc, name)?,
        raw,
        value,
        unit: Text::of(alloc, unit)?,
        label: Some(Text::of(alloc, label)?),
    })
}

/// The record of a message with these signals.
fn message(alloc: Global, name: &[u8], signals: Vec<SignalValue>) -> Result<Item, AllocError> {
    let body = Body::Message {
        name: Text::of(alloc, name)?,
        signals: List::of(signals),
    };
    Ok(record(0, 1_000_000, body))
}

/// What items append under these wants.
fn text_of(alloc: Global, wants: &Wants, items: &[Item]) -> Result<Vec<u8>, AllocError> {
    let mut text = Vec::new(alloc);
    for item in items {
        append(wants, item, &mut text)?;
    }
    Ok(text)
}

/// The wants of format 1.
fn all_wants(alloc: Global) -> Result<Wants, AllocError> {
    Wants::all(alloc, &buses(alloc)?)
}

/// The wants of these lines.
fn wants_of(alloc: Global, lines: &[u8]) -> Result<Wants, Fail> {
    Ok(Wants::read(alloc, &buses(alloc)?, lines)?)
}

/// These items have this text under these wants.
fn assert_text(
    rt: &impl Abort,
    alloc: Global,
    wants: &Wants,
    items: &[Item],
    expected: &[u8],
) -> Result<(), Fail> {
    let text = text_of(alloc, wants, items)?;
    assert_eq!(rt; text.as_slice(), expected);
    Ok(())
}

/// So many lines that want a bus.
fn lines(alloc: Global, count: u32) -> Result<Vec<u8>, AllocError> {
    let mut text = Vec::new(alloc);
    for _ in 0..count {
        text.extend_from_slice(b"WANT A\n")?;
    }
    Ok(text)
}

/// A vector of one item.
fn one(alloc: Global, item: Item) -> Result<Vec<Item>, AllocError> {
    let mut items = Vec::new(alloc);
    items.push(item)?;
    Ok(items)
}
