//! The databases of the worked logs, made from rows.
ghost use Rattle.std.specs.Prelude.{◌≡◌, ◌≤◌, All, IfOk, length};
ghost use Rattle.exact_scale.specs.Limits.{IsScale};
ghost use Rattle.multiplex_tree.specs.Trees.{IsTreeOver};
ghost use Rattle.bench_model.specs.Check.{IsValid};
ghost use Rattle.bench_model.specs.Limits.{IsMade, IsEntry, IsCoding};
ghost use Rattle.bench_model.specs.ValidBench.{IsValidBus};

use bench_model::*;
use exact_scale::{Decimal, Scale};
use multiplex_tree::{List, Mark, Tree, resolve};
use std::alloc::{AllocError, Global};
use std::test::Fail;

/// How a signal is read: scaled, or as a LIN encoding with a text for one raw value before a range.
#[derive(Clone, Copy)]
pub(crate) enum CodingRow {
    Scaled {
        factor: &'static str,
        unit: &'static str,
    },
    Listed {
        text_at: (u64, &'static str),
        factor: &'static str,
        offset: &'static str,
        unit: &'static str,
    },
}

/// A message of one signal, in Intel order and unsigned.
#[derive(Clone, Copy)]
pub(crate) struct MessageRow {
    pub name: &'static str,
    pub key: Key,
    pub length: u32,
    pub signal: &'static str,
    pub start: u32,
    pub size: u32,
    pub coding: CodingRow,
}

pub(crate) const SPEED: MessageRow = MessageRow {
    name: "Engine",
    key: Key {
        extended: false,
        id: 256,
    },
    length: 8,
    signal: "Speed",
    start: 0,
    size: 16,
    coding: CodingRow::Scaled {
        factor: "2",
        unit: "rpm",
    },
};

/// Another message of the same identifier.
pub(crate) const LEVEL: MessageRow = MessageRow {
    name: "Tank",
    signal: "Level",
    coding: CodingRow::Scaled {
        factor: "0.25",
        unit: "l",
    },
    ..SPEED
};

/// A LIN frame whose signal has an encoding.
pub(crate) const STATUS: MessageRow = MessageRow {
    name: "Status",
    key: Key {
        extended: false,
        id: 16,
    },
    length: 8,
    signal: "Temp",
    start: 0,
    size: 8,
    coding: CodingRow::Listed {
        text_at: (255, "invalid"),
        factor: "0.5",
        offset: "-40",
        unit: "degC",
    },
};

/// A message of the parameter group 61444, sent by the address 254.
pub(crate) const ENGINE_SPEED: MessageRow = MessageRow {
    name: "EEC1",
    key: Key {
        extended: true,
        id: 0x0CF0_04FE,
    },
    length: 8,
    signal: "EngSpeed",
    start: 24,
    size: 16,
    coding: CodingRow::Scaled {
        factor: "0.125",
        unit: "rpm",
    },
};

/// A message of the parameter group 65226, with a signal in its tenth byte.
pub(crate) const LAMPS: MessageRow = MessageRow {
    name: "Lamps",
    key: Key {
        extended: true,
        id: 0x18FE_CA00,
    },
    length: 10,
    signal: "Last",
    start: 72,
    size: 8,
    coding: CodingRow::Scaled {
        factor: "1",
        unit: "",
    },
};

fn scale_of(factor: &str, offset: &str) -> Result<Scale, Fail>
    ensures { IfOk result IsScale }
{
    let factor = Decimal::read(factor.as_bytes())?;
    let offset = Decimal::read(offset.as_bytes())?;
    Ok(Scale::new(factor, offset)?)
}

fn text_of(alloc: Global, text: &str) -> Result<Text, AllocError> {
    Text::of(alloc, text.as_bytes())
}

fn scaled_of(alloc: Global, factor: &str, unit: &str) -> Result<Coding, Fail>
    ensures { IfOk result IsCoding }
{
    let scale = scale_of(factor, "0")?;
    let unit = text_of(alloc, unit)?;
    let labels = List::of(Vec::new(alloc));
    Ok(Coding::Scaled {
        scale,
        unit,
        labels,
    })
}

fn logical_of(alloc: Global, raw: u64, text: &str) -> Result<Entry, Fail>
    ensures { IfOk result IsEntry }
{
    let text = Some(text_of(alloc, text)?);
    Ok(Entry::Logical { raw, text })
}

fn range_of(alloc: Global, scale: Scale, unit: &str) -> Result<Entry, Fail>
    requires { IsScale scale }
    ensures { IfOk result IsEntry }
{
    let unit = text_of(alloc, unit)?;
    Ok(Entry::Physical {
        low: 0,
        high: 255,
        scale,
        unit,
    })
}

fn coding_of(alloc: Global, row: &CodingRow) -> Result<Coding, Fail>
    ensures { IfOk result IsCoding }
{
    match row {
        CodingRow::Scaled { factor, unit } => scaled_of(alloc, factor, unit),
        CodingRow::Listed {
            text_at: (raw, text),
            factor,
            offset,
            unit,
        } => {
            let scale = scale_of(factor, offset)?;
            let logical = logical_of(alloc, *raw, text)?;
            let range = range_of(alloc, scale, unit)?;
            let entries = List::of(vec![in alloc; logical, range]?);
            Ok(Coding::Listed { entries })
        }
    }
}

fn signal_of(alloc: Global, row: &MessageRow) -> Result<Signal, Fail>
    ensures { IfOk result (λ signal. IsCoding signal.coding) }
{
    let coding = coding_of(alloc, &row.coding)?;
    let name = text_of(alloc, row.signal)?;
    Ok(Signal {
        name,
        start: row.start,
        size: row.size,
        order: Order::Intel,
        signed: false,
        float: false,
        coding,
    })
}

/// The tree of one signal.
fn tree_of_one(alloc: Global) -> Result<Tree, Fail>
    ensures { IfOk result (λ tree. IsTreeOver 1 tree.parents) }
{
    let mark = Mark {
        multiplexor: false,
        group: None,
    };
    Ok(resolve(alloc, &[mark], &[])?)
}

fn message_of(alloc: Global, row: &MessageRow) -> Result<Message, Fail>
    ensures { IfOk result IsMade }
{
    let tree = tree_of_one(alloc)?;
    let name = text_of(alloc, row.name)?;
    let signal = signal_of(alloc, row)?;
    Ok(Message {
        name,
        key: row.key,
        length: row.length,
        signals: List::of(vec![in alloc; signal]?),
        tree,
    })
}

/// A message alone.
fn one_message(alloc: Global, row: &MessageRow) -> Result<Vec<Message>, Fail>
    ensures { IfOk result (λ messages. All IsMade messages.items) }
{
    let message = message_of(alloc, row)?;
    Ok(vec![in alloc; message]?)
}

/// No message, or one.
fn messages_of(alloc: Global, row: Option<&MessageRow>) -> Result<Vec<Message>, Fail>
    ensures { IfOk result (λ messages. All IsMade messages.items) }
{
    match row {
        Some(row) => one_message(alloc, row),
        None => Ok(Vec::new(alloc)),
    }
}

fn database_of(alloc: Global, row: Option<&MessageRow>) -> Result<Database, Fail>
    ensures { IfOk result IsValid }
{
    let messages = messages_of(alloc, row)?;
    let valid = check(
        alloc,
        Database {
            messages: List::of(messages),
        },
    )?;
    Ok(valid.into_database())
}

/// A name of 1 to 32 bytes.
fn name_of(alloc: Global, name: &[u8]) -> Result<Text, Fail>
    ensures same { IfOk result (λ text. text ≡ name.now) }
    ensures some_bytes { IfOk result (λ text. 1 ≤ length text) }
    ensures bytes { IfOk result (λ text. length text ≤ 32) }
{
    if name.is_empty() || name.len() > 32 {
        return Err("a name of 1 to 32 bytes")?;
    }
    Ok(Text::of(alloc, name)?)
}

/// A bus whose database has this message, where there is one.
pub(crate) fn bus_of(
    alloc: Global,
    name: &[u8],
    kind: Kind,
    row: Option<&MessageRow>,
) -> Result<Bus, Fail>
    ensures name { IfOk result (λ bus. bus.name ≡ name.now) }
    ensures valid { IfOk result IsValidBus }
{
    let database = database_of(alloc, row)?;
    let name = name_of(alloc, name)?;
    Ok(Bus {
        name,
        kind,
        database,
    })
}
