//! Valid benches out of rows.

ghost use Rattle.std.specs.Prelude.{◌≡◌, ◌<◌, length, IfOk, All};
ghost use Rattle.exact_scale.specs.Limits.{IsScale};
ghost use Rattle.bench_model.specs.Limits.{IsLabel, IsEntry, IsCoding, IsMade};
ghost use Rattle.bench_model.specs.Check.{IsValid};
ghost use Rattle.bench_model.specs.ValidBench.{IsValidBench};

use bench_model::{
    Bench, Bus, Coding, Database, Entry, Key, Kind, Label, Message, Order, Scale, Signal, Text,
    Valid, check,
};
use exact_scale::Decimal;
use multiplex_tree::{Link, List, Mark, Range, resolve};
use std::alloc::{AllocError, Global};
use std::test::Fail;

/// A factor, an offset and a unit.
#[derive(Clone, Copy)]
pub struct ScaleRow {
    pub factor: &'static str,
    pub offset: &'static str,
    pub unit: &'static str,
}

/// An entry of a LIN encoding.
#[derive(Clone, Copy)]
pub enum EntryRow {
    Logical(u64, Option<&'static str>),
    Physical(u64, u64, ScaleRow),
    Plain,
}

/// How a raw value is read.
#[derive(Clone, Copy)]
pub enum CodingRow {
    Scaled(ScaleRow, &'static [(i64, &'static str)]),
    Listed(&'static [EntryRow]),
}

/// A signal with its multiplexer indicator.
#[derive(Clone, Copy)]
pub struct SignalRow {
    pub name: &'static str,
    pub start: u32,
    pub size: u32,
    pub order: Order,
    pub signed: bool,
    pub coding: CodingRow,
    pub mark: Mark,
}

/// A child, its parent and its one range.
pub type LinkRow = (usize, usize, Range);

/// A message.
#[derive(Clone, Copy)]
pub struct MessageRow {
    pub name: &'static str,
    pub key: Key,
    pub signals: &'static [SignalRow],
    pub links: &'static [LinkRow],
}

fn scale_of(row: &ScaleRow) -> Result<Scale, Fail>
    ensures { IfOk result IsScale }
{
    let factor = Decimal::read(row.factor.as_bytes())?;
    let offset = Decimal::read(row.offset.as_bytes())?;
    Ok(Scale::new(factor, offset)?)
}

pub fn label_of(raw: i64, text: Text) -> Label
    ensures { IsLabel result }
{
    Label {
        raw: i128::from(raw),
        text,
    }
}

fn labels_of(alloc: Global, rows: &[(i64, &'static str)]) -> Result<Vec<Label>, AllocError>
    ensures { IfOk result (λ labels. All IsLabel labels.items) }
{
    let mut labels = Vec::new(alloc);
    for (raw, text) in rows {
        labels.push(label_of(*raw, Text::of(alloc, text.as_bytes())?))?;
    }
    Ok(labels)
}

fn entry_of(alloc: Global, row: &EntryRow) -> Result<Entry, Fail>
    ensures { IfOk result IsEntry }
{
    match row {
        EntryRow::Logical(raw, Some(text)) => Ok(Entry::Logical {
            raw: *raw,
            text: Some(Text::of(alloc, text.as_bytes())?),
        }),
        EntryRow::Logical(raw, None) => Ok(Entry::Logical {
            raw: *raw,
            text: None,
        }),
        EntryRow::Physical(low, high, scale) => Ok(Entry::Physical {
            low: *low,
            high: *high,
            scale: scale_of(scale)?,
            unit: Text::of(alloc, scale.unit.as_bytes())?,
        }),
        EntryRow::Plain => Ok(Entry::Plain),
    }
}

fn entries_of(alloc: Global, rows: &[EntryRow]) -> Result<Vec<Entry>, Fail>
    ensures { IfOk result (λ entries. All IsEntry entries.items) }
{
    let mut entries = Vec::new(alloc);
    for row in rows {
        entries.push(entry_of(alloc, row)?)?;
    }
    Ok(entries)
}

fn coding_of(alloc: Global, row: &CodingRow) -> Result<Coding, Fail>
    ensures { IfOk result IsCoding }
{
    match row {
        CodingRow::Scaled(scale, labels) => Ok(Coding::Scaled {
            scale: scale_of(scale)?,
            unit: Text::of(alloc, scale.unit.as_bytes())?,
            labels: List::of(labels_of(alloc, labels)?),
        }),
        CodingRow::Listed(entries) => Ok(Coding::Listed {
            entries: List::of(entries_of(alloc, entries)?),
        }),
    }
}

fn signals_of(alloc: Global, rows: &[SignalRow]) -> Result<Vec<Signal>, Fail>
    ensures number { IfOk result (λ signals. length signals.items ≡ length rows.now) }
    ensures codings { IfOk result (λ signals. All (λ s. IsCoding s.coding) signals.items) }
{
    let mut signals = Vec::new(alloc);
    for row in rows {
        signals.push(Signal {
            name: Text::of(alloc, row.name.as_bytes())?,
            start: row.start,
            size: row.size,
            order: row.order,
            signed: row.signed,
            float: false,
            coding: coding_of(alloc, &row.coding)?,
        })?;
    }
    Ok(signals)
}

fn marks_of(alloc: Global, rows: &[SignalRow]) -> Result<Vec<Mark>, AllocError>
    ensures { IfOk result (λ marks. length marks.items ≡ length rows.now) }
{
    let mut marks = Vec::new(alloc);
    for row in rows {
        marks.push(row.mark)?;
    }
    Ok(marks)
}

/// The links whose children are among `count` signals.
fn links_of(alloc: Global, count: usize, rows: &[LinkRow]) -> Result<Vec<Link>, AllocError>
    ensures { IfOk result (λ links. All (λ l. l.child < count) links.items) }
{
    let mut links = Vec::new(alloc);
    for (child, parent, range) in rows {
        if *child >= count {
            continue;
        }
        links.push(Link {
            child: *child,
            parent: Some(*parent),
            ranges: List::of(vec![in alloc; *range]?),
        })?;
    }
    Ok(links)
}

fn message_of(alloc: Global, row: &MessageRow) -> Result<Message, Fail>
    ensures { IfOk result IsMade }
{
    let signals = signals_of(alloc, row.signals)?;
    let marks = marks_of(alloc, row.signals)?;
    let links = links_of(alloc, marks.len(), row.links)?;
    let tree = resolve(alloc, &marks, &links)?;
    Ok(Message {
        name: Text::of(alloc, row.name.as_bytes())?,
        key: row.key,
        length: 8,
        signals: List::of(signals),
        tree,
    })
}

pub fn messages_of(alloc: Global, rows: &[MessageRow]) -> Result<Vec<Message>, Fail>
    ensures { IfOk result (λ messages. All IsMade messages.items) }
{
    let mut messages = Vec::new(alloc);
    for row in rows {
        messages.push(message_of(alloc, row)?)?;
    }
    Ok(messages)
}

/// A database of these messages that passed `check`.
pub fn valid_of(alloc: Global, rows: &[MessageRow]) -> Result<Valid, Fail> {
    let messages = List::of(messages_of(alloc, rows)?);
    Ok(check(alloc, Database { messages })?)
}

/// A bench of one bus, `A`, whose database has these messages.
pub fn bench_of(alloc: Global, kind: Kind, rows: &[MessageRow]) -> Result<Bench, Fail>
    ensures bus { IfOk result (λ bench. length bench.buses ≡ 1) }
    ensures databases { IfOk result (λ bench. All (λ b. IsValid b.database) bench.buses) }
    ensures valid { IfOk result IsValidBench }
{
    let valid = valid_of(alloc, rows)?;
    let name = Text::of(alloc, b"A")?;
    let bus = Bus {
        name,
        kind,
        database: valid.into_database(),
    };
    let mut buses = Vec::new(alloc);
    buses.push(bus)?;
    Ok(Bench {
        buses: List::of(buses),
    })
}
