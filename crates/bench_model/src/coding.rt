//! What a signal's coding makes of a raw value: its physical value, its unit and its label.

ghost use Rattle.std.specs.Prelude.{[], ◌≡◌, find, IfOk, All};
ghost use Rattle.std.specs.Option.{option_copied, option_map};
ghost use Rattle.exact_scale.specs.Limits.{IsRawValue};
ghost use Rattle.bench_model.specs.Meaning.{is_label_of, covers, entry_meaning, coding_meaning};
ghost use Rattle.bench_model.specs.Value.{whole};
ghost use Rattle.bench_model.specs.Limits.{IsEntry, IsCoding};
ghost use Rattle.bench_model.specs.CodingView.{physical_view};

use crate::{Coding, Entry, Label, Text};
use exact_scale::Exact;
use std::alloc::{AllocError, Global};

/// A value with its unit and its label.
#[derive(Drop)]
pub(crate) struct Physical {
    pub value: Exact,
    pub unit: Text,
    pub label: Option<Text>,
}

/// The first label of this raw value.
fn label_of(raw: i128, labels: &[Label]) -> Option<&Label>
    ensures { option_copied result ≡ find (is_label_of raw) labels.now }
{
    labels.iter().find(|label| label.raw == raw)
}

/// Whether an entry covers this raw value.
fn is_covered(raw: i128, entry: &Entry) -> bool
    ensures { result ≡ covers raw entry.now }
{
    match entry {
        Entry::Logical { raw: value, .. } => i128::from(*value) == raw,
        Entry::Physical { low, high, .. } => i128::from(*low) <= raw && raw <= i128::from(*high),
        Entry::Plain => true,
    }
}

/// The first entry that covers this raw value.
fn entry_of(raw: i128, entries: &[Entry]) -> Option<&Entry>
    ensures { option_copied result ≡ find (covers raw) entries.now }
{
    entries.iter().find(|entry| is_covered(raw, entry))
}

/// A raw value that stands for itself, without a unit.
fn itself(alloc: Global, raw: i128, label: Option<Text>) -> Result<Physical, AllocError>
    ensures { IfOk result (λ physical. physical_view physical ≡ record { value = whole raw; unit = []; label = label }) }
{
    Ok(Physical {
        value: Exact { num: raw, k: 0 },
        unit: Text::of(alloc, b"")?,
        label,
    })
}

/// The text of a label, where there is one.
fn text_of(alloc: Global, label: Option<&Label>) -> Result<Option<Text>, AllocError>
    ensures { IfOk result (λ text. text ≡ option_map (λ l. l.text) (option_copied label.entry)) }
{
    match label {
        Some(label) => Ok(Some(label.text.copy(alloc)?)),
        None => Ok(None),
    }
}

/// What an entry makes of a raw value.
fn entry_value(alloc: Global, entry: &Entry, raw: i128) -> Result<Physical, AllocError>
    requires entry { IsEntry entry.now }
    requires raw { IsRawValue raw }
    ensures { IfOk result (λ physical. physical_view physical ≡ entry_meaning raw (Some entry.now)) }
{
    match entry {
        Entry::Logical {
            text: Some(text),
            ..
        } => itself(alloc, raw, Some(text.copy(alloc)?)),
        Entry::Physical { scale, unit, .. } => Ok(Physical {
            value: scale.apply(raw),
            unit: unit.copy(alloc)?,
            label: None,
        }),
        Entry::Logical { text: None, .. } | Entry::Plain => itself(alloc, raw, None),
    }
}

/// What the first entry that covers a raw value makes of it.
fn listed_value(alloc: Global, entries: &[Entry], raw: i128) -> Result<Physical, AllocError>
    requires entries { All IsEntry entries.now }
    requires raw { IsRawValue raw }
    ensures { IfOk result (λ physical. physical_view physical ≡ entry_meaning raw (find (covers raw) entries.now)) }
{
    match entry_of(raw, entries) {
        Some(entry) => entry_value(alloc, entry, raw),
        None => itself(alloc, raw, None),
    }
}

/// What a coding makes of a raw value.
pub(crate) fn coded_value(alloc: Global, coding: &Coding, raw: i128) -> Result<Physical, AllocError>
    requires coding { IsCoding coding.now }
    requires raw { IsRawValue raw }
    ensures { IfOk result (λ physical. physical_view physical ≡ coding_meaning coding.now raw) }
{
    match coding {
        Coding::Scaled {
            scale,
            unit,
            labels,
        } => Ok(Physical {
            value: scale.apply(raw),
            unit: unit.copy(alloc)?,
            label: text_of(alloc, label_of(raw, labels.items()))?,
        }),
        Coding::Listed { entries } => listed_value(alloc, entries.items(), raw),
    }
}
