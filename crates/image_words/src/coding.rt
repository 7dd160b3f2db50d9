//! What a coding makes of a raw value: the value, with references to its unit and its label.

ghost use Rattle.std.specs.Prelude.{◌≡◌, ℕ, List, Some, find};
ghost use Rattle.exact_scale.specs.Limits.{IsScale, IsRawValue};
ghost use Rattle.bench_model.specs.declared.database.Entry.{Entry};
ghost use Rattle.bench_model.specs.Limits.{IsEntry};
ghost use Rattle.bench_model.specs.Meaning.{covers, entry_meaning, coding_meaning};
ghost use Rattle.image_words.specs.Knowledge.{SomeFits};
ghost use Rattle.image_words.specs.Reading.{Learned, EachHas, EachIs, EntriesAt, scale_of, IsEntryOf, CodingOf, IsCoded};

use crate::Words;
use crate::choices::{EntryRow, entry_at, label_of, scale_of};
use crate::layout::{LISTED, LOGICAL, PHYSICAL, PLAIN};
use crate::rows::CodingRow;
use exact_scale::Exact;

/// A value with references to its unit and its label, 0 where it has none.
#[derive(Clone, Copy)]
pub(crate) struct Coded {
    pub value: Exact,
    pub unit: u64,
    pub label: u64,
}

/// A raw value that stands for itself, without a unit.
fn itself(raw: i128, label: u64) -> Coded
    ensures { result ≡ record { value = record { num = raw; k = 0 }; unit = 0; label = label } }
{
    Coded {
        value: Exact { num: raw, k: 0 },
        unit: 0,
        label,
    }
}

/// Whether an entry covers a raw value. One for a single value has it as both its ends.
fn is_covered(entry: EntryRow, raw: i128) -> bool
    ensures { (image : List ℕ) (e : Entry) → IsEntryOf entry image e → covers raw e ≡ result }
{
    entry.kind == PLAIN || i128::from(entry.low) <= raw && raw <= i128::from(entry.high)
}

/// What an entry makes of a raw value.
fn entry_value(entry: EntryRow, raw: i128) -> Coded
    requires scale { entry.kind ≡ 1 → IsScale (scale_of entry.factor entry.offset entry.places) }
    requires raw { IsRawValue raw }
    ensures { (image : List ℕ) (e : Entry) → IsEntryOf entry image e → IsCoded image result (entry_meaning raw (Some e)) }
{
    match entry.kind {
        LOGICAL => itself(raw, entry.text),
        PHYSICAL => Coded {
            value: scale_of(entry.factor, entry.offset, entry.places).apply(raw),
            unit: entry.text,
            label: 0,
        },
        _ => itself(raw, 0),
    }
}

/// What the first entry that covers a raw value makes of it.
fn listed_value<W: Words>(words: &mut W, at: usize, count: usize, raw: i128) -> Coded
    requires some { SomeFits (W.knows words.old) }
    requires entries { EachHas (W.knows words.old) (EntriesAt at count) }
    requires raw { IsRawValue raw }
    ensures learned { Learned W.knows W.reads words.old words.new }
    ensures coded { EachIs (W.knows words.new) (EntriesAt at count)
        (λ image entries. IsCoded image result (entry_meaning raw (find (covers raw) entries))) }
{
    for i in 0..count {
        let entry = entry_at(words, at, count, i);
        if is_covered(entry, raw) {
            return entry_value(entry, raw);
        }
    }
    itself(raw, 0)
}

/// What a coding makes of a raw value.
pub(crate) fn coded_value<W: Words>(words: &mut W, row: CodingRow, raw: i128) -> Coded
    requires some { SomeFits (W.knows words.old) }
    requires coding { EachHas (W.knows words.old) (CodingOf row) }
    requires raw { IsRawValue raw }
    ensures learned { Learned W.knows W.reads words.old words.new }
    ensures coded { EachIs (W.knows words.new) (CodingOf row)
        (λ image coding. IsCoded image result (coding_meaning coding raw)) }
{
    if row.kind == LISTED {
        return listed_value(words, row.choices_at, row.choices, raw);
    }
    let label = label_of(words, row.choices_at, row.choices, raw);
    Coded {
        value: scale_of(row.factor, row.offset, row.places).apply(raw),
        unit: row.unit,
        label,
    }
}
