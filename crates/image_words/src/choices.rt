//! Ranges, labels and entries of an image: lists of rows of which the first that fits a raw value counts.

ghost use Rattle.std.specs.Prelude.{◌≡◌, ◌<◌, ◌^◌, List, slice_get, Some, find, pos, neg_ℤ, ◌≤ℤ◌, ◌<ℤ◌};
ghost use Rattle.std.specs.List.{list_any};
ghost use Rattle.std.specs.Option.{option_map};
ghost use Rattle.std.specs.Ordering.{int_eq};
ghost use Rattle.multiplex_tree.specs.Activity.{is_in_range};
ghost use Rattle.bench_model.specs.Meaning.{is_label_of};
ghost use Rattle.image_words.specs.Layout.{HasOptionalText};
ghost use Rattle.image_words.specs.Image.{raw_of_bits, word_span};
ghost use Rattle.image_words.specs.Knowledge.{SomeFits};
ghost use Rattle.image_words.specs.Reading.{Learned, EachHas, EachIs, RangesAt, LabelsAt, EntriesAt, scale_of, IsLabelRow, IsEntryRow};

use crate::Words;
use crate::layout::{ENTRY_WORDS, LABEL_WORDS, RANGE_WORDS};
use crate::rows::read_words;
use exact_scale::Scale;
use multiplex_tree::Range;

/// What a word counts.
const WORD_SPAN: i128 = 1 << 64;

/// A label: its raw value, and a reference to its text.
#[derive(Clone, Copy)]
pub(crate) struct LabelRow {
    pub raw: i128,
    pub text: u64,
}

/// An entry, word by word.
#[derive(Clone, Copy)]
pub(crate) struct EntryRow {
    pub kind: u64,
    pub low: u64,
    pub high: u64,
    pub factor: u64,
    pub offset: u64,
    pub places: u64,
    /// A reference to the text of a logical entry, 0 where it has none, or to the unit of a physical one.
    pub text: u64,
}

/// A factor and an offset in two's complement, over a power of ten.
pub(crate) fn scale_of(factor: u64, offset: u64, places: u64) -> Scale
    requires { places < 2 ^ 32 }
    ensures { result ≡ scale_of factor offset places }
{
    Scale {
        factor: i128::from(factor.cast_signed()),
        offset: i128::from(offset.cast_signed()),
        k: places as u32,
    }
}

/// One of the ranges.
fn range_at<W: Words>(words: &mut W, at: usize, count: usize, i: usize) -> Range
    requires some { SomeFits (W.knows words.old) }
    requires ranges { EachHas (W.knows words.old) (RangesAt at count) }
    requires within { i < count }
    ensures learned { Learned W.knows W.reads words.old words.new }
    ensures range { EachIs (W.knows words.new) (RangesAt at count)
        (λ image ranges. slice_get ranges i ≡ Some result) }
{
    let _size = words.len();
    let mut row = [0; RANGE_WORDS];
    read_words(words, at + RANGE_WORDS * i, &mut row);
    Range {
        low: row[0],
        high: row[1],
    }
}

/// A raw value by its low 64 bits.
fn label_raw(bits: u64, negative: bool) -> i128
    ensures value { result ≡ raw_of_bits bits negative }
    ensures bound { (neg_ℤ (pos word_span) ≤ℤ result) × (result <ℤ pos word_span) }
{
    if negative {
        i128::from(bits) - WORD_SPAN
    } else {
        i128::from(bits)
    }
}

/// One of the labels.
fn label_at<W: Words>(words: &mut W, at: usize, count: usize, i: usize) -> LabelRow
    requires some { SomeFits (W.knows words.old) }
    requires labels { EachHas (W.knows words.old) (LabelsAt at count) }
    requires within { i < count }
    ensures learned { Learned W.knows W.reads words.old words.new }
    ensures label { EachIs (W.knows words.new) (LabelsAt at count)
        (λ image labels. IsLabelRow image labels i result) }
{
    let _size = words.len();
    let mut row = [0; LABEL_WORDS];
    read_words(words, at + LABEL_WORDS * i, &mut row);
    LabelRow {
        raw: label_raw(row[0], row[1] == 1),
        text: row[2],
    }
}

/// One of the entries.
pub(crate) fn entry_at<W: Words>(words: &mut W, at: usize, count: usize, i: usize) -> EntryRow
    requires some { SomeFits (W.knows words.old) }
    requires entries { EachHas (W.knows words.old) (EntriesAt at count) }
    requires within { i < count }
    ensures learned { Learned W.knows W.reads words.old words.new }
    ensures entry { EachIs (W.knows words.new) (EntriesAt at count)
        (λ image entries. IsEntryRow image entries i result) }
{
    let _size = words.len();
    let mut row = [0; ENTRY_WORDS];
    read_words(words, at + ENTRY_WORDS * i, &mut row);
    EntryRow {
        kind: row[0],
        low: row[1],
        high: row[2],
        factor: row[3],
        offset: row[4],
        places: row[5],
        text: row[6],
    }
}

/// Whether a raw value lies in a range.
fn is_in(range: Range, raw: i128) -> bool
    ensures { result ≡ is_in_range raw range }
{
    i128::from(range.low) <= raw && raw <= i128::from(range.high)
}

/// Whether a raw value lies in one of the ranges.
pub(crate) fn is_in_ranges<W: Words>(words: &mut W, at: usize, count: usize, raw: i128) -> bool
    requires some { SomeFits (W.knows words.old) }
    requires ranges { EachHas (W.knows words.old) (RangesAt at count) }
    ensures learned { Learned W.knows W.reads words.old words.new }
    ensures value { EachIs (W.knows words.new) (RangesAt at count)
        (λ image ranges. list_any (is_in_range raw) ranges ≡ result) }
{
    for i in 0..count {
        let range = range_at(words, at, count, i);
        if is_in(range, raw) {
            return true;
        }
    }
    false
}

/// Whether a label stands for a raw value.
fn has_raw(label: LabelRow, raw: i128) -> bool
    ensures { result ≡ int_eq label.raw raw }
{
    label.raw == raw
}

/// A reference to the text of the first label of a raw value, 0 where there is none.
pub(crate) fn label_of<W: Words>(words: &mut W, at: usize, count: usize, raw: i128) -> u64
    requires some { SomeFits (W.knows words.old) }
    requires labels { EachHas (W.knows words.old) (LabelsAt at count) }
    ensures learned { Learned W.knows W.reads words.old words.new }
    ensures label { EachIs (W.knows words.new) (LabelsAt at count)
        (λ image labels. HasOptionalText image result (option_map (λ l. l.text) (find (is_label_of raw) labels))) }
{
    for i in 0..count {
        let label = label_at(words, at, count, i);
        if has_raw(label, raw) {
            return label.text;
        }
    }
    0
}
