//! Rows of an image, read word by word.

ghost use Rattle.std.specs.Prelude.{◌≡◌, ◌≤◌, ◌<◌, ◌+◌, ◌*◌, length};
ghost use Rattle.image_words.specs.Layout.{message_words, bus_words};
ghost use Rattle.image_words.specs.Image.{sign_weight};
ghost use Rattle.image_words.specs.Knowledge.{SomeFits, Holds};
ghost use Rattle.image_words.specs.Reading.{Learned, EachHas, SignalAt, AreWords, shape_of, IsDecodableShape, IsBusRow, IsMessageRow, IsLevel, IsCodingRow, IsSignalRow};

use crate::Words;
use crate::layout::{BUS_WORDS, MESSAGE_WORDS, SIGNAL_WORDS};
use crate::shape::Shape;

/// A bus's row without its name.
#[derive(Clone, Copy)]
pub(crate) struct BusRow {
    pub kind: u64,
    pub messages: usize,
    pub messages_at: usize,
    pub keys_at: usize,
    pub groups: usize,
    pub groups_at: usize,
}

/// The parts of a message's row that decoding asks.
#[derive(Clone, Copy)]
pub(crate) struct MessageRow {
    /// A reference to the name.
    pub name: u64,
    pub signals: usize,
    pub signals_at: usize,
}

/// A signal with what selects it: `parent` is 0, or one more than the parent's place in the message.
#[derive(Clone, Copy)]
pub(crate) struct Level {
    pub shape: Shape,
    pub parent: usize,
    pub ranges_at: usize,
    pub ranges: usize,
}

/// The coding of a signal: labels or entries, and for labels a scaling and a unit.
#[derive(Clone, Copy)]
pub(crate) struct CodingRow {
    pub kind: u64,
    pub choices_at: usize,
    pub choices: usize,
    pub factor: u64,
    pub offset: u64,
    pub places: u64,
    /// A reference to the unit.
    pub unit: u64,
}

/// A signal's row.
#[derive(Clone, Copy)]
pub(crate) struct SignalRow {
    /// A reference to the name.
    pub name: u64,
    pub level: Level,
    pub coding: CodingRow,
}

/// Reads the words from a place on into all of `row`.
pub(crate) fn read_words<W: Words>(words: &mut W, at: usize, row: &mut [u64])
    requires { at + length row.old ≤ (W.knows words.old).size }
    ensures learned { Learned W.knows W.reads words.old words.new }
    ensures words { Holds (W.knows words.new) (λ image bench. AreWords image at row.new) }
{
    let _size = words.len();
    for (i, slot) in row.iter_mut().enumerate() {
        *slot = words.word(at + i);
    }
}

/// The row of a bus.
pub(crate) fn bus_row<W: Words>(words: &mut W, at: usize) -> BusRow
    requires { at + bus_words ≤ (W.knows words.old).size }
    ensures learned { Learned W.knows W.reads words.old words.new }
    ensures row { Holds (W.knows words.new) (λ image bench. IsBusRow image at result) }
{
    let mut row = [0; BUS_WORDS];
    read_words(words, at, &mut row);
    BusRow {
        kind: row[0],
        messages: row[2] as usize,
        messages_at: row[3] as usize,
        keys_at: row[4] as usize,
        groups: row[5] as usize,
        groups_at: row[6] as usize,
    }
}

/// The row of a message.
pub(crate) fn message_row<W: Words>(words: &mut W, at: usize) -> MessageRow
    requires { at + message_words ≤ (W.knows words.old).size }
    ensures learned { Learned W.knows W.reads words.old words.new }
    ensures row { Holds (W.knows words.new) (λ image bench. IsMessageRow image at result) }
{
    let mut row = [0; MESSAGE_WORDS];
    read_words(words, at, &mut row);
    MessageRow {
        name: row[1],
        signals: row[3] as usize,
        signals_at: row[4] as usize,
    }
}

impl Level {
    /// The part of a signal's row after its name.
    fn of(shape: u64, parent: u64, ranges_at: u64, ranges: u64) -> Level
        requires { shape < 2 * sign_weight }
        ensures { result ≡ record { shape = shape_of shape; parent = parent; ranges_at = ranges_at; ranges = ranges } }
    {
        Level {
            shape: Shape::of(shape),
            parent: parent as usize,
            ranges_at: ranges_at as usize,
            ranges: ranges as usize,
        }
    }
}

/// A signal with what selects it.
pub(crate) fn level_at<W: Words>(words: &mut W, at: usize) -> Level
    requires some { SomeFits (W.knows words.old) }
    requires signal { EachHas (W.knows words.old) (SignalAt at) }
    ensures learned { Learned W.knows W.reads words.old words.new }
    ensures level { Holds (W.knows words.new) (λ image bench. IsLevel image at result) }
    ensures shape { IsDecodableShape result.shape }
{
    let _size = words.len();
    let mut row = [0; 4];
    read_words(words, at + 1, &mut row);
    Level::of(row[0], row[1], row[2], row[3])
}

/// The row of a signal.
pub(crate) fn signal_row<W: Words>(words: &mut W, at: usize) -> SignalRow
    requires some { SomeFits (W.knows words.old) }
    requires signal { EachHas (W.knows words.old) (SignalAt at) }
    ensures learned { Learned W.knows W.reads words.old words.new }
    ensures row { Holds (W.knows words.new) (λ image bench. IsSignalRow image at result) }
    ensures shape { IsDecodableShape result.level.shape }
{
    let mut row = [0; SIGNAL_WORDS];
    read_words(words, at, &mut row);
    SignalRow {
        name: row[0],
        level: Level::of(row[1], row[2], row[3], row[4]),
        coding: CodingRow {
            kind: row[5],
            choices_at: row[6] as usize,
            choices: row[7] as usize,
            factor: row[8],
            offset: row[9],
            places: row[10],
            unit: row[11],
        },
    }
}
