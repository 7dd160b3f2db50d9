//! Which message is asked for, by the index of the keys or that of the parameter groups (SAE J1939-21).

ghost use Rattle.std.specs.Prelude.{◌≡◌, None, find};
ghost use Rattle.bench_model.specs.declared.reading.Ask.TheVariants as ask;
ghost use Rattle.bench_model.specs.Meaning.{has_key, matching};
ghost use Rattle.image_words.specs.Knowledge.{SomeFits};
ghost use Rattle.image_words.specs.Reading.{Learned, EachHas, EachIs};
ghost use Rattle.image_words.specs.Found.{BusOf, IsFoundAt};

use crate::Words;
use crate::index::position_of;
use crate::layout::J1939_BUS;
use crate::numbers::{group_of, key_number_of};
use crate::rows::BusRow;
use bench_model::{Ask, Key};

/// The position of the first message of an identifier.
fn by_key<W: Words>(words: &mut W, row: BusRow, key: Key) -> Option<usize>
    requires some { SomeFits (W.knows words.old) }
    requires bus { EachHas (W.knows words.old) (BusOf row) }
    ensures learned { Learned W.knows W.reads words.old words.new }
    ensures position { EachIs (W.knows words.new) (BusOf row)
        (λ image bus. IsFoundAt bus.database.messages result (find (has_key key) bus.database.messages)) }
{
    position_of(words, row.keys_at, row.messages, key_number_of(key))
}

/// The position of the first extended message of a parameter group, which only a J1939 bus finds.
fn by_group<W: Words>(words: &mut W, row: BusRow, pgn: u32) -> Option<usize>
    requires some { SomeFits (W.knows words.old) }
    requires bus { EachHas (W.knows words.old) (BusOf row) }
    ensures learned { Learned W.knows W.reads words.old words.new }
    ensures position { EachIs (W.knows words.new) (BusOf row)
        (λ image bus. IsFoundAt bus.database.messages result (matching bus.kind (ask.Group pgn) bus.database.messages)) }
{
    if row.kind != J1939_BUS {
        return None;
    }
    position_of(words, row.groups_at, row.groups, u64::from(pgn))
}

/// The position of the message of a frame that no message's identifier is: on a J1939 bus an extended frame
/// finds one by its parameter group.
fn by_frame_group<W: Words>(words: &mut W, row: BusRow, key: Key) -> Option<usize>
    requires some { SomeFits (W.knows words.old) }
    requires bus { EachHas (W.knows words.old) (BusOf row) }
    ensures learned { Learned W.knows W.reads words.old words.new }
    ensures position { EachIs (W.knows words.new) (BusOf row)
        (λ image bus. IsFoundAt bus.database.messages None (find (has_key key) bus.database.messages)
        → IsFoundAt bus.database.messages result (matching bus.kind (ask.Frame key) bus.database.messages)) }
{
    if key.extended {
        return by_group(words, row, group_of(key.id));
    }
    None
}

/// The position of the message of a frame.
fn by_frame<W: Words>(words: &mut W, row: BusRow, key: Key) -> Option<usize>
    requires some { SomeFits (W.knows words.old) }
    requires bus { EachHas (W.knows words.old) (BusOf row) }
    ensures learned { Learned W.knows W.reads words.old words.new }
    ensures position { EachIs (W.knows words.new) (BusOf row)
        (λ image bus. IsFoundAt bus.database.messages result (matching bus.kind (ask.Frame key) bus.database.messages)) }
{
    match by_key(words, row, key) {
        Some(position) => Some(position),
        None => by_frame_group(words, row, key),
    }
}

/// The position of the message that is asked for.
pub(crate) fn matching<W: Words>(words: &mut W, row: BusRow, ask: Ask) -> Option<usize>
    requires some { SomeFits (W.knows words.old) }
    requires bus { EachHas (W.knows words.old) (BusOf row) }
    ensures learned { Learned W.knows W.reads words.old words.new }
    ensures position { EachIs (W.knows words.new) (BusOf row)
        (λ image bus. IsFoundAt bus.database.messages result (matching bus.kind ask bus.database.messages)) }
{
    match ask {
        Ask::Frame { key } => by_frame(words, row, key),
        Ask::Group { pgn } => by_group(words, row, pgn),
    }
}
