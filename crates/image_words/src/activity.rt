//! Which signals of a message are active, from parent to parent.

ghost use Rattle.std.specs.Prelude.{◌≡◌, ◌<◌, ◌+◌, ◌*◌};
ghost use Rattle.multiplex_tree.specs.Activity.{is_in_ranges, is_active};
ghost use Rattle.bench_model.specs.declared.database.Signal.{Signal};
ghost use Rattle.bench_model.specs.Raw.{raw_value};
ghost use Rattle.bench_model.specs.Meaning.{raw_values};
ghost use Rattle.image_words.specs.Layout.{signal_words};
ghost use Rattle.image_words.specs.Knowledge.{SomeFits, Holds};
ghost use Rattle.image_words.specs.Reading.{Learned, EachHas, EachIs, RangesAt, SignalsAt, IsLevel, HasShape, IsDecodableShape, LeadsUp, IsBelow};

use crate::Words;
use crate::choices::is_in_ranges;
use crate::layout::SIGNAL_WORDS;
use crate::rows::{Level, level_at};
use crate::shape::Shape;
use multiplex_tree::{MOST_PARENTS, activity_by_steps};

/// Where a signal's parent leads.
#[derive(Clone, Copy)]
pub(crate) enum Step {
    /// It has no parent.
    Top,
    /// Its parent does not select it.
    PassedOver,
    /// Its parent, at this place, selects it.
    Selected { place: usize, level: Level },
}

/// Whether the raw value of a parent of this shape lies in one of the ranges.
fn selects<W: Words>(words: &mut W, at: usize, count: usize, parent: Shape, bytes: &[u8]) -> bool
    requires some { SomeFits (W.knows words.old) }
    requires ranges { EachHas (W.knows words.old) (RangesAt at count) }
    requires shape { IsDecodableShape parent }
    ensures learned { Learned W.knows W.reads words.old words.new }
    ensures value { EachIs (W.knows words.new) (RangesAt at count)
        (λ image ranges. (s : Signal) → HasShape parent s → is_in_ranges ranges (raw_value s bytes.now) ≡ result) }
{
    match parent.raw(bytes) {
        Some(raw) => is_in_ranges(words, at, count, raw),
        None => false,
    }
}

/// Goes from the signal at a place, of which this is known, to its parent.
fn step_up<W: Words>(
    words: &mut W,
    at: usize,
    count: usize,
    place: usize,
    level: Level,
    bytes: &[u8],
) -> Step
    requires some { SomeFits (W.knows words.old) }
    requires signals { EachHas (W.knows words.old) (SignalsAt at count) }
    requires place { place < count }
    requires level { Holds (W.knows words.old)
        (λ image bench. IsLevel image (at + signal_words * place) level) }
    ensures learned { Learned W.knows W.reads words.old words.new }
    ensures leads { EachIs (W.knows words.new) (SignalsAt at count)
        (λ image m. LeadsUp at bytes.now place result image m) }
    ensures below { IsBelow count result }
{
    let _size = words.len();
    if level.parent == 0 {
        return Step::Top;
    }
    let parent = level.parent - 1;
    let above = level_at(words, at + SIGNAL_WORDS * parent);
    if !selects(words, level.ranges_at, level.ranges, above.shape, bytes) {
        return Step::PassedOver;
    }
    Step::Selected {
        place: parent,
        level: above,
    }
}

/// Whether the signal at a place, of which this is known, is active.
pub(crate) fn is_active<W: Words>(
    words: &mut W,
    at: usize,
    count: usize,
    place: usize,
    level: Level,
    bytes: &[u8],
) -> bool
    requires some { SomeFits (W.knows words.old) }
    requires signals { EachHas (W.knows words.old) (SignalsAt at count) }
    requires place { place < count }
    requires level { Holds (W.knows words.old)
        (λ image bench. IsLevel image (at + signal_words * place) level) }
    ensures learned { Learned W.knows W.reads words.old words.new }
    ensures active { EachIs (W.knows words.new) (SignalsAt at count)
        (λ image m. is_active m.tree.parents (raw_values bytes.now m.signals) place ≡ result) }
{
    activity_by_steps();
    let mut here = place;
    let mut level = level;
    for steps in 0..MOST_PARENTS {
        match step_up(words, at, count, here, level, bytes) {
            Step::Top => return true,
            Step::PassedOver => return false,
            Step::Selected {
                place: up,
                level: above,
            } => {
                here = up;
                level = above;
            }
        }
    }
    true
}
