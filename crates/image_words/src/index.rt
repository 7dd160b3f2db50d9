//! Searching an index: ascending words, each a number with a position.

ghost use Rattle.std.specs.Prelude.{◌≡◌, ◌+◌, ◌≤◌, ◌<◌, slice_range};
ghost use Rattle.std.specs.List.Sorted.{IsNonDecreasing};
ghost use Rattle.image_words.specs.Index.{number_limit};
ghost use Rattle.image_words.specs.Knowledge.{SomeFits, Holds};
ghost use Rattle.image_words.specs.Reading.{Learned};
ghost use Rattle.image_words.specs.Found.{IsBetween, IsFirstPosition};

use crate::Words;
use crate::layout::POSITION_SPAN;

/// How many of so many ascending words from `base` on are below `target`.
fn lower_bound<W: Words>(words: &mut W, base: usize, count: usize, target: u64) -> usize
    requires some { SomeFits (W.knows words.old) }
    requires inside { 1 ≤ count → base + count ≤ (W.knows words.old).size }
    requires ascending { Holds (W.knows words.old)
        (λ image bench. IsNonDecreasing (slice_range image base (base + count))) }
    ensures learned { Learned W.knows W.reads words.old words.new }
    ensures within { result ≤ count }
    ensures between { Holds (W.knows words.new)
        (λ image bench. IsBetween (slice_range image base (base + count)) target result result) }
{
    let _size = words.len();
    let mut low = 0;
    let mut high = count;
    while low < high {
        let middle = low + (high - low) / 2;
        let word = words.word(base + middle);
        if word < target {
            low = middle + 1;
        } else {
            high = middle;
        }
    }
    low
}

/// The position in the first entry of a number.
pub(crate) fn position_of<W: Words>(
    words: &mut W,
    base: usize,
    count: usize,
    number: u64,
) -> Option<usize>
    requires some { SomeFits (W.knows words.old) }
    requires inside { 1 ≤ count → base + count ≤ (W.knows words.old).size }
    requires number { number < number_limit }
    requires ascending { Holds (W.knows words.old)
        (λ image bench. IsNonDecreasing (slice_range image base (base + count))) }
    ensures learned { Learned W.knows W.reads words.old words.new }
    ensures position { Holds (W.knows words.new)
        (λ image bench. IsFirstPosition (slice_range image base (base + count)) number result) }
{
    let _size = words.len();
    let at = lower_bound(words, base, count, number * POSITION_SPAN);
    if at == count {
        return None;
    }
    let entry = words.word(base + at);
    if entry / POSITION_SPAN != number {
        return None;
    }
    Some((entry % POSITION_SPAN) as usize)
}
