//! How far a taker has come.
ghost use Rattle.std.specs.Prelude.{◌≡◌, ◌+◌, ◌<◌, ◌||◌, ◌&&◌, nat_lt, cond, Some, None};
ghost use Rattle.gap_ring.specs.Rule.{most_offers, word_limit};
ghost use Rattle.gap_ring.specs.Turns.{starts_turn, next_after};
ghost use Rattle.gap_ring.specs.Steps.{record_number};
ghost use Rattle.gap_ring.specs.Takes.{gap_by};

use crate::view::{GapWords, VERSION_LIMIT};
use bench_model::{Item, Missed};

/// The items taken, the attach word, whether this turn's Start was taken, and the number after the last
/// record given in this turn.
#[derive(Clone, Copy, Debug)]
pub struct Progress {
    pub head: u64,
    pub attach: u64,
    pub started: bool,
    pub next: u64,
}

impl Progress {
    // An item was taken. Says whether it is one of this turn.
    pub(crate) fn pass(&mut self, item: &Item) -> bool
        requires head { self.old.head + 1 < word_limit }
        requires number { record_number item.now < most_offers }
        ensures result { result ≡ (self.old.started || starts_turn self.old.attach item.now) }
        ensures progress { self.new
            ≡ record self.old {
              head = self.old.head + 1;
              started = result;
              next = cond result (next_after self.old.next item.now) self.old.next;
            } }
    {
        self.head += 1;
        let starts = match item {
            Item::Start {
                bus: _,
                number: _,
                turn,
            } => *turn == self.attach,
            Item::Reading { reading: _ } => false,
            Item::Gap { bus: _, missed: _ } => false,
            Item::End { bus: _, number: _ } => false,
        };
        self.started = self.started || starts;
        if self.started
            && let Item::Reading { reading } = item
        {
            self.next = reading.number + 1;
        }
        self.started
    }

    // The gap up to the end, of which the gap words tell.
    pub(crate) fn gap_to(&self, number: u64, words: GapWords) -> Option<Missed>
        ensures { result
            ≡ cond (self.now.started && nat_lt self.now.next number)
            (Some (gap_by self.now.next number words))
            None }
    {
        if self.started && self.next < number {
            Some(Missed {
                first: self.next,
                count: number - self.next,
                first_micros: words.first,
                last_micros: words.last,
                first_version: (words.versions / VERSION_LIMIT) as u32,
                last_version: (words.versions % VERSION_LIMIT) as u32,
            })
        } else {
            None
        }
    }
}
