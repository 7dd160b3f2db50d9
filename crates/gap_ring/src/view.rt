//! What the two seats of a ring know, each of its own steps. No value of these types but `GapWords` is made:
//! they are in contracts alone.

use crate::entries::{Offered, Taken};
use atomic_table::{Seat, Table, TableRule};
use bench_model::Item;
use std::alloc::Global;
use std::collections::LinkedList;

/// A load or a store of one of the words of a ring, by the word's place.
pub enum Did {
    Loaded { word: u64, value: u64 },
    Stored { word: u64, value: u64 },
}

/// A version is below this: a gap word has room for two of them.
pub(crate) const VERSION_LIMIT: u64 = 4_294_967_296;

/// The three gap words: the stamps of the first and the last record of the trailing gap, and their versions.
#[derive(Clone, Copy, Debug)]
pub struct GapWords {
    pub first: u64,
    pub last: u64,
    pub versions: u64,
}

/// What the putter knows.
pub struct Putting {
    pub offers: LinkedList<Offered>,
    pub put: LinkedList<Item>,
    /// What was put before the record of the offer that is being made.
    pub lead: LinkedList<Item>,
    /// The attach word that it loaded last.
    pub attach: u64,
    /// The head that it loaded first in the offer that is being made.
    pub head: u64,
    /// Whether it has the slot of the tail.
    pub holds_slot: bool,
    /// What it stored into the gap words last.
    pub gap: GapWords,
    pub ended: bool,
    pub steps: LinkedList<Did>,
}

/// What the taker knows.
pub struct Taking {
    /// The ring's bus.
    pub bus: u32,
    pub taken: LinkedList<Taken>,
    pub attach: u64,
    /// The end word that it loaded last.
    pub end: u64,
    /// The item of the slot of the head, where it has that slot.
    pub hand: Option<Item>,
    /// Whether it found that the ring has ended and that all was taken.
    pub done: bool,
    /// All offers, where it found that.
    pub known: LinkedList<Offered>,
    pub steps: LinkedList<Did>,
}

/// What a seat knows, and whether it may put and may take.
pub struct View {
    pub puts: bool,
    pub takes: bool,
    pub putting: Putting,
    pub taking: Taking,
}

/// The rule of a ring of a bus.
pub struct Gaps;

impl TableRule<Option<Item>, View, u32> for Gaps {
    ghost use Rattle.gap_ring.specs.Rule.{Kept, first_view};

    ghost holds = { Kept };

    ghost first = { first_view };
}

pub(crate) type Ring = Table<Option<Item>, View, u32, Gaps, Global>;

pub(crate) type Place = Seat<Option<Item>, View>;
