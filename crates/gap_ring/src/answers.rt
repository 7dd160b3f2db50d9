//! What the calls of the two ends answer.

use bench_model::{Item, Missed, Reading};

/// What an offer answers.
#[derive(Debug, Drop)]
pub enum Offer {
    /// The record was put.
    Put,
    /// The head that was loaded leaves too few free slots. The record comes back.
    Refused { reading: Reading, head: u64 },
    /// No taker is attached. The record comes back.
    Away { reading: Reading },
}

/// What a take answers.
#[derive(Debug, Drop)]
pub enum Take {
    /// The oldest item.
    Item { item: Item },
    /// The oldest item is before this turn's Start, and was dropped.
    Old,
    /// Nothing waits; the ring goes on.
    Empty { tail: u64 },
    /// All was taken, and the ring has ended after this many records. The gap is that of the records that
    /// were refused after the last one given in this turn.
    Ended { number: u64, gap: Option<Missed> },
}
