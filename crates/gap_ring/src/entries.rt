//! What the rule of a ring remembers of each offer and of each item taken. No value of these types is made:
//! they occur in contracts alone.

use bench_model::{Item, Reading};

/// How an offer ended.
#[derive(Clone, Copy, Debug, PartialEq, Eq)]
pub enum Outcome {
    /// The record was put.
    Put,
    /// Too few slots were free.
    Refused,
    /// No taker was attached.
    Away,
}

/// An offer.
pub struct Offered {
    pub reading: Reading,
    /// The attach word that it loaded.
    pub attach: u64,
    /// The first head that it loaded; none where no taker was attached.
    pub head: Option<u64>,
    /// The tail at that moment.
    pub tail: u64,
    /// The slots that it needed at that moment.
    pub needed: u64,
    pub outcome: Outcome,
}

/// An item that was taken.
pub struct Taken {
    pub item: Item,
    /// The attach word at that time.
    pub attach: u64,
}
