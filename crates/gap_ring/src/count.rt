//! What the putter counts of its offers.
ghost use Rattle.std.specs.Prelude.{◌≡◌, ◌+◌, ◌<◌, ◌==◌, cond, [], ◌∷◌, Some, None, option_to_list};
ghost use Rattle.bench_model.specs.declared.reading.Item.TheVariants as items;
ghost use Rattle.gap_ring.specs.Offers.{gap_item, longer, missed_count};
ghost use Rattle.gap_ring.specs.Rule.{count_limit};

use bench_model::{Item, Missed, Reading};

/// The items put, the records offered, the turn of the last record put, and what was refused in that turn
/// since.
#[derive(Clone, Copy, Debug)]
pub struct Count {
    pub tail: u64,
    pub number: u64,
    pub turn: u64,
    pub missed: Option<Missed>,
}

impl Count {
    pub(crate) fn new() -> Count
        ensures { (result.tail ≡ 0) × (result.number ≡ 0) × (result.turn ≡ 0) × (result.missed ≡ None) }
    {
        Count {
            tail: 0,
            number: 0,
            turn: 0,
            missed: None,
        }
    }

    // What goes before a record that is put.
    pub(crate) fn lead(&self, reading: &Reading, attach: u64) -> Option<Item>
        ensures { option_to_list result
            ≡ cond (attach == self.now.turn)
            (gap_item reading.now.bus self.now.missed)
            (items.Start reading.now.bus reading.now.number attach ∷ []) }
    {
        if attach != self.turn {
            return Some(Item::Start {
                bus: reading.bus,
                number: reading.number,
                turn: attach,
            });
        }
        let missed = self.missed?;
        Some(Item::Gap {
            bus: reading.bus,
            missed,
        })
    }

    // A record was refused.
    pub(crate) fn refuse(&mut self, reading: &Reading, attach: u64)
        requires number { self.old.number < count_limit }
        requires missed { missed_count self.old.missed < count_limit }
        ensures { self.new
            ≡ record self.old {
              number = self.old.number + 1;
              missed = cond (attach == self.old.turn) (Some (longer self.old.missed reading.now)) self.old.missed;
            } }
    {
        self.number += 1;
        if attach == self.turn {
            self.missed = Some(one_more(self.missed, reading));
        }
    }
}

fn one_more(missed: Option<Missed>, reading: &Reading) -> Missed
    requires { missed_count missed < count_limit }
    ensures { result ≡ longer missed reading.now }
{
    match missed {
        None => Missed {
            first: reading.number,
            count: 1,
            first_micros: reading.micros,
            last_micros: reading.micros,
            first_version: reading.version,
            last_version: reading.version,
        },
        Some(missed) => Missed {
            count: missed.count + 1,
            last_micros: reading.micros,
            last_version: reading.version,
            ..missed
        },
    }
}
