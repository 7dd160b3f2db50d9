//! A ring and its two ends.
ghost use Rattle.std.specs.Prelude.{◌≡◌, ◌≤◌, [], ◌∷◌, IfOk, replicate, slice_set};
ghost use Rattle.gap_ring.specs.PutterView.{bus_of, slots_of, view_of};
ghost use Rattle.gap_ring.specs.TakerView.{bus_of_taker, slots_of_taker, taking_of};
ghost use Rattle.gap_ring.specs.MetView.{IsPair};
ghost use Rattle.gap_ring.specs.Rule.{first_putting, first_taking, most_slots};

use crate::count::Count;
use crate::plays::Roles;
use crate::progress::Progress;
use crate::putter::Putter;
use crate::steps::{ATTACH, WORDS};
use crate::taker::Taker;
use crate::view::{Place, Ring};
use atomic_table::Table;
use std::alloc::{AllocError, Global};
use std::sync::Arc;

/// A ring of a bus with this many slots, and its two ends. The taker is attached, for its first turn, which
/// is 1.
pub fn ring(alloc: Global, bus: u32, capacity: usize) -> Result<(Putter, Taker), AllocError>
    requires { (2 ≤ capacity) × (capacity ≤ most_slots) }
    ensures pair { IfOk result (λ r. IsPair r.0 r.1) }
    ensures sized { IfOk result (λ r. (slots_of r.0 ≡ capacity) × (slots_of_taker r.1 ≡ capacity)) }
    ensures bus { IfOk result (λ r. (bus_of r.0 ≡ bus) × (bus_of_taker r.1 ≡ bus)) }
    ensures nothing { IfOk result (λ r. ((view_of r.0).putting ≡ first_putting)
        × (taking_of r.1 ≡ first_taking bus)) }
{
    let mut words = [0; WORDS];
    words[ATTACH] = 1;
    let (table, mut seat): (Ring, Place) = Table::vacant(alloc, &words, capacity, &bus)?;
    let other = table.shared.split_seat::<Roles>(&mut seat);
    let table = Arc::new(alloc, table)?;
    let putter = Putter {
        ring: table.clone()?,
        seat,
        capacity: capacity as u64,
        count: Count::new(),
    };
    let taker = Taker {
        ring: table,
        seat: other,
        capacity: capacity as u64,
        progress: Progress {
            head: 0,
            attach: 1,
            started: false,
            next: 0,
        },
    };
    Ok((putter, taker))
}
