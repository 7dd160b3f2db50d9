//! What both ends know once they meet.
ghost use Rattle.std.specs.Prelude.{◌≡◌, length};
ghost use Rattle.gap_ring.specs.Offers.{put_of};
ghost use Rattle.gap_ring.specs.declared.view.Did.TheVariants as did;
ghost use Rattle.gap_ring.specs.Rule.{head_word};
ghost use Rattle.gap_ring.specs.Steps.{HaveMet, did_take};
ghost use Rattle.gap_ring.specs.Turns.{AreTurns};
ghost use Rattle.gap_ring.specs.PutterView.{bus_of, slots_of, view_of};
ghost use Rattle.gap_ring.specs.TakerView.{taking_of};
ghost use Rattle.gap_ring.specs.MetView.{IsPair, slots_of_met, putting_of_met, taking_of_met};

use crate::plays::OfBus;
use crate::putter::Putter;
use crate::steps::join_ends;
use crate::taker::Taker;
use crate::view::Place;
use std::marker::Brand;

/// The two ends of a ring, put together. Contracts see its capacity, and what was offered, put and taken.
#[derive(Drop)]
pub struct Met {
    /// How many items were put.
    pub put: u64,
    /// How many of them were taken.
    pub taken: u64,
    pub(crate) seat: Place,
}

/// Puts the two ends of a ring together.
pub fn meet(putter: Putter, taker: Taker) -> Met
    requires pair { IsPair putter taker }
    ensures ends { (putting_of_met result ≡ (view_of putter).putting)
        × (taking_of_met result ≡ did_take (taking_of taker) (did.Loaded head_word result.taken)) }
    ensures sized { slots_of_met result ≡ slots_of putter }
    ensures counts { (result.put ≡ length (putting_of_met result).put)
        × (result.taken ≡ length (taking_of_met result).taken) }
    ensures put { (putting_of_met result).put ≡ put_of (putting_of_met result).offers }
    ensures met { HaveMet (bus_of putter) (slots_of putter) (putting_of_met result) (taking_of_met result) }
    ensures turns { AreTurns (bus_of putter) (putting_of_met result).offers (putting_of_met result).put
        (taking_of_met result).taken }
{
    meet_on::<Brand>(putter, taker)
}

fn meet_on<W: OfBus>(putter: Putter, taker: Taker) -> Met
    requires pair { IsPair putter taker }
    requires bus { W.bus ≡ bus_of putter }
    ensures ends { (putting_of_met result ≡ (view_of putter).putting)
        × (taking_of_met result ≡ did_take (taking_of taker) (did.Loaded head_word result.taken)) }
    ensures sized { slots_of_met result ≡ slots_of putter }
    ensures counts { (result.put ≡ length (putting_of_met result).put)
        × (result.taken ≡ length (taking_of_met result).taken) }
    ensures put { (putting_of_met result).put ≡ put_of (putting_of_met result).offers }
    ensures met { HaveMet (bus_of putter) (slots_of putter) (putting_of_met result) (taking_of_met result) }
{
    let Putter {
        ring,
        mut seat,
        capacity: _,
        count,
    } = putter;
    let Taker {
        ring: other,
        seat: taker_seat,
        capacity: _,
        progress,
    } = taker;
    drop(other);
    join_ends::<W>(&ring, &mut seat, taker_seat);
    Met {
        put: count.tail,
        taken: progress.head,
        seat,
    }
}
