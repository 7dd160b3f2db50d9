//! The end that puts.
ghost use Rattle.std.specs.Prelude.{◌≡◌, ◌≤◌, [], IfOk};
ghost use Rattle.std.specs.Arc.{arc_value};
ghost use Rattle.gap_ring.specs.Rule.{most_slots};
ghost use Rattle.gap_ring.specs.Ends.{IsOn, PutterRests};

use crate::answers::Offer;
use crate::count::Count;
use crate::offering::{make_end, make_offer};
use crate::plays::Said;
use crate::view::{Place, Ring};
use bench_model::Reading;
use std::alloc::Global;
use std::marker::Brand;
use std::sync::Arc;

/// The end that puts records into a ring.
#[derive(Drop)]
pub struct Putter {
    pub(crate) ring: Arc<Ring, Global>,
    pub(crate) seat: Place,
    pub(crate) capacity: u64,
    pub(crate) count: Count,
    ghost on: { IsOn (arc_value ring).shared.table_id seat },
    ghost sized: { (capacity ≡ (arc_value ring).shared.table_id.slots) × (2 ≤ capacity)
        × (capacity ≤ most_slots) },
    ghost rests: { PutterRests count seat.me.0 × (seat.me.1 ≡ []) },
}

impl Putter {
    ghost use Rattle.std.specs.Prelude.{◌≡◌, ◌+◌, ◌<◌, ◌≤◌, ◌++◌, ◌∷◌, [], false, true, length, Some};
    ghost use Rattle.gap_ring.specs.Rule.{most_offers};
    ghost use Rattle.gap_ring.specs.Offering.{OfferMade, EndMade};
    ghost use Rattle.gap_ring.specs.PutterView.{bus_of, slots_of, view_of, offers_of, has_ended, IsSameRing};

    fn offer_said<W: Said>(&mut self, reading: Reading) -> Offer
        requires said { W.reading ≡ Some reading }
        requires bus { reading.bus ≡ bus_of self.old }
        requires number { (reading.number ≡ length (offers_of self.old)) × (reading.number < most_offers) }
        requires open { has_ended self.old ≡ false }
        ensures made { OfferMade (bus_of self.old) (slots_of self.old) reading
            (view_of self.old) (view_of self.new) result }
        ensures same { IsSameRing self.old self.new }
    {
        make_offer::<W>(
            &self.ring,
            &mut self.seat,
            self.capacity,
            &mut self.count,
            reading,
        )
    }

    /// Offers the next record of the bus. It takes no memory and waits for nothing.
    pub fn offer(&mut self, reading: Reading) -> Offer
        requires bus { reading.bus ≡ bus_of self.old }
        requires number { (reading.number ≡ length (offers_of self.old)) × (reading.number < most_offers) }
        requires open { has_ended self.old ≡ false }
        ensures made { OfferMade (bus_of self.old) (slots_of self.old) reading
            (view_of self.old) (view_of self.new) result }
        ensures same { IsSameRing self.old self.new }
    {
        self.offer_said::<Brand>(reading)
    }

    /// Ends the offers: the taker finds the end once it has taken all that was put. It takes no memory and
    /// waits for nothing.
    pub fn end(&mut self)
        requires open { has_ended self.old ≡ false }
        ensures made { EndMade (view_of self.old) (view_of self.new) }
        ensures same { IsSameRing self.old self.new }
    {
        make_end(&self.ring, &mut self.seat, &self.count);
    }
}
