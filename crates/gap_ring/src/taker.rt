//! The end that takes.
ghost use Rattle.std.specs.Prelude.{◌≡◌, ◌≤◌, []};
ghost use Rattle.std.specs.Arc.{arc_value};
ghost use Rattle.gap_ring.specs.Rule.{most_slots};
ghost use Rattle.gap_ring.specs.Ends.{IsOn, TakerRests};

use crate::answers::Take;
use crate::progress::Progress;
use crate::steps::store_attach;
use crate::taking::make_take;
use crate::view::{Place, Ring};
use std::alloc::Global;
use std::sync::Arc;

/// The end that takes items out of a ring.
#[derive(Drop)]
pub struct Taker {
    pub(crate) ring: Arc<Ring, Global>,
    pub(crate) seat: Place,
    pub(crate) capacity: u64,
    pub(crate) progress: Progress,
    ghost on: { IsOn (arc_value ring).shared.table_id seat },
    ghost sized: { (capacity ≡ (arc_value ring).shared.table_id.slots) × (2 ≤ capacity)
        × (capacity ≤ most_slots) },
    ghost rests: { TakerRests progress seat.me.0 × (seat.me.1 ≡ []) },
}

impl Taker {
    ghost use Rattle.std.specs.Prelude.{◌≡◌, ◌+◌, ◌%◌, ◌<◌, ◌↔◌, [], IsTrue};
    ghost use Rattle.gap_ring.specs.Offers.{IsAttached, IsDetached};
    ghost use Rattle.gap_ring.specs.Rule.{count_limit};
    ghost use Rattle.gap_ring.specs.TakerView.{taking_of, turn_of_taker, slots_of_taker, IsSameRing};
    ghost use Rattle.gap_ring.specs.Takes.{TakeMade, TurnMade};

    #[tactic(auto, using(crate::proofs::TakingLaws::turn_kept))]
    /// Takes the oldest item. It takes no memory and waits for nothing.
    pub fn take(&mut self) -> Take
        requires attached { IsAttached (turn_of_taker self.old) }
        ensures made { TakeMade (slots_of_taker self.old) (taking_of self.old) (taking_of self.new) result }
        ensures turn { turn_of_taker self.new ≡ turn_of_taker self.old }
        ensures same { IsSameRing self.old self.new }
    {
        make_take(
            &self.ring,
            &mut self.seat,
            self.capacity,
            &mut self.progress,
        )
    }

    /// Attaches the taker, for its next turn.
    pub fn attach(&mut self)
        requires detached { IsDetached (turn_of_taker self.old) }
        requires room { turn_of_taker self.old < count_limit }
        ensures made { TurnMade (taking_of self.old) (taking_of self.new) }
        ensures same { IsSameRing self.old self.new }
    {
        self.turn();
    }

    /// Detaches the taker.
    pub fn detach(&mut self)
        requires attached { IsAttached (turn_of_taker self.old) }
        requires room { turn_of_taker self.old < count_limit }
        ensures made { TurnMade (taking_of self.old) (taking_of self.new) }
        ensures same { IsSameRing self.old self.new }
    {
        self.turn();
    }

    fn turn(&mut self)
        requires room { turn_of_taker self.old < count_limit }
        ensures made { TurnMade (taking_of self.old) (taking_of self.new) }
        ensures same { IsSameRing self.old self.new }
    {
        let next = self.progress.attach + 1;
        store_attach(&self.ring, &mut self.seat, next);
        self.progress = Progress {
            head: self.progress.head,
            attach: next,
            started: false,
            next: 0,
        };
    }

    /// Whether the taker is attached.
    pub fn attached(&self) -> bool
        ensures { IsTrue result ↔ IsAttached (turn_of_taker self.now) }
    {
        self.progress.attach % 2 == 1
    }
}
