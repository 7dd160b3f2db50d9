//! How a store is closed.
ghost use Rattle.std.specs.Prelude.{◌≡◌, ◌<◌, ◌++◌, ℕ, length, map, slice_index_or, true};
ghost use Rattle.region_store.specs.declared.lane.LaneSeat.{LaneSeat};
ghost use Rattle.region_store.specs.Store.{IsGathered};
ghost use Rattle.region_store.specs.Ends.{first_of, IsLaneOf};
ghost use Rattle.region_store.specs.LoaderEnd.{IsLoaderOf, view_of_loader, lane_view, with_kept};
ghost use Rattle.region_store.specs.Store.{IsOn};

use crate::lane::LaneSeat;
use crate::loader::LoaderSeat;
use crate::shelf::Shelf;
use crate::steps::join_lane;
use crate::store::Store;
use crate::view::{Place, Regioned};
use epoch_core::the_rule_holds_in_every_schedule;
use std::snapshot::Snapshot;

// The seats of the lanes are put into the loader's.
fn join_lanes(table: &Regioned, seat: &mut Place, lanes: Vec<LaneSeat>)
    requires on { IsOn table.now.shared.table_id table.now.shared.key seat.old }
    requires loader { seat.old.me.0.is_loader ≡ true }
    requires lanes { (k : ℕ) (d : LaneSeat) → k < length lanes.items
        → IsOn table.now.shared.table_id table.now.shared.key (slice_index_or lanes.items k d).seat }
    ensures on { IsOn table.now.shared.table_id table.now.shared.key seat.new }
    ensures joined { seat.new.me.0 ≡ with_kept (map lane_view lanes.items) seat.old.me.0 }
{
    for lane in lanes {
        let LaneSeat {
            seat: other,
            lane: _,
        } = lane;
        join_lane(table, seat, other);
    }
}

impl Store {
    /// Closes the store, once all its seats are here: what the lanes used are words of the published images.
    pub fn gather(self, loader: LoaderSeat, lanes: Vec<LaneSeat>) -> Shelf
        requires own { IsLoaderOf self loader }
        requires lanes { (k : ℕ) (d : LaneSeat) → k < length lanes.items → IsLaneOf self (slice_index_or lanes.items k d) }
        ensures store { result.store.value ≡ self }
        ensures version { result.version ≡ loader.version }
        ensures kept { result.kept.value.me.0 ≡ with_kept (map lane_view lanes.items) (view_of_loader loader) }
        ensures gathered { IsGathered (first_of self) result.kept.value.me.0.loader }
    {
        the_rule_holds_in_every_schedule();
        let store = Snapshot::of(&self);
        let Store {
            table,
            shape: _,
            last: _,
        } = self;
        let LoaderSeat {
            mut seat,
            version,
            region: _,
            retired: _,
        } = loader;
        join_lanes(&table, &mut seat, lanes);
        let kept = Snapshot::of(&seat);
        let closed = table.close_with(seat);
        closed.free();
        Shelf {
            version,
            store,
            kept,
        }
    }
}
