//! The atomic steps of the seats, each with what it shows.
ghost use Rattle.std.specs.Prelude.{◌≡◌, ◌+◌, ◌<◌, ◌≤◌, ◌∷◌, ◌++◌, [], ℕ, true, false, Some};
ghost use Rattle.region_store.specs.declared.view.Did.TheVariants as did;
ghost use Rattle.region_store.specs.declared.view.Use.{Use};
ghost use Rattle.region_store.specs.Layout.{published_word, epoch_word, lane_at, version_weight, region_in};
ghost use Rattle.region_store.specs.Images.{IsLike};
ghost use Rattle.region_store.specs.Store.{IsOn};
ghost use Rattle.region_store.specs.May.{MayLoad, MayPin, MayHold, MayRead, MayLetGo};
ghost use Rattle.region_store.specs.May.{MayWrite, MayPublish, MayFollow, MayLook};
ghost use Rattle.region_store.specs.Steps.{lane_did, loader_did, with_epoch, with_pin, with_hold, IsFresh};
ghost use Rattle.region_store.specs.Steps.{at_in, with_word, IsReadOf, with_none, with_written};
ghost use Rattle.region_store.specs.Steps.{with_published, with_next, with_clearing, IsLook, loader_side, lane_side};
ghost use Rattle.region_store.specs.Steps.{both_sides};

use crate::layout::{EPOCH, PUBLISHED};
use crate::plays::{
    Lanes, LetGo, Said, SeeEpoch, SeePin, SeePublished, SeeWord, StoreEpoch, StorePin,
    StorePublished, StoreWord,
};
use crate::view::{Place, Regioned};
use epoch_core::the_rule_holds_in_every_schedule;

// A lane loads the epoch.
pub(crate) fn load_epoch(table: &Regioned, seat: &mut Place) -> u64
    requires on { IsOn table.now.shared.table_id table.now.shared.key seat.old }
    requires may { MayLoad seat.old.me.0 }
    ensures on { IsOn table.now.shared.table_id table.now.shared.key seat.new }
    ensures seen { seat.new.me.0
        ≡ record seat.old.me.0 {
          lane = lane_did (with_epoch result seat.old.me.0.lane) (did.Loaded epoch_word result);
        } }
    ensures low { result < version_weight }
{
    the_rule_holds_in_every_schedule();
    table.shared.load::<SeeEpoch>(seat, EPOCH)
}

// It stores its pin.
pub(crate) fn store_pin(table: &Regioned, seat: &mut Place, word: usize, pin: u64)
    requires on { IsOn table.now.shared.table_id table.now.shared.key seat.old }
    requires may { (epoch : ℕ) × MayPin word pin epoch seat.old.me.0 }
    requires inside { word < table.now.shared.table_id.words }
    ensures on { IsOn table.now.shared.table_id table.now.shared.key seat.new }
    ensures stored { seat.new.me.0
        ≡ record seat.old.me.0 { lane = lane_did (with_pin seat.old.me.0.lane) (did.Stored word pin) } }
{
    the_rule_holds_in_every_schedule();
    table.shared.store::<StorePin>(seat, word, pin);
}

// It loads the published word, for so many lines.
pub(crate) fn load_published<W: Said>(table: &Regioned, seat: &mut Place, lines: u32) -> u64
    requires said { W.number ≡ lines }
    requires on { IsOn table.now.shared.table_id table.now.shared.key seat.old }
    requires may { (epoch : ℕ) × MayHold epoch seat.old.me.0 }
    ensures on { IsOn table.now.shared.table_id table.now.shared.key seat.new }
    ensures seen { seat.new.me.0
        ≡ record seat.old.me.0 {
          lane = lane_did (with_hold lines result seat.old.me.0.lane) (did.Loaded published_word result);
        } }
    ensures fresh { IsFresh lines result seat.old.me.0 }
{
    the_rule_holds_in_every_schedule();
    let _ = lines;
    table.shared.load::<SeePublished<W>>(seat, PUBLISHED)
}

// It loads a word of the image that it holds.
pub(crate) fn load_word(table: &Regioned, seat: &mut Place, word: usize) -> u64
    requires on { IsOn table.now.shared.table_id table.now.shared.key seat.old }
    requires may { (at : ℕ) × ((epoch : ℕ) × ((version : ℕ) × ((region : ℕ)
        × ((u : Use) × MayRead word at epoch version region u seat.old.me.0)))) }
    requires inside { word < table.now.shared.table_id.words }
    ensures on { IsOn table.now.shared.table_id table.now.shared.key seat.new }
    ensures seen { seat.new.me.0
        ≡ record seat.old.me.0 {
          lane = lane_did (with_word (at_in seat.old.me.0 word) result seat.old.me.0.lane) (did.Loaded word result);
        } }
    ensures read { (u : Use) → seat.old.me.0.lane.held ≡ Some u
        → IsReadOf (at_in seat.old.me.0 word) result seat.old.me.0.shape.buses u }
{
    the_rule_holds_in_every_schedule();
    table.shared.load::<SeeWord>(seat, word)
}

// It lets go.
pub(crate) fn store_none(table: &Regioned, seat: &mut Place, word: usize)
    requires on { IsOn table.now.shared.table_id table.now.shared.key seat.old }
    requires may { (epoch : ℕ) × ((version : ℕ) × ((region : ℕ) × MayLetGo word epoch version region seat.old.me.0)) }
    requires inside { word < table.now.shared.table_id.words }
    ensures on { IsOn table.now.shared.table_id table.now.shared.key seat.new }
    ensures stored { seat.new.me.0
        ≡ record seat.old.me.0 { lane = lane_did (with_none seat.old.me.0.lane) (did.Stored word 0) } }
{
    the_rule_holds_in_every_schedule();
    table.shared.store::<LetGo>(seat, word, 0);
}

// The loader stores a word of a region.
pub(crate) fn store_word<W: Said>(
    table: &Regioned,
    seat: &mut Place,
    region: u32,
    word: usize,
    value: u64,
)
    requires said { W.number ≡ region }
    requires on { IsOn table.now.shared.table_id table.now.shared.key seat.old }
    requires may { MayWrite word region seat.old.me.0 }
    requires inside { word < table.now.shared.table_id.words }
    ensures on { IsOn table.now.shared.table_id table.now.shared.key seat.new }
    ensures stored { seat.new.me.0
        ≡ record seat.old.me.0 {
          loader = loader_did (with_written region value seat.old.me.0.loader) (did.Stored word value);
        } }
{
    the_rule_holds_in_every_schedule();
    let _ = region;
    table.shared.store::<StoreWord<W>>(seat, word, value);
}

// It stores the published word.
pub(crate) fn store_published(table: &Regioned, seat: &mut Place, value: u64)
    requires on { IsOn table.now.shared.table_id table.now.shared.key seat.old }
    requires may { (region : ℕ) × MayPublish value region seat.old.me.0 }
    requires like { IsLike table.now.shared.key.first.value.items seat.old.me.0.loader.draft }
    ensures on { IsOn table.now.shared.table_id table.now.shared.key seat.new }
    ensures stored { seat.new.me.0
        ≡ record seat.old.me.0 {
          loader = loader_did (with_published seat.old.me.0.shape.lanes (region_in value) seat.old.me.0.loader)
              (did.Stored published_word value);
        } }
{
    the_rule_holds_in_every_schedule();
    table.shared.store::<StorePublished>(seat, PUBLISHED, value);
}

// It stores the epoch.
pub(crate) fn store_epoch(table: &Regioned, seat: &mut Place, epoch: u64)
    requires on { IsOn table.now.shared.table_id table.now.shared.key seat.old }
    requires may { MayFollow epoch seat.old.me.0 }
    ensures on { IsOn table.now.shared.table_id table.now.shared.key seat.new }
    ensures stored { seat.new.me.0
        ≡ record seat.old.me.0 {
          loader = loader_did (with_next seat.old.me.0.loader) (did.Stored epoch_word epoch);
        } }
{
    the_rule_holds_in_every_schedule();
    table.shared.store::<StoreEpoch>(seat, EPOCH, epoch);
}

// It loads a pin, for a region that was retired.
pub(crate) fn load_pin<W: Said>(table: &Regioned, seat: &mut Place, region: u32, word: usize) -> u64
    requires said { W.number ≡ region }
    requires on { IsOn table.now.shared.table_id table.now.shared.key seat.old }
    requires may { (lane : ℕ) × ((epoch : ℕ) × MayLook word region lane epoch seat.old.me.0) }
    requires inside { word < table.now.shared.table_id.words }
    ensures on { IsOn table.now.shared.table_id table.now.shared.key seat.new }
    ensures seen { seat.new.me.0
        ≡ record seat.old.me.0 {
          loader = loader_did (with_clearing region (lane_at word) result seat.old.me.0.loader)
              (did.Loaded word result);
        } }
    ensures look { IsLook region (lane_at word) result seat.old.me.0.loader }
{
    the_rule_holds_in_every_schedule();
    let _ = region;
    table.shared.load::<SeePin<W>>(seat, word)
}

// The next lane's seat is split off the loader's.
pub(crate) fn split_lane(table: &Regioned, seat: &mut Place) -> Place
    requires on { IsOn table.now.shared.table_id table.now.shared.key seat.old }
    requires loader { (seat.old.me.0.is_loader ≡ true) × (seat.old.me.0.is_lane ≡ false) }
    requires more { seat.old.me.0.loader.made < seat.old.me.0.shape.lanes }
    ensures on { IsOn table.now.shared.table_id table.now.shared.key seat.new }
    ensures left { seat.new.me.0 ≡ loader_side seat.old.me.0 }
    ensures on_lane { IsOn table.now.shared.table_id table.now.shared.key result }
    ensures right { result.me.0 ≡ lane_side seat.old.me.0 }
{
    table.shared.split_seat::<Lanes>(seat)
}

// A lane's seat is put into the loader's, which then knows what it used.
pub(crate) fn join_lane(table: &Regioned, seat: &mut Place, lane: Place)
    requires on { IsOn table.now.shared.table_id table.now.shared.key seat.old }
    requires on_lane { IsOn table.now.shared.table_id table.now.shared.key lane }
    requires may { (seat.old.me.0.is_loader ≡ true) × (lane.me.0.is_lane ≡ true) }
    ensures on { IsOn table.now.shared.table_id table.now.shared.key seat.new }
    ensures joined { seat.new.me.0 ≡ both_sides seat.old.me.0 lane.me.0 }
{
    table.shared.join_seat::<Lanes>(seat, lane);
}
