//! How the loader finds a region that no lane can hold.
ghost use Rattle.std.specs.Prelude.{◌≡◌, ◌<◌, Some, not, true, length};
ghost use Rattle.epoch_core.specs.Steps.{is_past};
ghost use Rattle.region_store.specs.Steps.{retirement_of};
ghost use Rattle.region_store.specs.Store.{IsOn};
ghost use Rattle.region_store.specs.Finding.{FoundAt, FoundRegion};

use crate::layout::pin_word;
use crate::loader::{Holder, Holders};
use crate::plays::Said;
use crate::steps::load_pin;
use crate::view::{Place, Regioned};
use arrayvec::ArrayVec;
use std::marker::Brand;

// Whether a pin announces an epoch up to this one.
fn announces(pin: u64, epoch: u64) -> bool
    ensures { result ≡ not (is_past pin (Some epoch)) }
{
    pin >= 1 && pin - 1 <= epoch
}

// Loads the pins of the lanes, one after another, until one may hold the region, which was retired at this epoch.
fn look_at<W: Said>(
    table: &Regioned,
    seat: &mut Place,
    region: u32,
    epoch: u64,
    lanes: u32,
) -> Option<Holder>
    requires said { W.number ≡ region }
    requires on { IsOn table.now.shared.table_id table.now.shared.key seat.old }
    requires loader { seat.old.me.0.is_loader ≡ true }
    requires lanes { lanes ≡ seat.old.me.0.shape.lanes }
    requires retired { retirement_of seat.old.me.0.loader region ≡ Some epoch }
    ensures on { IsOn table.now.shared.table_id table.now.shared.key seat.new }
    ensures found { FoundAt region seat.old.me.0 seat.new.me.0 result }
{
    for lane in 0..lanes {
        let pin = load_pin::<W>(table, seat, region, pin_word(lane));
        if announces(pin, epoch) {
            return Some(Holder { region, lane, pin });
        }
    }
    None
}

// A lane that may hold the region, where one may.
fn look<W: Said>(
    table: &Regioned,
    seat: &mut Place,
    region: u32,
    retired: Option<u64>,
    lanes: u32,
) -> Option<Holder>
    requires said { W.number ≡ region }
    requires on { IsOn table.now.shared.table_id table.now.shared.key seat.old }
    requires loader { seat.old.me.0.is_loader ≡ true }
    requires lanes { lanes ≡ seat.old.me.0.shape.lanes }
    requires retired { retired ≡ retirement_of seat.old.me.0.loader region }
    ensures on { IsOn table.now.shared.table_id table.now.shared.key seat.new }
    ensures found { FoundAt region seat.old.me.0 seat.new.me.0 result }
{
    match retired {
        None => None,
        Some(epoch) => look_at::<W>(table, seat, region, epoch, lanes),
    }
}

// The first region, in order, that no lane can hold; or a lane for each region but the published one.
pub(crate) fn find_region(
    table: &Regioned,
    seat: &mut Place,
    published: u32,
    retired: &[Option<u64>],
    lanes: u32,
) -> Result<u32, Holders>
    requires on { IsOn table.now.shared.table_id table.now.shared.key seat.old }
    requires loader { seat.old.me.0.is_loader ≡ true }
    requires lanes { lanes ≡ seat.old.me.0.shape.lanes }
    requires published { (published ≡ seat.old.me.0.loader.region) × (published < seat.old.me.0.shape.regions) }
    requires retired { (retired.now ≡ seat.old.me.0.loader.retired) × (length retired.now ≡ seat.old.me.0.shape.regions) }
    ensures on { IsOn table.now.shared.table_id table.now.shared.key seat.new }
    ensures found { FoundRegion seat.old.me.0 seat.new.me.0 result }
{
    let mut each = ArrayVec::new();
    for region in 0..retired.len() as u32 {
        if region == published {
            continue;
        }
        match look::<Brand>(table, seat, region, retired[region as usize], lanes) {
            None => return Ok(region),
            Some(holder) => each.push(holder),
        }
    }
    Err(Holders { each })
}
