//! How a store is made.
ghost use Rattle.std.specs.Prelude.{◌≡◌, ◌≤◌, ◌<◌, ◌++◌, ◌∷◌, [], length, slice_index, replicate, true, false, IfOk, All};
ghost use Rattle.region_store.specs.Layout.{most_regions, most_lanes, most_room};
ghost use Rattle.region_store.specs.Images.{IsImage};
ghost use Rattle.region_store.specs.Rule.{IsWithin, first_loader};
ghost use Rattle.region_store.specs.Store.{AreFirstWords, IsOn};
ghost use Rattle.region_store.specs.Ends.{shape_of, first_of};
ghost use Rattle.region_store.specs.LoaderEnd.{IsLoaderOf, view_of_loader, AreLanes, AreLanesOf, with_made};

use crate::lane::LaneSeat;
use crate::layout::FIRST_REGION;
use crate::loader::LoaderSeat;
use crate::steps::split_lane;
use crate::store::Store;
use crate::view::{About, Place, Regioned, Shape};
use atomic_table::Table;
use std::alloc::{AllocError, Global};
use std::snapshot::Snapshot;

fn push_zeros(words: &mut Vec<u64>, count: usize) -> Result<(), AllocError>
    ensures { IfOk result (λ _. words.new.items ≡ words.old.items ++ replicate count 0) }
{
    for _ in 0..count {
        words.push(0)?;
    }
    Ok(())
}

// The words of a store at the start.
fn first_words(alloc: Global, shape: &Shape, first: &[u64]) -> Result<Vec<u64>, AllocError>
    requires within { IsWithin shape.now }
    requires room { length first.now ≤ shape.now.room }
    ensures { IfOk result (λ words. AreFirstWords shape.now first.now words.items) }
{
    let count = FIRST_REGION + (shape.regions * shape.room) as usize;
    let mut words = Vec::with_capacity(alloc, count)?;
    words.push(first.len() as u64)?;
    push_zeros(&mut words, FIRST_REGION - 1)?;
    words.extend_from_slice(first)?;
    push_zeros(&mut words, count - FIRST_REGION - first.len())?;
    Ok(words)
}

// The seats of the lanes, split off the loader's.
fn split_lanes(
    alloc: Global,
    table: &Regioned,
    seat: &mut Place,
    count: u32,
) -> Result<Vec<LaneSeat>, AllocError>
    requires on { IsOn table.now.shared.table_id table.now.shared.key seat.old }
    requires loader { (seat.old.me.0.is_loader ≡ true) × (seat.old.me.0.is_lane ≡ false) }
    requires none { seat.old.me.0.loader.made ≡ 0 }
    requires count { (count ≡ seat.old.me.0.shape.lanes) × (count ≤ most_lanes) }
    ensures on { IsOn table.now.shared.table_id table.now.shared.key seat.new }
    ensures made { IfOk result (λ _. seat.new.me.0 ≡ with_made count seat.old.me.0) }
    ensures lanes { IfOk result (λ ls. AreLanes table.now.shared.table_id table.now.shared.key count ls.items) }
{
    let mut lanes = Vec::with_capacity(alloc, count as usize)?;
    for lane in 0..count {
        let seat = split_lane(table, seat);
        lanes.push(LaneSeat { seat, lane })?;
    }
    Ok(lanes)
}

fn none_retired(alloc: Global, regions: u32) -> Result<Vec<Option<u64>>, AllocError>
    ensures { IfOk result (λ r. r.items ≡ replicate regions None) }
{
    let mut retired = Vec::with_capacity(alloc, regions as usize)?;
    for _ in 0..regions {
        retired.push(None)?;
    }
    Ok(retired)
}

impl Store {
    /// A store of 2 to 8 regions of so many words, for 1 to 16 lanes: its version 0 is the first image, and it
    /// publishes no version above `last`. The seats are that of the loader and those of the lanes, in order.
    pub fn new(
        alloc: Global,
        regions: u32,
        words: usize,
        lanes: u32,
        first: &[u64],
        last: u32,
    ) -> Result<(Store, LoaderSeat, Vec<LaneSeat>), AllocError>
        requires regions { (2 ≤ regions) × (regions ≤ most_regions) }
        requires lanes { (1 ≤ lanes) × (lanes ≤ most_lanes) }
        requires words { (1 ≤ words) × (words ≤ most_room) }
        requires first { IsImage first.now × (length first.now ≤ words) }
        ensures shape { IfOk result (λ r. ((shape_of r.0).regions ≡ regions) × ((shape_of r.0).lanes ≡ lanes)
            × ((shape_of r.0).room ≡ words)) }
        ensures buses { IfOk result (λ r. (shape_of r.0).buses ≡ slice_index first.now 1) }
        ensures first { IfOk result (λ r. (first_of r.0 ≡ first.now) × (r.0.last ≡ last)) }
        ensures loader { IfOk result (λ r. IsLoaderOf r.0 r.1
            × ((view_of_loader r.1).loader
            ≡ record (first_loader (shape_of r.0) first.now) { made = lanes })) }
        ensures lanes { IfOk result (λ r. AreLanesOf r.0 lanes r.2.items) }
    {
        let shape = Shape {
            regions: u64::from(regions),
            lanes: u64::from(lanes),
            room: words as u64,
            buses: first[1],
        };
        let mut image = Vec::new(alloc);
        image.extend_from_slice(first)?;
        let about = About {
            shape,
            first: Snapshot::of(&image),
        };
        drop(image);
        let content = first_words(alloc, &shape, first)?;
        let (table, mut seat): (Regioned, Place) = Table::of_words(
            alloc,
            content.as_slice(),
            &about,
        )?;
        let seats = split_lanes(alloc, &table, &mut seat, lanes)?;
        let retired = none_retired(alloc, regions)?;
        let loader = LoaderSeat {
            seat,
            version: 0,
            region: 0,
            retired,
        };
        Ok((Store { table, shape, last }, loader, seats))
    }
}
