//! What no clause shows: that each call succeeds with ample memory, runs worked out by hand, and that a store and its
//! seats may go to another thread and be dropped.
ghost use Rattle.std.specs.Prelude.{◌≡◌, ◌<◌, ◌≤◌, ◌++◌, length, replicate, slice_index_or, ℕ, IfOk, IfSome};
ghost use Rattle.region_store.specs.declared.lane.LaneSeat.{LaneSeat};
ghost use Rattle.region_store.specs.Ends.{first_of, shape_of, IsLaneOf};
ghost use Rattle.region_store.specs.LoaderEnd.{IsLoaderOf};

use image_words::Words;
use region_store::{Holder, LaneSeat, LoaderSeat, Pinned, PublishRefused, Shelf, Store};
use std::alloc::{AllocError, Global};
use std::process::Abort;
use std::test::Fail;

mod threads;

/// An image of a bench with one CAN bus "A", which has no messages.
const BENCH: [u64; 10] = [10, 1, 0, 9 * 65_536 + 1, 0, 0, 0, 0, 0, 65];

/// The words of a region.
const ROOM: usize = 64;

// That image, and behind it words that say which version it is meant for.
fn image_for(alloc: Global, version: u64) -> Result<Vec<u64>, AllocError>
    ensures { IfOk result (λ words. words.items ≡ BENCH ++ replicate 54 version) }
{
    let mut words = Vec::from_slice(alloc, &BENCH)?;
    for _ in 0..ROOM - BENCH.len() {
        words.push(version)?;
    }
    Ok(words)
}

// A store of so many regions, for so many lanes.
fn store_of(
    alloc: Global,
    regions: u32,
    lanes: u32,
    last: u32,
) -> Result<(Store, LoaderSeat, Vec<LaneSeat>), AllocError>
    requires { (2 ≤ regions) × (regions ≤ 8) × (1 ≤ lanes) × (lanes ≤ 16) }
    ensures first { IfOk result (λ r. (first_of r.0 ≡ BENCH ++ replicate 54 0) × ((shape_of r.0).room ≡ 64)) }
    ensures loader { IfOk result (λ r. IsLoaderOf r.0 r.1) }
    ensures lanes { IfOk result (λ r. (k : ℕ) (d : LaneSeat) → k < length r.2.items
        → IsLaneOf r.0 (slice_index_or r.2.items k d)) }
{
    let first = image_for(alloc, 0)?;
    Store::new(alloc, regions, ROOM, lanes, first.as_slice(), last)
}

// The last of the lanes.
fn last_lane(store: &Store, lanes: Vec<LaneSeat>) -> Option<LaneSeat>
    requires { (k : ℕ) (d : LaneSeat) → k < length lanes.items → IsLaneOf store.now (slice_index_or lanes.items k d) }
    ensures { IfSome result (λ lane. IsLaneOf store.now lane) }
{
    let _ = store;
    let mut lanes = lanes;
    lanes.pop()
}

/// What a publication answered.
#[derive(Debug, Drop, PartialEq, Eq)]
enum Answer {
    Published { version: u32 },
    Spent,
    Busy { holders: Vec<Holder> },
}

// Publishes the image that is meant for a version.
fn publish(
    alloc: Global,
    store: &Store,
    loader: &mut LoaderSeat,
    version: u64,
) -> Result<Answer, AllocError>
    requires store { (first_of store.now ≡ BENCH ++ replicate 54 0) × ((shape_of store.now).room ≡ 64) }
    requires own { IsLoaderOf store.now loader.old }
    ensures { IsLoaderOf store.now loader.new }
{
    let image = image_for(alloc, version)?;
    match store.publish(loader, image.as_slice()) {
        Ok(version) => Ok(Answer::Published { version }),
        Err(PublishRefused::VersionsSpent) => Ok(Answer::Spent),
        Err(PublishRefused::Busy { holders }) => Ok(Answer::Busy {
            holders: Vec::from_slice(alloc, holders.list())?,
        }),
    }
}

// Whether a pin has all words of the image that is meant for its version.
fn is_whole(pin: &mut Pinned<'_>) -> bool
    ensures { pin.new.store ≡ pin.old.store }
{
    let version = u64::from(pin.version());
    let mut whole = pin.len() == ROOM;
    for at in 0..pin.len() {
        let word = if at < BENCH.len() { BENCH[at] } else { version };
        whole = pin.word(at) == word && whole;
    }
    whole
}

#[test]
fn a_region_that_a_lane_holds_is_busy_until_it_is_let_go(rt: HostRuntime) -> Result<(), Fail> {
    let alloc = rt.alloc();
    let (store, mut loader, lanes) = store_of(alloc, 2, 1, u32::MAX)?;
    let lane = last_lane(&store, lanes).expect(&rt, "a lane");
    let mut pin = store.pin(lane, 1);
    let first = publish(alloc, &store, &mut loader, 1)?;
    assert_eq!(rt; first, Answer::Published { version: 1 });
    let holder = Holder {
        region: 0,
        lane: 0,
        pin: 1,
    };
    let holders = Vec::from_slice(alloc, &[holder])?;
    let second = publish(alloc, &store, &mut loader, 2)?;
    assert_eq!(rt; second, Answer::Busy { holders });
    assert!(rt; pin.version() == 0 && is_whole(&mut pin));
    let lane = pin.unpin();
    assert!(rt; lane.lane() == 0);
    let third = publish(alloc, &store, &mut loader, 2)?;
    assert_eq!(rt; third, Answer::Published { version: 2 });
    Ok(())
}

#[test]
fn regions_are_used_again_under_an_idle_lane(rt: HostRuntime) -> Result<(), Fail> {
    let alloc = rt.alloc();
    let (store, mut loader, lanes) = store_of(alloc, 2, 1, u32::MAX)?;
    for version in 1..4u32 {
        let answer = publish(alloc, &store, &mut loader, u64::from(version))?;
        assert_eq!(rt; answer, Answer::Published { version });
    }
    let shelf = store.gather(loader, lanes);
    assert!(rt; shelf.version == 3);
    Ok(())
}

#[test]
fn no_version_above_the_last_is_published(rt: HostRuntime) -> Result<(), Fail> {
    let alloc = rt.alloc();
    let (store, mut loader, _) = store_of(alloc, 3, 2, 1)?;
    let first = publish(alloc, &store, &mut loader, 1)?;
    assert_eq!(rt; first, Answer::Published { version: 1 });
    let second = publish(alloc, &store, &mut loader, 2)?;
    assert_eq!(rt; second, Answer::Spent);
    Ok(())
}

fn sends_and_drops<T: Send + Drop>() {}

fn syncs<T: Sync>() {}

#[test]
fn a_store_and_its_seats_may_go_to_another_thread_and_be_dropped() {
    sends_and_drops::<Store>();
    syncs::<Store>();
    sends_and_drops::<LoaderSeat>();
    sends_and_drops::<LaneSeat>();
    sends_and_drops::<Pinned<'_>>();
    sends_and_drops::<Shelf>();
}
