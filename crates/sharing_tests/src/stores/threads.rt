//! Four lanes pin, read all words, check them against the image of the version and let go, while one loader publishes
//! 10,000 versions. It ends by itself: the loader tries again where it is refused, and each lane ends once it held the
//! last version.
ghost use Rattle.std.specs.Prelude.{◌≡◌, ◌<◌, ◌≤◌, ◌++◌, ℕ, length, replicate, slice_index_or};
ghost use Rattle.region_store.specs.Ends.{first_of, shape_of, IsLaneOf};
ghost use Rattle.region_store.specs.LoaderEnd.{IsLoaderOf};
ghost use Rattle.region_store.specs.declared.lane.LaneSeat.{LaneSeat};
ghost use Rattle.sharing_tests.specs.declared.stores.TheConstants.{BENCH};

use super::{Answer, is_whole, publish, store_of};
use region_store::{Holder, LaneSeat, LoaderSeat, Store};
use std::alloc::{AllocError, Global};
use std::process::Abort;
use std::sync::Wait;
use std::test::Fail;
use std::thread;
use std::thread::Threads;

const VERSIONS: u32 = 10_000;

const LANES: u32 = 4;

/// A lane, the version that it held last, and whether each was whole and none was older than the one before.
#[derive(Drop)]
struct Reader<'a> {
    store: &'a Store,
    seat: LaneSeat,
    version: u32,
    right: bool,
    ghost own: { IsLaneOf store.now seat },
}

impl<'a> Reader<'a> {
    fn new(store: &'a Store, seat: LaneSeat) -> Reader<'a>
        requires { IsLaneOf store.now seat }
    {
        Reader {
            store,
            seat,
            version: 0,
            right: true,
        }
    }

    fn step(self) -> Reader<'a> {
        let Reader {
            store,
            seat,
            version,
            right,
        } = self;
        let mut pin = store.pin(seat, 1);
        let held = pin.version();
        let whole = is_whole(&mut pin);
        Reader {
            store,
            seat: pin.unpin(),
            version: held,
            right: right && whole && version <= held,
        }
    }
}

// Reads until it holds the last version.
fn read_all<'a>(rt: &impl Wait, reader: Reader<'a>) -> bool {
    let mut reader = reader;
    for _ in rt.forever() {
        reader = reader.step();
        if reader.version == VERSIONS || !reader.right {
            break;
        }
        thread::yield_now();
    }
    reader.right
}

// Whether these are one lane for each of so many regions, in order.
fn are_holders(holders: &[Holder], regions: u32) -> bool {
    let ordered = holders
        .windows(2)
        .all(|pair| pair[0].region < pair[1].region);
    let low = holders.iter().all(|holder| holder.region < regions
        && holder.lane < LANES
        && holder.pin > 0);
    holders.len() as u64 + 1 == u64::from(regions) && ordered && low
}

/// The loader, and whether each answer was right.
#[derive(Drop)]
struct Writer<'a> {
    store: &'a Store,
    seat: LoaderSeat,
    regions: u32,
    version: u32,
    right: bool,
    ghost own: { IsLoaderOf store.now seat },
    ghost first: { (first_of store.now ≡ BENCH ++ replicate 54 0) × ((shape_of store.now).room ≡ 64) },
}

impl<'a> Writer<'a> {
    fn step(&mut self, alloc: Global) {
        let next = self.version.saturating_add(1);
        match publish(alloc, self.store, &mut self.seat, u64::from(next)) {
            Ok(Answer::Published { version }) => {
                self.right = self.right && version == next;
                self.version = version;
            }
            Ok(Answer::Busy { holders }) => {
                self.right = self.right && are_holders(holders.as_slice(), self.regions);
                thread::yield_now();
            }
            Ok(Answer::Spent) => self.right = false,
            Err(_) => self.right = false,
        }
    }
}

// Publishes all versions, and tries again where it is refused.
fn write_all<'a>(rt: &impl Wait, alloc: Global, writer: Writer<'a>) -> bool {
    let mut writer = writer;
    for _ in rt.forever() {
        writer.step(alloc);
        if writer.version == VERSIONS || !writer.right {
            break;
        }
    }
    writer.right
}

fn readers_of<'a>(
    alloc: Global,
    store: &'a Store,
    lanes: Vec<LaneSeat>,
) -> Result<Vec<Reader<'a>>, AllocError>
    requires { (k : ℕ) (d : LaneSeat) → k < length lanes.items → IsLaneOf store.now (slice_index_or lanes.items k d) }
{
    let mut readers = Vec::with_capacity(alloc, lanes.len())?;
    for seat in lanes {
        readers.push(Reader::new(store, seat))?;
    }
    Ok(readers)
}

// Whether a run over so many regions was right.
fn is_right<R: Threads + Wait + Sync>(
    rt: &R,
    alloc: Global,
    regions: u32,
) -> Result<bool, AllocError>
    requires { (2 ≤ regions) × (regions ≤ 8) }
{
    let (store, seat, lanes) = store_of(alloc, regions, LANES, VERSIONS)?;
    let readers = readers_of(alloc, &store, lanes)?;
    let writer = Writer {
        store: &store,
        seat,
        regions,
        version: 0,
        right: true,
    };
    // where no thread can be made the last closure runs first
    let (read, wrote) = thread::join(
        rt,
        move || thread::map_vec(rt, readers, &|reader| read_all(rt, reader)),
        move || write_all(rt, alloc, writer),
    );
    Ok(wrote && read?.iter().all(|right| *right))
}

#[test]
fn two_regions_under_four_lanes(rt: HostRuntime) -> Result<(), Fail> {
    assert!(rt; is_right(&rt, rt.alloc(), 2)?);
    Ok(())
}

#[test]
fn three_regions_under_four_lanes(rt: HostRuntime) -> Result<(), Fail> {
    assert!(rt; is_right(&rt, rt.alloc(), 3)?);
    Ok(())
}

#[test]
fn eight_regions_under_four_lanes(rt: HostRuntime) -> Result<(), Fail> {
    assert!(rt; is_right(&rt, rt.alloc(), 8)?);
    Ok(())
}
