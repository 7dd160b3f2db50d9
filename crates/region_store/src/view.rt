//! What the seats of a store know, each of its own steps. No value of these types but `About` and `Shape` is
//! made: they occur in contracts alone.

use atomic_table::{Seat, Table, TableRule};
use epoch_core::LaneState;
use std::alloc::Global;
use std::collections::LinkedList;
use std::snapshot::Snapshot;

/// A load or a store of one of the words of a store, by the word's place.
pub enum Did {
    Loaded { word: u64, value: u64 },
    Stored { word: u64, value: u64 },
}

/// A word of an image, by its place in the image.
pub struct Read {
    pub at: u64,
    pub word: u64,
}

/// A pin: the version that was found published, the length of its image, for how many lines it was made, and
/// the words that were read under it, the last one first.
pub struct Use {
    pub version: u64,
    pub size: u64,
    pub lines: u64,
    pub words: LinkedList<Read>,
}

/// The numbers with which a store is made, and the number of buses of its images.
#[derive(Clone, Copy, Debug)]
pub struct Shape {
    pub regions: u64,
    pub lanes: u64,
    pub room: u64,
    pub buses: u64,
}

/// What a lane knows.
pub struct LaneView {
    pub lane: u64,
    pub state: LaneState,
    /// The pins that it let go.
    pub used: LinkedList<Use>,
    /// The pin that it has.
    pub held: Option<Use>,
    pub steps: LinkedList<Did>,
}

/// What the loader knows.
pub struct LoaderView {
    /// All published images, by version.
    pub images: LinkedList<LinkedList<u64>>,
    /// What it has written of the next one, and where.
    pub draft: LinkedList<u64>,
    pub writing: Option<u64>,
    pub epoch: u64,
    pub version: u64,
    pub region: u64,
    /// By region, the epoch at which it was retired.
    pub retired: LinkedList<Option<u64>>,
    /// By region and lane, whether the lane cannot hold the region.
    pub cleared: LinkedList<LinkedList<bool>>,
    /// How many lanes were split off.
    pub made: u64,
    /// The lanes that were joined again, in the order in which they were.
    pub kept: LinkedList<LaneView>,
    pub steps: LinkedList<Did>,
}

/// What a seat knows, and whether it is the loader's or a lane's.
pub struct View {
    pub is_loader: bool,
    pub is_lane: bool,
    pub shape: Shape,
    pub loader: LoaderView,
    pub lane: LaneView,
}

/// What the rule of a store is given: its numbers, and the first image.
#[derive(Drop)]
pub struct About {
    pub shape: Shape,
    pub first: Snapshot<Vec<u64>>,
}

/// The rule of a store.
pub struct Regions;

impl TableRule<(), View, About> for Regions {
    ghost use Rattle.region_store.specs.Rule.{Kept, first_view};

    ghost holds = { λ about. Kept about.shape about.first.value.items };

    ghost first = { λ about. first_view about.shape about.first.value.items };
}

pub(crate) type Regioned = Table<(), View, About, Regions, Global>;

pub(crate) type Place = Seat<(), View>;
