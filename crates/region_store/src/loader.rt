//! The loader's seat, and what a publication is refused with.
ghost use Rattle.std.specs.Prelude.{◌≡◌, length};
ghost use Rattle.region_store.specs.Store.{LoaderRests};

use crate::view::Place;
use arrayvec::ArrayVec;
use thiserror::Error;

/// The right to publish into a store.
#[derive(Drop)]
pub struct LoaderSeat {
    pub(crate) seat: Place,
    pub(crate) version: u32,
    pub(crate) region: u32,
    // by region, the epoch at which it was retired
    pub(crate) retired: Vec<Option<u64>>,
    ghost rests: { LoaderRests version region seat.me.0 },
    ghost retired_is: { retired.items ≡ seat.me.0.loader.retired },
    ghost each_region: { length retired.items ≡ seat.me.0.shape.regions },
}

/// A lane that may hold a region that was retired: its pin is 1 or more, and at most one above the epoch of the
/// retirement.
#[derive(Clone, Copy, Debug, Default, PartialEq, Eq)]
pub struct Holder {
    pub region: u32,
    pub lane: u32,
    pub pin: u64,
}

pub(crate) const MOST_REGIONS: usize = 8;

/// A lane for each region that cannot be written.
#[derive(Debug, Drop)]
pub struct Holders {
    pub(crate) each: ArrayVec<Holder, MOST_REGIONS>,
}

impl Holders {
    /// One lane for each region but the published one, in order of regions.
    pub fn list(&self) -> &[Holder]
        ensures { result.now ≡ self.now.each.items }
    {
        self.each.as_slice()
    }
}

/// Why an image was not published.
#[derive(Debug, Drop, Error)]
pub enum PublishRefused {
    /// The published version is the last one.
    #[error("the last version is published")]
    VersionsSpent,
    /// Each region but the published one may be held by a lane.
    #[error("each region may be held by a lane")]
    Busy { holders: Holders },
}
