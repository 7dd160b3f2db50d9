//! A lane's seat.
ghost use Rattle.std.specs.Prelude.{◌≡◌, ◌<◌};
ghost use Rattle.region_store.specs.Layout.{most_lanes};
ghost use Rattle.region_store.specs.Store.{LaneRests};

use crate::view::Place;

/// The right to act as one of the lanes of a store.
#[derive(Drop)]
pub struct LaneSeat {
    pub(crate) seat: Place,
    pub(crate) lane: u32,
    ghost rests: { LaneRests lane seat.me.0 },
    ghost low: { lane < most_lanes },
}

impl LaneSeat {
    /// Which lane it is.
    pub fn lane(&self) -> u32
        ensures { result ≡ self.now.lane }
    {
        self.lane
    }
}
