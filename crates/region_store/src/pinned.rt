//! A pin: a version that is held while its words are read.
ghost use Rattle.std.specs.Prelude.{◌<◌};
ghost use Rattle.region_store.specs.Layout.{most_lanes};
ghost use Rattle.region_store.specs.Store.{IsOn, PinRests};

use crate::store::Store;
use crate::view::Place;

/// A version that a lane holds: no word of its image is stored before it is let go.
#[derive(Drop)]
pub struct Pinned<'a> {
    pub(crate) store: &'a Store,
    pub(crate) seat: Place,
    pub(crate) lane: u32,
    pub(crate) version: u32,
    pub(crate) size: usize,
    // the first word of its image
    pub(crate) start: usize,
    ghost on: { IsOn store.now.table.shared.table_id store.now.table.shared.key seat },
    ghost rests: { PinRests lane version size start seat.me.0 },
    ghost low: { lane < most_lanes },
}
