//! What is known once a store is closed.

use crate::store::Store;
use crate::view::Place;
use std::snapshot::Snapshot;

/// A store that was closed. Contracts see the store that it was, the published images, the loader's loads and stores,
/// and what each lane used.
#[derive(Drop)]
pub struct Shelf {
    /// The version that was published last.
    pub version: u32,
    pub(crate) store: Snapshot<Store>,
    pub(crate) kept: Snapshot<Place>,
}
