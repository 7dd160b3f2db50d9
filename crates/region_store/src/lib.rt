//! A store of versions: a loader writes images into regions that are used again, while lanes read the published
//! image without waiting, each under a pin.
//!
//! It builds on the kit's `atomic_table`, whose words are the published word, the epoch, the pins and the regions,
//! on `epoch_core`, a state of whose machine the table shows, and on `image_words` and `bench_model`, which say what
//! an image is. A version is read through `Words`.
//!
//! Main theorem: whatever the loader and the other lanes do in between, the words that a lane reads under one pin
//! are words of one image that fits all of them, the last one published when the pin was made; and a publication adds
//! one whole image, the next version, or is refused with its reason.
#![tactic(auto)]

mod closing;
mod finding;
mod lane;
mod laws;
mod layout;
mod loader;
mod making;
mod pinned;
mod pinning;
mod plays;
mod publishing;
mod shelf;
mod steps;
mod store;
mod view;
mod writing;

pub use lane::LaneSeat;
pub use laws::the_image_of_a_use_fits;
pub use loader::{Holder, Holders, LoaderSeat, PublishRefused};
pub use pinned::Pinned;
pub use shelf::Shelf;
pub use store::Store;
pub use view::{Did, LaneView, LoaderView, Read, Shape, Use, View};
