//! The machine of the regions, pure: one loader writes images into regions and publishes them, while lanes
//! announce an epoch in their pins and read. It is epoch-based reclamation after Fraser ("Practical lock-freedom", 2004): a
//! region is written again only when no lane can still hold it.
//!
//! It builds on std alone and starts no thread. The store of the regions, `region_store`, shows a state of this
//! machine, and each of its atomic steps is proved by the step of the same kind here.
//!
//! Why a pin of 0, or one above the retirement's epoch plus 1, clears a lane for a region. A lane stores its pin
//! before it loads the published word, and lets go by storing 0. Found 0 after the region was retired, the pin
//! says that the lane holds nothing now; when it loads the published word again, the region is not named there.
//! A pin of `e + 1` says that the lane had loaded epoch `e` before. The loader stores the epoch after a
//! retirement at `t` only once the published word names another region, so a lane that loaded an epoch above `t`
//! loaded the published word later still, and found another region. A lane that loaded `t` itself may have
//! loaded the published word before the retirement: its pin `t + 1` clears nothing. The epoch that a lane loaded
//! may be old when it stores its pin, but never newer than the one stored, so an old one only delays the region.
//! One grace of this kind is enough, since no lane reads a region but by the published word that it loaded after
//! its pin was stored.
//!
//! Main theorem: after every list of steps, each of which the machine allowed, the region that a lane holds
//! begins with the image of the version that it holds, and none of its words is stored.
#![tactic(auto)]

mod lane;
mod laws;
mod list;
mod start;
mod state;
mod step;
mod take;

pub use lane::LaneState;
pub use laws::{
    a_held_image_stays_whole, a_held_region_is_not_stored, a_lane_never_goes_back,
    a_region_not_retired_was_never_published, a_version_never_goes_down,
    the_published_region_holds_the_last_image, the_rule_holds_in_every_schedule,
};
pub use list::List;
pub use state::State;
pub use step::Step;
