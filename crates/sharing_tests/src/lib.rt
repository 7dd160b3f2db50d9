//! The tests of what threads share: the machine of the regions, stores of versions, and rings that state their gaps.
//!
//! They show what no clause shows: runs worked out by hand, and that threads at work see whole versions and lose no
//! record unsaid. They are a crate of their own, above `epoch_core`, `region_store` and `gap_ring`, so that the proof of
//! a library is not made once more with its tests.
#![tactic(auto)]

#[cfg(test)]
mod epochs;
#[cfg(test)]
mod rings;
#[cfg(test)]
mod stores;
