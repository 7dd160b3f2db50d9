//! The log that is made for `mill`, the tool's own workload, piece by piece: frames on one CAN bus whose identifiers and bytes
//! follow from a generator of numbers.
//!
//! It builds on `byte_forms` (hexadecimal digits) and on the digits of `exact_scale`; `bench_mill` makes a piece, decodes its
//! lines and makes the next one, in memory that does not grow with the log.
//!
//! Main theorem: `push_frames` appends exactly the lines of the frames asked for and answers the number that the next piece
//! begins with, so pieces one behind another are the whole log.
#![tactic(auto)]

mod digits;
mod frames;
mod laws;

pub use frames::{FIRST_ID, push_frames};
pub use laws::pieces_are_the_log;

#[cfg(test)]
mod tests;
