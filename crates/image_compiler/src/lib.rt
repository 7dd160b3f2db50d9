//! The image of a bench: `compile` writes a bench as a list of words of 64 bits, by which frames are decoded where
//! versions of a bench are exchanged.
//!
//! It builds on `image_words`, which says what bench a list of words encodes and reads such lists, on `bench_model`, and
//! on `exact_scale` and `multiplex_tree` for the values in a bench. What publishes a version of a bench is above it.
//!
//! Main theorem: unless memory runs out, `compile` gives words that encode the bench, exactly as many as the rows, the
//! indexes and the texts of the bench take, or says how many it needs where that is more than the room.
#![tactic(auto)]

mod buses;
mod choices;
mod compiling;
mod parts;
mod refused;
mod signals;
mod texts;

pub use compiling::compile;
pub use refused::CompileRefused;
