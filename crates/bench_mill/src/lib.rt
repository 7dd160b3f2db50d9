//! The run of `mill`, the tool's own workload: the generated log of so many frames, decoded over an image of the generated
//! database, as three numbers.
//!
//! `mill_database` gives the text of the database, which `dbc_grammar` reads and `image_compiler` makes an image of; `mill_log`
//! makes the log piece by piece, `byte_forms` and `candump_log` read its lines, and `image_words` gives the meaning of each
//! frame. What prints the three lines lies above this crate.
//!
//! Main theorem: unless memory runs out, `mill` answers how many frames of the log a message matches, how many signals they
//! have, and the sum of their raw values, all by the plain meaning of the log's lines; and a law says that these lines are the
//! frames of the generator, each of a message with four signals.
#![tactic(auto)]

mod image;
mod laws;
mod run;
mod text;
mod totals;

pub use laws::the_log_is_the_frames_of_the_generator;
pub use run::mill;
pub use text::append_totals;
pub use totals::Totals;

#[cfg(test)]
mod tests;
