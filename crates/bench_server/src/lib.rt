//! The server's top calls, of which this version has one: `run_tool`, which does what the program does for the words
//! of its command line.
//!
//! `tool_words` says which command they are; `bench_inputs` opens and reads the files of a bench, `bench_loader` judges
//! its databases, `bench_text` prints its buses, each from its log, and `bench_mill` runs the tool's own workload. Here the
//! phases follow one another, and each way in which they end is a `Status` with a line on the error output. The program
//! `sigserve` hands it the real files and streams.
//!
//! Main theorem: where the library shows its files, `run_tool` has on Ok appended to its output exactly the tool's
//! text, a function of its words and of the bytes of the files, and every other status but out of memory has its cause.
#![tactic(auto)]

mod checking;
mod decoding;
mod ended;
mod laws;
mod milling;
mod pieces;
mod refused;
mod report;
mod status;
mod tool;

pub use laws::{a_run_without_faults_is_whole, one_end};
pub use status::Status;
pub use tool::{Ran, run_tool};
