//! The database that is made for `mill`, the tool's own workload: 64 messages with the same four signals each.
//!
//! It builds on the crates whose definitions say what a whole and valid file is, `dbc_grammar` and `bench_model` above all, and
//! on their laws.
//!
//! Main theorem: the generated file is a list of whole statements, and its database is valid and the one that is written
//! out here.
#![tactic(auto)]

mod laws;
mod text;

pub use laws::the_generated_text_is_whole;
pub use text::generated_text;
