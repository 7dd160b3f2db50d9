//! The tests of what people write: tokens, DBC and LDF files, and bench files.
//!
//! They show what no clause shows: that calls succeed with ample memory, and that texts worked out by hand, and files as
//! other tools write them, mean what their formats say. They are a crate of their own, above `sig_text`, `token_forms`,
//! `dbc_grammar`, `ldf_grammar` and `bench_file`, so that the proof of a library is not made once more with its tests.
#![tactic(auto)]

#[cfg(test)]
mod dbc;
#[cfg(test)]
mod forms;
#[cfg(test)]
mod ldf;
#[cfg(test)]
mod plans;
#[cfg(test)]
mod tokens;
