//! The words of the tool's command line.
//!
//! Words are read by the POSIX utility syntax: a first `--` is dropped and ends the options, of which there are none,
//! and a single `-` is no option. The crate builds on `byte_forms` (numbers) and takes no memory; the top call asks it which
//! command the words name.
//!
//! Main theorem: `command_of` gives a command exactly where the words are those of one.
#![tactic(auto)]

mod command;

pub use command::{Command, command_of, is_ldf_name};

#[cfg(test)]
mod tests;
