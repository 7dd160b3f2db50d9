//! The outside of the signal server as traits: a source gives bytes, a sink takes them, a library
//! opens files by name. It builds on std and `thiserror` alone; `bench_server` reads files and writes
//! text through it, and `sigserve` gives it the real ones.
//!
//! Each trait says which bytes a call moved and counts the calls that failed, so that what a layer
//! above answers can be traced to the outside: a call answers `Failed` only where its object's
//! count rose. Objects in memory show their bytes, and fail exactly at the calls that their maker
//! lists, for names that are missing, and where no room is left; files and streams of the system
//! show none.
//!
//! The main theorem: `read_whole` answers Ok, where the library shows its files, with the named
//! file's bytes and no others, `Open` and `Read` only where the library's own count of such faults
//! rose, and `Long` exactly where more than the limit was taken; out of memory alone may come at
//! any time.
//!
//! The member `other` of sources and sinks is for the two ends of a connection, which are to come.
#![tactic(auto)]

mod counts;
mod library;
mod memory_calls;
mod memory_library;
mod memory_log;
mod memory_sink;
mod memory_source;
mod piece;
mod progress;
mod real_files;
mod real_streams;
mod sink;
mod source;
mod whole;

pub use library::Library;
pub use memory_library::{MemFile, MemLibrary};
pub use memory_log::MemLog;
pub use memory_sink::MemSink;
pub use memory_source::MemSource;
pub use piece::write_piece;
pub use real_files::{FileLibrary, FileSource};
pub use real_streams::{ErrSink, OutSink};
pub use sink::Sink;
pub use source::{Failed, Source};
pub use whole::{WholeRefused, read_whole};
