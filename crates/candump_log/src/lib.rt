//! The lines of a log in the format of candump, read as a stream from any source: classic and CAN FD
//! frames, remote and error frames, and bad lines, in flat memory.
//!
//! It builds on `port_io` (sources), `byte_forms` (runs, digits, all lines of bytes) and `bench_model` (keys
//! and names); what decodes a log, splits a feed or judges a recording is above it.
//!
//! The main theorem: over all its calls `Lines::next` gives the lines of the source's bytes in order, each
//! what `line` says of its text, whatever the sizes of the reads; it answers none exactly where the log has
//! ended with all lines given, and a fault only where a read failed or 2^40 bytes were taken, with all whole
//! lines given.
#![tactic(auto)]

mod blanks;
mod digits;
mod frame;
mod held;
mod laws;
mod lines;
mod log_line;
mod payload;
mod place;
mod routing;
mod stamp;
mod steps;

pub use laws::{lines_of_bytes, lines_read, next_with_names, one_line, place_among_names};
pub use lines::{Lines, NoLines};
pub use log_line::{LogLine, Span, interface, line};
pub use payload::Payload;
pub use place::{LinesRefused, Routed};
