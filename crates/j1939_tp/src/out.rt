//! What a frame brings.

use bench_model::{CutCause, Text};

/// What a frame brings: a message or the end of a session, named by its parameter group number, its source
/// address and its destination address.
#[derive(Debug, Drop)]
pub enum TpOut {
    Nothing,
    /// A message came whole.
    Whole {
        pgn: u32,
        sa: u8,
        da: u8,
        bytes: Text,
    },
    /// A session was broken off.
    Cut {
        pgn: u32,
        sa: u8,
        da: u8,
        cause: CutCause,
    },
}
