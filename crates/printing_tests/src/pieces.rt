//! Logs and sinks in memory, read and written in pieces of some size, of which some fail.
ghost use Rattle.std.specs.Prelude.{◌≡◌, false, IfOk};

use port_io::{MemSink, MemSource, Source};
use std::alloc::Global;
use std::test::Fail;

/// How a log is read and its text written: how many bytes at a time, and which calls fail.
#[derive(Clone, Copy)]
pub(crate) struct Pieces {
    pub read: usize,
    pub failing_reads: &'static [u64],
    pub write: usize,
    pub failing_writes: &'static [u64],
}

pub(crate) const WHOLE: Pieces = Pieces {
    read: 65_536,
    failing_reads: &[],
    write: 1_000_000,
    failing_writes: &[],
};

/// A log in memory that is read so. The sizes are judged here, so that no caller needs a contract.
pub(crate) fn log_of(alloc: Global, log: &[u8], pieces: Pieces) -> Result<MemSource, Fail>
    ensures { IfOk result (λ source. ⟦<MemSource as Source>⟧.ended source ≡ false) }
{
    if pieces.read == 0 {
        return Err("reads of no bytes")?;
    }
    let bytes = Vec::from_slice(alloc, log)?;
    let failing = Vec::from_slice(alloc, pieces.failing_reads)?;
    Ok(MemSource::new(bytes, pieces.read, failing))
}

/// A sink of this room that is written so.
pub(crate) fn sink_of(alloc: Global, pieces: Pieces, room: usize) -> Result<MemSink, Fail> {
    if pieces.write == 0 {
        return Err("writes of no bytes")?;
    }
    let space = vec![in alloc; 0; room]?;
    let failing = Vec::from_slice(alloc, pieces.failing_writes)?;
    Ok(MemSink::new(space, pieces.write, failing))
}
