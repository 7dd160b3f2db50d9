//! How far reads over bytes in memory have come: what a source that owns its bytes shares with a
//! log that borrows them.
ghost use Rattle.std.specs.Prelude.{◌≡◌, ◌<◌, ◌≤◌, length, false};
ghost use Rattle.std.specs.Io.{ReadsAtMost};
ghost use Rattle.port_io.specs.Source.{ReadsFrom, SaysEnd, Takes};
ghost use Rattle.port_io.specs.MemoryReader.{bytes_left, bytes_taken, ReadsMemory};

use crate::Failed;
use crate::counts::raise;
use crate::memory_calls::{copy_some, is_failing};

/// How far reads over some bytes have come.
#[derive(Drop)]
pub(crate) struct Progress {
    place: usize,
    calls: u64,
    faults: u64,
    ended: bool,
}

impl Progress {
    ghost use Rattle.port_io.specs.Progress.{reader};

    /// No read was made yet.
    pub(crate) fn new() -> Progress
        ensures { result ≡ record { place = 0; calls = 0; faults = 0; ended = false } }
    {
        Progress {
            place: 0,
            calls: 0,
            faults: 0,
            ended: false,
        }
    }

    /// One read over these bytes.
    pub(crate) fn read(
        &mut self,
        bytes: &[u8],
        step: usize,
        fails: &[u64],
        buf: &mut [u8],
    ) -> Result<usize, Failed>
        requires within { self.old.place ≤ length bytes.now }
        requires steps { 1 ≤ step }
        requires room { 0 < length buf.old }

        ensures within { self.new.place ≤ length bytes.now }
        ensures bound { ReadsAtMost result buf.new }
        ensures left { ReadsFrom (bytes_left (reader bytes.now step fails.now self.old))
            (bytes_left (reader bytes.now step fails.now self.new)) result buf.new }
        ensures end { SaysEnd (bytes_left (reader bytes.now step fails.now self.old)) result }
        ensures taken { Takes (bytes_taken (reader bytes.now step fails.now self.old))
            (bytes_taken (reader bytes.now step fails.now self.new)) result buf.new }
        ensures exact { ReadsMemory (reader bytes.now step fails.now self.old)
            (reader bytes.now step fails.now self.new) result buf.new }
    {
        if is_failing(&mut self.calls, fails) {
            raise(&mut self.faults);
            return Err(Failed);
        }
        let count = copy_some(&bytes[self.place..], step, buf);
        self.place += count;
        self.ended = self.ended || count == 0;
        Ok(count)
    }
}
