//! A sink in memory.
ghost use Rattle.std.specs.Prelude.{◌≡◌, ◌<◌, ◌≤◌, length, Some, vec_len};
ghost use Rattle.port_io.specs.Causes.{HasCause};
ghost use Rattle.port_io.specs.OtherSide.{no_other_side};
ghost use Rattle.port_io.specs.Sink.{TakesSome, Writes};
ghost use Rattle.port_io.specs.MemoryWriter.{unwritten, WritesMemory};

use crate::counts::raise;
use crate::memory_calls::{is_failing, write_over};
use crate::{Failed, Sink};

/// A sink that writes over bytes in memory.
#[derive(Drop)]
pub struct MemSink {
    room: Vec<u8>,
    step: usize,
    fails: Vec<u64>,
    place: usize,
    calls: u64,
    faults: u64,
    ghost within: { place ≤ length room.items },
    ghost steps: { 1 ≤ step },
}

impl MemSink {
    ghost use Rattle.port_io.specs.MemSink.{writer_of};

    /// A sink that writes over the bytes of `room` from the first on, at most `step` a write. It
    /// fails at the writes whose numbers, from 0, are in `fails`, and where no byte of the room is
    /// left.
    pub fn new(room: Vec<u8>, step: usize, fails: Vec<u64>) -> MemSink
        requires { 1 ≤ step }
        ensures { writer_of result ≡ unwritten (length room.items) step fails.items }
    {
        MemSink {
            room,
            step,
            fails,
            place: 0,
            calls: 0,
            faults: 0,
        }
    }

    /// The bytes written so far.
    pub fn bytes(&self) -> &[u8]
        ensures { result.now ≡ (writer_of self.now).written }
    {
        &self.room[..self.place]
    }
}

impl Sink for MemSink {
    ghost use Rattle.port_io.specs.MemSink.{writer_of};

    ghost written = { λ s. Some (writer_of s).written };

    ghost write_faults = { λ s. (writer_of s).faults };

    ghost other = { λ _. no_other_side };

    fn write(&mut self, piece: &[u8]) -> Result<usize, Failed>
        requires { 0 < length piece.now }

        ensures count { TakesSome result piece.now }
        ensures written { Writes (Some (writer_of self.old).written)
            (Some (writer_of self.new).written) result piece.now }
        ensures cause { HasCause (writer_of self.old).faults (writer_of self.new).faults result }
        ensures exact { WritesMemory (writer_of self.old) (writer_of self.new) result piece.now }
    {
        let failing = is_failing(&mut self.calls, &self.fails);
        if failing || self.place == self.room.len() {
            raise(&mut self.faults);
            return Err(Failed);
        }
        let count = write_over(&mut self.room, self.place, piece, self.step);
        self.place += count;
        Ok(count)
    }
}
