//! A source in memory that owns its bytes.
ghost use Rattle.std.specs.Prelude.{◌≡◌, ◌<◌, ◌≤◌, length, refl};
ghost use Rattle.std.specs.Io.{ReadsAtMost};
ghost use Rattle.port_io.specs.Causes.{HasCause};
ghost use Rattle.port_io.specs.OtherSide.{no_other_side};
ghost use Rattle.port_io.specs.Source.{ReadsFrom, SaysEnd, Takes, ended_after};
ghost use Rattle.port_io.specs.MemoryReader.{unread, bytes_left, bytes_taken, ReadsMemory};

use crate::progress::Progress;
use crate::{Failed, Source};

/// A source over bytes in memory.
#[derive(Drop)]
pub struct MemSource {
    bytes: Vec<u8>,
    step: usize,
    fails: Vec<u64>,
    progress: Progress,
    ghost within: { progress.place ≤ length bytes.items },
    ghost steps: { 1 ≤ step },
}

impl MemSource {
    ghost use Rattle.port_io.specs.MemSource.{reader_of};

    /// A source that gives these bytes, at most `step` a read, and fails at the reads whose
    /// numbers, from 0, are in `fails`.
    pub fn new(bytes: Vec<u8>, step: usize, fails: Vec<u64>) -> MemSource
        requires { 1 ≤ step }
        ensures { reader_of result ≡ unread bytes.items step fails.items }
    {
        MemSource {
            bytes,
            step,
            fails,
            progress: Progress::new(),
        }
    }
}

impl Source for MemSource {
    ghost use Rattle.port_io.specs.MemSource.{reader_of};

    ghost left = { λ s. bytes_left (reader_of s) };

    ghost taken = { λ s. bytes_taken (reader_of s) };

    ghost read_faults = { λ s. (reader_of s).faults };

    ghost ended = { λ s. (reader_of s).ended };

    ghost other = { λ _. no_other_side };

    ghost known_alike = { λ _. refl };

    fn read(&mut self, buf: &mut [u8]) -> Result<usize, Failed>
        requires { 0 < length buf.old }

        ensures bound { ReadsAtMost result buf.new }
        ensures left { ReadsFrom (bytes_left (reader_of self.old))
            (bytes_left (reader_of self.new)) result buf.new }
        ensures end { SaysEnd (bytes_left (reader_of self.old)) result }
        ensures taken { Takes (bytes_taken (reader_of self.old))
            (bytes_taken (reader_of self.new)) result buf.new }
        ensures ended { (reader_of self.new).ended ≡ ended_after (reader_of self.old).ended result }
        ensures cause { HasCause (reader_of self.old).faults (reader_of self.new).faults result }
        ensures exact { ReadsMemory (reader_of self.old) (reader_of self.new) result buf.new }
    {
        self.progress.read(&self.bytes, self.step, &self.fails, buf)
    }
}
