//! A log over a file in memory, whose bytes and failing reads it borrows.
ghost use Rattle.std.specs.Prelude.{◌≡◌, ◌<◌, ◌≤◌, length, refl};
ghost use Rattle.std.specs.Io.{ReadsAtMost};
ghost use Rattle.port_io.specs.Causes.{HasCause};
ghost use Rattle.port_io.specs.OtherSide.{no_other_side};
ghost use Rattle.port_io.specs.Source.{ReadsFrom, SaysEnd, Takes, ended_after};
ghost use Rattle.port_io.specs.MemoryReader.{bytes_left, bytes_taken, ReadsMemory};

use crate::memory_library::MemFile;
use crate::progress::Progress;
use crate::{Failed, Source};

/// A log over a file in memory.
#[derive(Drop)]
pub struct MemLog<'a> {
    content: &'a [u8],
    step: usize,
    fails: &'a [u64],
    progress: Progress,
    ghost within: { progress.place ≤ length content.now },
    ghost steps: { 1 ≤ step },
}

impl<'a> MemLog<'a> {
    ghost use Rattle.port_io.specs.MemLog.{reader_of};
    ghost use Rattle.port_io.specs.MemFile.{unread_file};

    /// A log over this file, of which nothing was read.
    pub(crate) fn new(file: &'a MemFile) -> MemLog<'a>
        ensures { reader_of result ≡ unread_file file.now }
    {
        MemLog {
            content: &file.content,
            step: file.step,
            fails: &file.fails,
            progress: Progress::new(),
        }
    }
}

impl Source for MemLog<'_> {
    ghost use Rattle.port_io.specs.MemLog.{reader_of};

    ghost left = { λ s. bytes_left (reader_of s) };

    ghost taken = { λ s. bytes_taken (reader_of s) };

    ghost read_faults = { λ s. (reader_of s).faults };

    ghost ended = { λ s. (reader_of s).ended };

    ghost other = { λ _. no_other_side };

    ghost known_alike = { λ _. refl };

    fn read(&mut self, buf: &mut [u8]) -> Result<usize, Failed>
        requires { 0 < length buf.old }

        ensures bound { ReadsAtMost result buf.new }
        ensures left { ReadsFrom (bytes_left (reader_of self.old))
            (bytes_left (reader_of self.new)) result buf.new }
        ensures end { SaysEnd (bytes_left (reader_of self.old)) result }
        ensures taken { Takes (bytes_taken (reader_of self.old))
            (bytes_taken (reader_of self.new)) result buf.new }
        ensures ended { (reader_of self.new).ended ≡ ended_after (reader_of self.old).ended result }
        ensures cause { HasCause (reader_of self.old).faults (reader_of self.new).faults result }
        ensures exact { ReadsMemory (reader_of self.old) (reader_of self.new) result buf.new }
    {
        self.progress.read(self.content, self.step, self.fails, buf)
    }
}
