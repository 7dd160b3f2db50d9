//! What opens files by their names.
ghost use Rattle.std.specs.Prelude.{◌≡◌, ◌<◌, List, ℕ, Bool, Option, None, length, is_ok, IsTrue, IfOk, OnOk};
ghost use Rattle.std.specs.Io.{ReadsAtMost};
ghost use Rattle.port_io.specs.Causes.{HasCause};
ghost use Rattle.port_io.specs.Source.{ReadsFrom, SaysEnd};
ghost use Rattle.port_io.specs.Library.{OpensFile, IsFreshLog, strays_after};

use crate::{Failed, Source};

/// A library of files. One file at a time is begun and read by the library itself; a log is read by
/// a source of its own.
pub trait Library {
    type Log: Source;

    /// The names of the files and their bytes, or `None` where the library does not show them.
    /// No call changes them.
    ghost files: { Self → Option (List (List ℕ × List ℕ)) };

    /// The bytes of the begun file that `more` has not given yet, or `None` where the library does
    /// not show them.
    ghost left: { Self → Option (List ℕ) };

    /// Whether a file is begun.
    ghost begun: { Self → Bool };

    /// How many calls of `begin` and `log` have failed. At `2^64 - 1` the count stays as it is.
    ghost open_faults: { Self → ℕ };

    /// How many calls of `more` have failed. At `2^64 - 1` the count stays as it is.
    ghost more_faults: { Self → ℕ };

    /// How many calls of `begin` and `log` named a file that the known files do not have. At `2^64 -
    /// 1` it stays as it is.
    ghost strays: { Self → ℕ };

    /// Begins the file of that name, and gives up the one before. A name that is not there is a
    /// fault.
    fn begin(&mut self, name: &str) -> Result<(), Failed>
        ensures opened { OnOk result (OpensFile (files self.old) name.now (left self.new)) }
        ensures begun { begun self.new ≡ is_ok result }
        ensures files { files self.new ≡ files self.old }

        ensures cause { HasCause (open_faults self.old) (open_faults self.new) result }
        ensures more_faults { more_faults self.new ≡ more_faults self.old }
        ensures strays { strays self.new
            ≡ strays_after (files self.old) name.now (strays self.old) };

    /// Reads some of the begun file's bytes left into the front of `buf`, as a source does.
    fn more(&mut self, buf: &mut [u8]) -> Result<usize, Failed>
        requires begun { IsTrue (begun self.old) }
        requires room { 0 < length buf.old }

        ensures bound { ReadsAtMost result buf.new }
        ensures left { ReadsFrom (left self.old) (left self.new) result buf.new }
        ensures end { SaysEnd (left self.old) result }
        ensures begun { begun self.new ≡ begun self.old }
        ensures files { files self.new ≡ files self.old }

        ensures cause { HasCause (more_faults self.old) (more_faults self.new) result }
        ensures open_faults { open_faults self.new ≡ open_faults self.old }
        ensures strays { strays self.new ≡ strays self.old };

    /// Opens the file of that name as a source of its own. The begun file stays as it was. A name
    /// that is not there is a fault.
    fn log(&mut self, name: &str) -> Result<Self::Log, Failed>
        ensures opened { IfOk result (λ log. IsFreshLog (files self.old) name.now
            (Self.Log.left log) (Self.Log.taken log)
            (Self.Log.read_faults log) (Self.Log.ended log)) }
        ensures left { left self.new ≡ left self.old }
        ensures begun { begun self.new ≡ begun self.old }
        ensures files { files self.new ≡ files self.old }

        ensures cause { HasCause (open_faults self.old) (open_faults self.new) result }
        ensures more_faults { more_faults self.new ≡ more_faults self.old }
        ensures strays { strays self.new
            ≡ strays_after (files self.old) name.now (strays self.old) };

    /// Where the files are not known, no name is astray.
    ghost unknown_strays: { (library : Self) → files library ≡ None → strays library ≡ 0 };
}
