//! What gives bytes: a log, a file or one end of a link.
ghost use Rattle.std.specs.Prelude.{◌≡◌, ◌<◌, List, ℕ, Bool, Option, length, is_some};
ghost use Rattle.std.specs.Io.{ReadsAtMost};
ghost use Rattle.port_io.specs.Causes.{HasCause};
ghost use Rattle.port_io.specs.OtherSide.{OtherSide};
ghost use Rattle.port_io.specs.Source.{ReadsFrom, SaysEnd, Takes, ended_after};

use thiserror::Error;

/// A call of the outside did not do its work. The object's count of faults rose in that call.
#[derive(Clone, Copy, Debug, PartialEq, Eq, Error)]
#[error("the outside failed")]
pub struct Failed;

/// A source of bytes, read in order from the first to the last.
pub trait Source {
    /// The bytes that reads have not given yet, or `None` where the source does not show them.
    ghost left: { Self → Option (List ℕ) };

    /// The bytes that reads have given, in order. They are known exactly where those left are.
    ghost taken: { Self → Option (List ℕ) };

    /// How many reads have failed. At `2^64 - 1` the count stays as it is.
    ghost read_faults: { Self → ℕ };

    /// Whether a read has answered `Ok(0)`.
    ghost ended: { Self → Bool };

    /// What is on the source's other side, which no read changes.
    ghost other: { Self → OtherSide };

    /// Reads some of the bytes left into the front of `buf`, and answers how many. `Ok(0)` says
    /// that none are left. The bytes of `buf` past that number may be any. After `Failed` none were
    /// taken.
    fn read(&mut self, buf: &mut [u8]) -> Result<usize, Failed>
        requires { 0 < length buf.old }

        ensures bound { ReadsAtMost result buf.new }
        ensures left { ReadsFrom (left self.old) (left self.new) result buf.new }
        ensures end { SaysEnd (left self.old) result }
        ensures taken { Takes (taken self.old) (taken self.new) result buf.new }
        ensures ended { ended self.new ≡ ended_after (ended self.old) result }

        ensures cause { HasCause (read_faults self.old) (read_faults self.new) result }
        ensures other { other self.new ≡ other self.old };

    /// The bytes taken are known exactly where the bytes left are.
    ghost known_alike: { (s : Self) → is_some (taken s) ≡ is_some (left s) };
}
