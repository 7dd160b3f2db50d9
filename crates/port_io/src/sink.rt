//! What takes bytes: an output or one end of a link.
ghost use Rattle.std.specs.Prelude.{◌≡◌, ◌<◌, List, ℕ, Option, length};
ghost use Rattle.port_io.specs.Causes.{HasCause};
ghost use Rattle.port_io.specs.OtherSide.{OtherSide};
ghost use Rattle.port_io.specs.Sink.{TakesSome, Writes};

use crate::Failed;

/// A sink of bytes, written in order.
pub trait Sink {
    /// The bytes written so far, or `None` where the sink does not show them.
    ghost written: { Self → Option (List ℕ) };

    /// How many writes have failed. At `2^64 - 1` the count stays as it is.
    ghost write_faults: { Self → ℕ };

    /// What is on the sink's other side, which no write changes.
    ghost other: { Self → OtherSide };

    /// Writes the first bytes of `piece`, one at least, and answers how many. After `Failed` none
    /// were written.
    fn write(&mut self, piece: &[u8]) -> Result<usize, Failed>
        requires { 0 < length piece.now }

        ensures count { TakesSome result piece.now }
        ensures written { Writes (written self.old) (written self.new) result piece.now }

        ensures cause { HasCause (write_faults self.old) (write_faults self.new) result }
        ensures other { other self.new ≡ other self.old };
}
