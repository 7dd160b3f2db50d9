//! The standard output and error of the process. What was written is not known.
ghost use Rattle.std.specs.Prelude.{◌≡◌, ◌≤◌, length, None, IfOk};
ghost use Rattle.std.specs.Io.KnownBytes.{WriteAppends};
ghost use Rattle.port_io.specs.Causes.{HasCause};
ghost use Rattle.port_io.specs.OtherSide.{no_other_side};
ghost use Rattle.port_io.specs.Sink.{TakesSome};

use crate::counts::raise;
use crate::{Failed, Sink};
use std::io::{Stderr, Stdout, Write};

/// Writes a piece to a stream of the system. Taking nothing of it counts as a fault.
fn write_some<W: Write>(stream: &mut W, piece: &[u8], faults: &mut u64) -> Result<usize, Failed>
    ensures count { TakesSome result piece.now }
    ensures bytes { WriteAppends (W.contents stream.old) (W.contents stream.new) result piece.now }
    ensures cause { HasCause faults.old faults.new result }
{
    match stream.write(piece) {
        Ok(count) if count > 0 => Ok(count),
        _ => {
            raise(faults);
            Err(Failed)
        }
    }
}

/// The standard output.
#[derive(Drop)]
pub struct OutSink {
    stream: Stdout,
    faults: u64,
}

impl OutSink {
    /// The standard output of the process.
    pub fn new(rt: HostRuntime) -> OutSink
        ensures { ⟦<OutSink as Sink>⟧.write_faults result ≡ 0 }
    {
        OutSink {
            stream: rt.stdout(),
            faults: 0,
        }
    }
}

impl Sink for OutSink {
    ghost written = { λ _. None };

    ghost write_faults = { λ s. s.faults };

    ghost other = { λ _. no_other_side };

    fn write(&mut self, piece: &[u8]) -> Result<usize, Failed> {
        write_some(&mut self.stream, piece, &mut self.faults)
    }
}

/// The standard error.
#[derive(Drop)]
pub struct ErrSink {
    stream: Stderr,
    faults: u64,
}

impl ErrSink {
    /// The standard error of the process.
    pub fn new(rt: HostRuntime) -> ErrSink
        ensures { ⟦<ErrSink as Sink>⟧.write_faults result ≡ 0 }
    {
        ErrSink {
            stream: rt.stderr(),
            faults: 0,
        }
    }
}

impl Sink for ErrSink {
    ghost written = { λ _. None };

    ghost write_faults = { λ s. s.faults };

    ghost other = { λ _. no_other_side };

    fn write(&mut self, piece: &[u8]) -> Result<usize, Failed> {
        write_some(&mut self.stream, piece, &mut self.faults)
    }
}
