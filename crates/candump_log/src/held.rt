//! The bytes that a reader of lines holds: those of its buffer between two places.
ghost use Rattle.std.specs.Prelude.{◌≡◌, ◌<◌, ◌≤◌, [], length, drop, IfOk};
ghost use Rattle.port_io.specs.OtherSide.{OtherSide};
ghost use Rattle.candump_log.specs.LinesState.{source_state};
ghost use Rattle.candump_log.specs.Steps.{ReadsInto};

use port_io::{Failed, Source};
use std::alloc::{AllocError, Global};
use std::marker::Model;

/// The most bytes that one read asks for.
pub(crate) const CHUNK: usize = 65_536;
/// How many bytes the buffer has: room for a line and for a read.
const ROOM: usize = 66_048;

/// The bytes of a buffer from `low` up to `high`.
#[derive(Drop)]
pub(crate) struct Held {
    buffer: Vec<u8>,
    low: usize,
    high: usize,
}

impl Model for Held {
    ghost use Rattle.std.specs.Prelude.{ℕ, List, ◌≡◌, ◌≤◌, slice_range, vec_len};

    ghost Value = { List ℕ };

    ghost view = { λ h. slice_range h.buffer.items h.low h.high };

    ghost invariant = { λ h. (h.low ≤ h.high) × (h.high ≤ 66048) × (vec_len h.buffer ≡ 66048) };
}

impl Held {
    /// Nothing is held. All memory is taken here.
    pub(crate) fn new(alloc: Global) -> Result<Held, AllocError>
        ensures { IfOk result (λ held. held ≡ []) }
    {
        Ok(Held {
            buffer: vec![in alloc; 0u8; ROOM]?,
            low: 0,
            high: 0,
        })
    }

    /// The bytes held.
    pub(crate) fn bytes(&self) -> &[u8]
        ensures { result.now ≡ self.now }
    {
        &self.buffer[self.low..self.high]
    }

    /// Lets the first bytes go.
    pub(crate) fn pass(&mut self, count: usize)
        requires { count ≤ length self.old }
        ensures { self.new ≡ drop count self.old }
    {
        self.low += count;
    }

    /// Lets all bytes go.
    pub(crate) fn clear(&mut self)
        ensures { self.new ≡ [] }
    {
        self.low = 0;
        self.high = 0;
    }

    /// Moves the bytes held to the front of the buffer, and reads `most` bytes at most behind them.
    pub(crate) fn read_from<S: Source>(
        &mut self,
        source: &mut S,
        most: usize,
    ) -> Result<usize, Failed>
        requires short { length self.old ≤ 512 }
        requires some { 0 < most }
        requires most { most ≤ 65536 }

        ensures read { ReadsInto
            (source_state (S.left source.old) (S.taken source.old) (S.read_faults source.old) (S.ended source.old))
            self.old result
            (source_state (S.left source.new) (S.taken source.new) (S.read_faults source.new) (S.ended source.new))
            self.new }
        ensures count { IfOk result (λ n. n ≤ most) }
        ensures other { S.other source.new ≡ S.other source.old }
    {
        let (low, end) = (self.low, self.high);
        self.buffer.copy_within(low..end, 0);
        let high = end - low;
        self.low = 0;
        self.high = high;
        let count = source.read(&mut self.buffer[high..high + most])?;
        self.high = high + count;
        Ok(count)
    }
}
