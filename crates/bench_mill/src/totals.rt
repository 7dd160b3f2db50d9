//! The three numbers of a decoded log.

ghost use Rattle.std.specs.Prelude.{◌≡◌};
ghost use Rattle.bench_mill.specs.Totals.{none, IsMessageMore, IsValueMore};

use image_words::{ValueBuffer, Visit};
use std::alloc::AllocError;

/// How many frames a message matched, how many signals they have, and the sum of their raw values.
#[derive(Clone, Copy, Debug, PartialEq, Eq)]
pub struct Totals {
    pub frames: u64,
    pub signals: u64,
    pub sum: i128,
}

impl Totals {
    /// Those of no frame.
    pub(crate) fn none() -> Totals
        ensures { result ≡ none }
    {
        Totals {
            frames: 0,
            signals: 0,
            sum: 0,
        }
    }
}

/// A number that does not fit is answered as out of memory.
impl Visit for Totals {
    ghost names = { λ old name new. IsMessageMore old new };

    ghost takes = { λ old value new. IsValueMore old value new };

    fn message(&mut self, _name: &[u8]) -> Result<(), AllocError> {
        let Some(frames) = self.frames.checked_add(1) else {
            return Err(AllocError);
        };
        self.frames = frames;
        Ok(())
    }

    fn signal(&mut self, value: &ValueBuffer) -> Result<(), AllocError> {
        let Some(signals) = self.signals.checked_add(1) else {
            return Err(AllocError);
        };
        let Some(sum) = self.sum.checked_add(value.raw) else {
            return Err(AllocError);
        };
        self.signals = signals;
        self.sum = sum;
        Ok(())
    }
}
