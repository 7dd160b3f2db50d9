//! Why wants are refused, and why an item was not printed.

use port_io::Failed;
use std::alloc::AllocError;
use thiserror::Error;

/// Why a text of wants is refused.
#[derive(Clone, Copy, Debug, PartialEq, Eq, Error)]
pub enum WantsFault {
    /// The line of this number, from 1, is no want; nor is it a first line that names a format.
    #[error("line {n} is no want")]
    Line { n: u64 },
    /// The line of this number, from 1, names a bus that is not there.
    #[error("line {n} names an unknown bus")]
    UnknownBus { n: u64 },
    #[error("out of memory")]
    Memory,
}

impl From<AllocError> for WantsFault {
    ghost use Rattle.std.specs.Prelude.{◌≡◌};
    ghost use Rattle.subscriber_text.specs.declared.fault.WantsFault.TheVariants as faults;

    ghost from_gives = { λ _ fault. fault ≡ faults.Memory };

    fn from(_: AllocError) -> WantsFault {
        WantsFault::Memory
    }
}

/// Why an item or a header was not printed.
#[derive(Clone, Copy, Debug, PartialEq, Eq, Error)]
pub enum PrintRefused {
    /// The sink failed; a prefix of the text was written.
    #[error("the text could not be written")]
    WriteFault,
    /// Nothing was written.
    #[error("out of memory")]
    Memory,
}

impl From<AllocError> for PrintRefused {
    ghost use Rattle.std.specs.Prelude.{◌≡◌};
    ghost use Rattle.subscriber_text.specs.declared.fault.PrintRefused.TheVariants as refusals;

    ghost from_gives = { λ _ refused. refused ≡ refusals.Memory };

    fn from(_: AllocError) -> PrintRefused {
        PrintRefused::Memory
    }
}

impl From<Failed> for PrintRefused {
    ghost use Rattle.std.specs.Prelude.{◌≡◌};
    ghost use Rattle.subscriber_text.specs.declared.fault.PrintRefused.TheVariants as refusals;

    ghost from_gives = { λ _ refused. refused ≡ refusals.WriteFault };

    fn from(_: Failed) -> PrintRefused {
        PrintRefused::WriteFault
    }
}
