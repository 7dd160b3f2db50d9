//! Why a text has no tokens.
ghost use Rattle.std.specs.Prelude.{◌≡◌};
ghost use Rattle.sig_text.specs.declared.fault.LexFault.TheVariants.{Memory};

use std::alloc::AllocFailed;
use thiserror::Error;

/// A lexical fault, with the place of the byte at which it begins, or out of memory.
#[derive(Clone, Copy, Debug, PartialEq, Eq, Error)]
pub enum LexFault {
    /// A `"` without an end.
    #[error("the string at byte {at} has no end")]
    OpenString { at: usize },
    /// A `/*` without an end.
    #[error("the comment at byte {at} has no end")]
    OpenComment { at: usize },
    /// A byte at which no token, blank or comment begins.
    #[error("byte {at} begins no token")]
    Byte { at: usize },
    #[error("out of memory")]
    Memory,
}

impl<T: Drop> From<AllocFailed<T>> for LexFault {
    ghost from_gives = { λ _ fault. fault ≡ Memory };

    fn from(_failed: AllocFailed<T>) -> LexFault {
        LexFault::Memory
    }
}
