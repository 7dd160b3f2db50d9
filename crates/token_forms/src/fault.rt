//! Why a signed number gives no decimal, or two of them no scale.
ghost use Rattle.std.specs.Prelude.{◌≡◌};
ghost use Rattle.token_forms.specs.declared.fault.NumberFault.TheVariants.{Memory};

use std::alloc::{AllocError, AllocFailed};
use thiserror::Error;

/// Why a signed number gives no decimal, or a factor and an offset no scale. A signed number among the tokens of a text
/// is always a decimal text, so that no other cause comes of one.
#[derive(Clone, Copy, Debug, PartialEq, Eq, Error)]
pub enum NumberFault {
    /// No decimal or no scale within the limits is theirs: thirty places, and numerators below `2^62`.
    #[error("a decimal number past the limits")]
    Wide,
    #[error("out of memory")]
    Memory,
}

impl<T: Drop> From<AllocFailed<T>> for NumberFault {
    ghost from_gives = { λ _ fault. fault ≡ Memory };

    fn from(_failed: AllocFailed<T>) -> NumberFault {
        NumberFault::Memory
    }
}

impl From<AllocError> for NumberFault {
    ghost from_gives = { λ _ fault. fault ≡ Memory };

    fn from(_error: AllocError) -> NumberFault {
        NumberFault::Memory
    }
}
