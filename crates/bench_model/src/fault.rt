//! Why a database is refused.

use crate::{Key, Text};
use std::alloc::AllocError;
use thiserror::Error;

/// Which rule of valid databases is broken, numbered in the order in which `check` names them.
#[derive(Clone, Copy, Debug, PartialEq, Eq, Error)]
pub enum CheckWhy {
    /// A message is longer than 1,785 bytes, or a signal has no bit, more than 64 bits or starts past bit 14,279.
    #[error("a length, a size or a start is out of range")]
    Size = 1,
    /// A message has the identifier of one before it.
    #[error("two messages have this identifier")]
    DuplicateMessage = 2,
    /// A signal has the name of one before it in its message.
    #[error("two signals of the message have this name")]
    DuplicateSignal = 3,
    /// A signal is a floating point number.
    #[error("the signal is a floating point number")]
    Float = 4,
    /// Too many messages, signals, value texts, entries or ranges, or a text of a wrong length.
    #[error("a limit is exceeded")]
    Limit = 5,
}

/// Why a database is not valid.
#[derive(Debug, Drop, Error)]
pub enum CheckFault {
    /// A rule is broken by this signal of this message, by this message, or by the number of messages.
    #[error("{why}")]
    At {
        why: CheckWhy,
        message: Option<Key>,
        signal: Option<Text>,
    },
    /// There was no memory to judge it.
    #[error("out of memory")]
    Memory,
}

impl From<AllocError> for CheckFault {
    ghost use Rattle.std.specs.Prelude.{◌≡◌};
    ghost use Rattle.bench_model.specs.declared.fault.CheckFault.TheVariants as faults;

    ghost from_gives = { λ _ fault. fault ≡ faults.Memory };

    fn from(_: AllocError) -> CheckFault {
        CheckFault::Memory
    }
}
