//! Why a phase ends without its files.

use std::alloc::{AllocError, AllocFailed};
use thiserror::Error;

/// Why a bench file gives no plan.
#[derive(Clone, Copy, Debug, PartialEq, Eq, Error)]
pub enum BenchRefused {
    /// The bench file is faulty at this line, from 1; 0 is said of the file as a whole.
    #[error("the bench file is faulty at line {line}")]
    Line { line: u64 },
    #[error("the bench file could not be opened")]
    Open,
    #[error("the bench file could not be read")]
    Read,
    #[error("out of memory")]
    Memory,
}

/// Why a database was not read.
#[derive(Clone, Copy, Debug, PartialEq, Eq, Error)]
pub enum FileRefused {
    #[error("a database could not be opened")]
    Open,
    #[error("a database could not be read")]
    Read,
    #[error("out of memory")]
    Memory,
}

impl From<AllocError> for FileRefused {
    ghost use Rattle.std.specs.Prelude.{◌≡◌};
    ghost use Rattle.bench_inputs.specs.declared.refused.FileRefused.TheVariants as refusals;

    ghost from_gives = { λ _ refused. refused ≡ refusals.Memory };

    fn from(_: AllocError) -> FileRefused {
        FileRefused::Memory
    }
}

impl<T: Drop> From<AllocFailed<T>> for FileRefused {
    ghost use Rattle.std.specs.Prelude.{◌≡◌};
    ghost use Rattle.bench_inputs.specs.declared.refused.FileRefused.TheVariants as refusals;

    ghost from_gives = { λ _ refused. refused ≡ refusals.Memory };

    fn from(_: AllocFailed<T>) -> FileRefused {
        FileRefused::Memory
    }
}

/// A log could not be opened.
#[derive(Clone, Copy, Debug, PartialEq, Eq, Error)]
#[error("a log could not be opened")]
pub struct LogRefused;
