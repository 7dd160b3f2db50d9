//! Why a bench file gives no plan.

use std::alloc::{AllocError, AllocFailed};
use thiserror::Error;

/// Why a bench file gives no plan.
#[derive(Clone, Copy, Debug, PartialEq, Eq, Error)]
pub enum PlanFault {
    /// The line of this number, from 1, is the first that breaks a rule. It is 0 where the file is too long, and
    /// where no line is faulty but there is no bus or the rings would hold too many items.
    #[error("the bench file is faulty at line {line}")]
    Line { line: u64 },
    #[error("out of memory")]
    Memory,
}

/// Why a line was not added to a draft.
#[derive(Clone, Copy, Debug, PartialEq, Eq, Error)]
pub(crate) enum LineRefused {
    #[error("the line breaks a rule")]
    Rule,
    #[error("out of memory")]
    Memory,
}

impl From<AllocError> for LineRefused {
    ghost use Rattle.std.specs.Prelude.{◌≡◌};
    ghost use Rattle.bench_file.specs.declared.fault.LineRefused.TheVariants as refusals;

    ghost from_gives = { λ _ refused. refused ≡ refusals.Memory };

    fn from(_: AllocError) -> LineRefused {
        LineRefused::Memory
    }
}

impl<T: Drop> From<AllocFailed<T>> for LineRefused {
    ghost use Rattle.std.specs.Prelude.{◌≡◌};
    ghost use Rattle.bench_file.specs.declared.fault.LineRefused.TheVariants as refusals;

    ghost from_gives = { λ _ refused. refused ≡ refusals.Memory };

    fn from(_: AllocFailed<T>) -> LineRefused {
        LineRefused::Memory
    }
}
