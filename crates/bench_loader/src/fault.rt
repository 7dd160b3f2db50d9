//! Why a file is no database.

use dbc_grammar::DbcFault;
use ldf_grammar::LdfFault;
use std::alloc::{AllocError, AllocFailed};
use thiserror::Error;

/// Why a file is no database. An inner fault is never its `Memory`.
#[derive(Debug, Drop, Error)]
pub enum DatabaseFault {
    /// It has more than 16,777,216 bytes.
    #[error("the database is too long")]
    Long,
    #[error("{fault}")]
    Dbc { fault: DbcFault },
    #[error("{fault}")]
    Ldf { fault: LdfFault },
}

/// Why a file was not judged to be a database.
#[derive(Debug, Drop, Error)]
pub enum JudgeRefused {
    #[error("{fault}")]
    Fault { fault: DatabaseFault },
    #[error("out of memory")]
    Memory,
}

impl From<AllocError> for JudgeRefused {
    ghost use Rattle.std.specs.Prelude.{◌≡◌};
    ghost use Rattle.bench_loader.specs.declared.fault.JudgeRefused.TheVariants as refusals;

    ghost from_gives = { λ _ refused. refused ≡ refusals.Memory };

    fn from(_: AllocError) -> JudgeRefused {
        JudgeRefused::Memory
    }
}

/// Why databases make no bench.
#[derive(Debug, Drop, Error)]
pub enum BenchRefused {
    /// The database of this bus is the first that is refused.
    #[error("bus {bus}: {fault}")]
    Refused { bus: u32, fault: DatabaseFault },
    #[error("out of memory")]
    Memory,
}

impl<T: Drop> From<AllocFailed<T>> for BenchRefused {
    ghost use Rattle.std.specs.Prelude.{◌≡◌};
    ghost use Rattle.bench_loader.specs.declared.fault.BenchRefused.TheVariants as refusals;

    ghost from_gives = { λ _ refused. refused ≡ refusals.Memory };

    fn from(_: AllocFailed<T>) -> BenchRefused {
        BenchRefused::Memory
    }
}
