//! Why the buses of a plan were not decoded whole.

use bench_inputs::{FileRefused, LogRefused};
use bench_loader::DatabaseFault;
use bench_text::BusesRefused;
use std::alloc::{AllocError, AllocFailed};
use thiserror::Error;

/// Why the buses of a plan were not decoded whole.
#[derive(Debug, Drop, Error)]
pub(crate) enum DecodeRefused {
    /// The database of this bus is the first that is refused.
    #[error("bus {bus}: {fault}")]
    Database { bus: u32, fault: DatabaseFault },
    /// The image of the bench takes more words than a region has.
    #[error("the bench needs {need} words of {room}")]
    Large { need: u64, room: u64 },
    #[error("a database or a log could not be opened")]
    Open,
    #[error("a database could not be read")]
    Read,
    /// Why the texts of the buses go no further.
    #[error("{refused}")]
    Buses { refused: BusesRefused },
    #[error("out of memory")]
    Memory,
}

impl From<FileRefused> for DecodeRefused {
    ghost use Rattle.std.specs.Prelude.{◌≡◌};
    ghost use Rattle.bench_server.specs.EndView.{of_file};

    ghost from_gives = { λ why refused. refused ≡ of_file why };

    fn from(why: FileRefused) -> DecodeRefused {
        match why {
            FileRefused::Open => DecodeRefused::Open,
            FileRefused::Read => DecodeRefused::Read,
            FileRefused::Memory => DecodeRefused::Memory,
        }
    }
}

impl From<bench_loader::BenchRefused> for DecodeRefused {
    ghost use Rattle.std.specs.Prelude.{◌≡◌};
    ghost use Rattle.bench_server.specs.EndView.{of_bench};

    ghost from_gives = { λ why refused. refused ≡ of_bench why };

    fn from(why: bench_loader::BenchRefused) -> DecodeRefused {
        match why {
            bench_loader::BenchRefused::Refused { bus, fault } => DecodeRefused::Database {
                bus,
                fault,
            },
            bench_loader::BenchRefused::Memory => DecodeRefused::Memory,
        }
    }
}

impl From<LogRefused> for DecodeRefused {
    ghost use Rattle.std.specs.Prelude.{◌≡◌};
    ghost use Rattle.bench_server.specs.declared.refused.DecodeRefused.TheVariants as refusals;

    ghost from_gives = { λ _ refused. refused ≡ refusals.Open };

    fn from(_: LogRefused) -> DecodeRefused {
        DecodeRefused::Open
    }
}

impl From<BusesRefused> for DecodeRefused {
    ghost use Rattle.std.specs.Prelude.{◌≡◌};
    ghost use Rattle.bench_server.specs.declared.refused.DecodeRefused.TheVariants as refusals;

    ghost from_gives = { λ why refused. refused ≡ refusals.Buses why };

    fn from(refused: BusesRefused) -> DecodeRefused {
        DecodeRefused::Buses { refused }
    }
}

impl From<AllocError> for DecodeRefused {
    ghost use Rattle.std.specs.Prelude.{◌≡◌};
    ghost use Rattle.bench_server.specs.declared.refused.DecodeRefused.TheVariants as refusals;

    ghost from_gives = { λ _ refused. refused ≡ refusals.Memory };

    fn from(_: AllocError) -> DecodeRefused {
        DecodeRefused::Memory
    }
}

impl<T: Drop> From<AllocFailed<T>> for DecodeRefused {
    ghost use Rattle.std.specs.Prelude.{◌≡◌};
    ghost use Rattle.bench_server.specs.declared.refused.DecodeRefused.TheVariants as refusals;

    ghost from_gives = { λ _ refused. refused ≡ refusals.Memory };

    fn from(_: AllocFailed<T>) -> DecodeRefused {
        DecodeRefused::Memory
    }
}
