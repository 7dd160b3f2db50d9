//! Why the buses of a bench were not all printed.
ghost use Rattle.std.specs.Prelude.{◌≡◌};
ghost use Rattle.bench_text.specs.BusAt.{refused_at};

use bus_text::BusRefused;
use port_io::Failed;
use thiserror::Error;

/// Why the text of a bench goes no further; a bus is named by its place in the bench.
#[derive(Clone, Copy, Debug, PartialEq, Eq, Error)]
pub enum BusesRefused {
    #[error("a read of the log of bus {bus} failed")]
    ReadFault { bus: u32 },
    #[error("the log of bus {bus} is too long")]
    TooLong { bus: u32 },
    #[error("the text could not be written")]
    WriteFault,
    #[error("out of memory")]
    Memory,
}

/// Why the text goes no further than the bus at this place.
pub(crate) fn refused_at(place: u32, why: BusRefused) -> BusesRefused
    ensures { result ≡ refused_at place why }
{
    match why {
        BusRefused::ReadFault => BusesRefused::ReadFault { bus: place },
        BusRefused::TooLong => BusesRefused::TooLong { bus: place },
        BusRefused::WriteFault => BusesRefused::WriteFault,
        BusRefused::Memory => BusesRefused::Memory,
    }
}

impl From<Failed> for BusesRefused {
    ghost use Rattle.std.specs.Prelude.{◌≡◌};
    ghost use Rattle.bench_text.specs.declared.refused.BusesRefused.TheVariants as refusals;

    ghost from_gives = { λ _ refused. refused ≡ refusals.WriteFault };

    fn from(_: Failed) -> BusesRefused {
        BusesRefused::WriteFault
    }
}
