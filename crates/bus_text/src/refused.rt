//! Why a bus was not printed whole.

use candump_log::LinesRefused;
use port_io::Failed;
use subscriber_text::PrintRefused;
use thiserror::Error;

/// Why the text of a bus goes no further.
#[derive(Clone, Copy, Debug, PartialEq, Eq, Error)]
pub enum BusRefused {
    #[error("a read of the log failed")]
    ReadFault,
    #[error("the log is too long")]
    TooLong,
    #[error("the text could not be written")]
    WriteFault,
    #[error("out of memory")]
    Memory,
}

impl From<LinesRefused> for BusRefused {
    ghost use Rattle.std.specs.Prelude.{◌≡◌};
    ghost use Rattle.bus_text.specs.Refusals.{of_lines};

    ghost from_gives = { λ why refused. refused ≡ of_lines why };

    fn from(why: LinesRefused) -> BusRefused {
        match why {
            LinesRefused::ReadFault => BusRefused::ReadFault,
            LinesRefused::TooLong => BusRefused::TooLong,
        }
    }
}

impl From<PrintRefused> for BusRefused {
    ghost use Rattle.std.specs.Prelude.{◌≡◌};
    ghost use Rattle.bus_text.specs.Refusals.{of_print};

    ghost from_gives = { λ why refused. refused ≡ of_print why };

    fn from(why: PrintRefused) -> BusRefused {
        match why {
            PrintRefused::WriteFault => BusRefused::WriteFault,
            PrintRefused::Memory => BusRefused::Memory,
        }
    }
}

impl From<Failed> for BusRefused {
    ghost use Rattle.std.specs.Prelude.{◌≡◌};
    ghost use Rattle.bus_text.specs.declared.refused.BusRefused.TheVariants as refusals;

    ghost from_gives = { λ _ refused. refused ≡ refusals.WriteFault };

    fn from(_: Failed) -> BusRefused {
        BusRefused::WriteFault
    }
}
