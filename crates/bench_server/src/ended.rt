//! The ends of a run, and the status of each. No other function makes a status.

ghost use Rattle.std.specs.Prelude.{◌≡◌};
ghost use Rattle.bench_server.specs.EndView.{status_of};

use crate::Status;
use crate::refused::DecodeRefused;
use bench_inputs::BenchRefused;
use bench_loader::CheckRefused;
use bench_text::BusesRefused;
use port_io::Failed;

/// How a run ends.
#[derive(Drop)]
pub(crate) enum Ended {
    /// The words are those of no command.
    Usage,
    /// The bench file gives no plan.
    Plan(BenchRefused),
    /// The buses of a plan were decoded, or not.
    Decode(Result<(), DecodeRefused>),
    /// The file that is checked gives no database.
    Check(CheckRefused),
    /// What a database has was written, or not.
    Write(Result<(), Failed>),
    /// There is no memory for a line, or for generated frames.
    Memory,
}

/// The status of an end.
pub(crate) fn status_of(ended: Ended) -> Status
    ensures { result ≡ status_of ended }
{
    match ended {
        Ended::Decode(Ok(())) | Ended::Write(Ok(())) => Status::Ok,
        Ended::Usage => Status::Usage,
        Ended::Plan(BenchRefused::Line { line }) => Status::BenchFile { line },
        Ended::Decode(Err(DecodeRefused::Database { bus, fault })) => Status::Refused {
            bus: Some(bus),
            fault,
        },
        Ended::Check(CheckRefused::Fault { fault }) => Status::Refused { bus: None, fault },
        Ended::Decode(Err(DecodeRefused::Large { need, room })) => Status::TooLarge { need, room },
        Ended::Plan(BenchRefused::Open)
        | Ended::Decode(Err(DecodeRefused::Open))
        | Ended::Check(CheckRefused::Open) => Status::OpenFault,
        Ended::Plan(BenchRefused::Read)
        | Ended::Decode(Err(DecodeRefused::Read))
        | Ended::Check(CheckRefused::Read) => Status::ReadFault { bus: None },
        Ended::Decode(Err(DecodeRefused::Buses { refused })) => match refused {
            BusesRefused::ReadFault { bus } => Status::ReadFault { bus: Some(bus) },
            BusesRefused::TooLong { bus } => Status::TooLong { bus },
            BusesRefused::WriteFault => Status::WriteFault,
            BusesRefused::Memory => Status::Memory,
        },
        Ended::Write(Err(Failed)) => Status::WriteFault,
        Ended::Plan(BenchRefused::Memory)
        | Ended::Decode(Err(DecodeRefused::Memory))
        | Ended::Check(CheckRefused::Memory)
        | Ended::Memory => Status::Memory,
    }
}
