//! How a call of the program ends.

ghost use Rattle.std.specs.Prelude.{◌≡◌};
ghost use Rattle.bench_server.specs.StatusCode.{code_of};

use bench_loader::DatabaseFault;

/// How a call of the program ended.
#[derive(Debug, Drop)]
pub enum Status {
    /// All was done.
    Ok,
    /// The words are those of no command.
    Usage,
    /// The bench file is faulty at this line, from 1; 0 is said of the file as a whole.
    BenchFile {
        line: u64,
    },
    /// A database is refused: that of this bus, or without a bus the one that `check` names.
    Refused {
        bus: Option<u32>,
        fault: DatabaseFault,
    },
    /// A file or a log could not be opened.
    OpenFault,
    /// A file could not be read, or where a bus is named, that bus's log.
    ReadFault {
        bus: Option<u32>,
    },
    /// The output could not be written.
    WriteFault,
    /// 2^40 bytes of this bus's log were taken, and it had not ended.
    TooLong {
        bus: u32,
    },
    /// The bench needs more words than a region has.
    TooLarge {
        need: u64,
        room: u64,
    },
    /// Out of memory.
    Memory,
}

impl Status {
    /// The exit status of the process.
    pub fn code(&self) -> u8
        ensures { result ≡ code_of self.now }
    {
        match self {
            Status::Ok => 0,
            Status::Usage => 2,
            Status::BenchFile { .. } => 3,
            Status::Refused { .. } => 4,
            Status::OpenFault => 5,
            Status::ReadFault { .. } => 6,
            Status::WriteFault => 7,
            Status::TooLong { .. } => 9,
            Status::TooLarge { .. } => 10,
            Status::Memory => 11,
        }
    }
}
