//! What a command is answered.

use crate::load_files::Unread;
use crate::load_line::LineRefused;
use crate::targets::BusRefused;
use crate::{BenchRefused, DatabaseFault};
use bench_model::Text;
use region_store::{Holders, PublishRefused};
use std::alloc::AllocError;

/// The answer to a command. A bus is named by its place in the bench.
#[derive(Debug, Drop)]
pub enum Reply {
    /// The bench is published as this version.
    Ok { version: u32 },
    /// The line is no command.
    Words,
    /// The pair at this place is the first whose bus is not one of the bench; the name is what the pair has for it.
    UnknownBus { place: u32, name: Text },
    /// The file of this bus could not be opened.
    OpenFault { bus: u32 },
    /// The file of this bus could not be read.
    ReadFault { bus: u32 },
    /// The file of this bus is the first that is refused.
    Refused { bus: u32, fault: DatabaseFault },
    /// The image of the bench needs so many words, which are more than a region has.
    TooLarge { need: u64, room: u64 },
    /// The last version is published.
    VersionsSpent,
    /// A lane may hold each region but the published one.
    Busy { holders: Holders },
    /// There was no memory.
    Memory,
}

impl From<LineRefused> for Reply {
    ghost use Rattle.std.specs.Prelude.{◌≡◌};
    ghost use Rattle.bench_loader.specs.ReplyView.{reply_of_line};

    ghost from_gives = { λ refused reply. reply ≡ reply_of_line refused };

    fn from(refused: LineRefused) -> Reply {
        match refused {
            LineRefused::Form => Reply::Words,
            LineRefused::Memory => Reply::Memory,
        }
    }
}

impl From<BusRefused> for Reply {
    ghost use Rattle.std.specs.Prelude.{◌≡◌};
    ghost use Rattle.bench_loader.specs.ReplyView.{reply_of_bus};

    ghost from_gives = { λ refused reply. reply ≡ reply_of_bus refused };

    fn from(refused: BusRefused) -> Reply {
        match refused {
            BusRefused::Unknown { place, name } => Reply::UnknownBus { place, name },
            BusRefused::Memory => Reply::Memory,
        }
    }
}

impl From<Unread> for Reply {
    ghost use Rattle.std.specs.Prelude.{◌≡◌};
    ghost use Rattle.bench_loader.specs.ReplyView.{reply_of_file};

    ghost from_gives = { λ refused reply. reply ≡ reply_of_file refused };

    fn from(refused: Unread) -> Reply {
        match refused {
            Unread::Open { bus } => Reply::OpenFault { bus },
            Unread::Read { bus } => Reply::ReadFault { bus },
            Unread::Memory => Reply::Memory,
        }
    }
}

impl From<BenchRefused> for Reply {
    ghost use Rattle.std.specs.Prelude.{◌≡◌};
    ghost use Rattle.bench_loader.specs.ReplyView.{reply_of_bench};

    ghost from_gives = { λ refused reply. reply ≡ reply_of_bench refused };

    fn from(refused: BenchRefused) -> Reply {
        match refused {
            BenchRefused::Refused { bus, fault } => Reply::Refused { bus, fault },
            BenchRefused::Memory => Reply::Memory,
        }
    }
}

impl From<AllocError> for Reply {
    ghost use Rattle.std.specs.Prelude.{◌≡◌};
    ghost use Rattle.bench_loader.specs.declared.reply.Reply.TheVariants as replies;

    ghost from_gives = { λ _ reply. reply ≡ replies.Memory };

    fn from(_: AllocError) -> Reply {
        Reply::Memory
    }
}

impl From<PublishRefused> for Reply {
    ghost use Rattle.std.specs.Prelude.{◌≡◌};
    ghost use Rattle.bench_loader.specs.ReplyView.{reply_of_store};

    ghost from_gives = { λ refused reply. reply ≡ reply_of_store refused };

    fn from(refused: PublishRefused) -> Reply {
        match refused {
            PublishRefused::VersionsSpent => Reply::VersionsSpent,
            PublishRefused::Busy { holders } => Reply::Busy { holders },
        }
    }
}
