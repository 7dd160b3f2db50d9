//! What the databases of a bench say to a line, and to a message of several packets.

ghost use Rattle.std.specs.Prelude.{◌≡◌, ◌<◌, length, All, IfOk, OnErr, IsOk};
ghost use Rattle.bench_model.specs.Check.{IsValid};
ghost use Rattle.bench_model.specs.Meaning.{bench_meaning};
ghost use Rattle.decoded_list.specs.RecordsView.{IsFrame};
ghost use Rattle.decoded_list.specs.Asking.{IsSaidOf, IsSaidOfMessage};

use bench_model::{Ask, Bench, Plain};
use candump_log::LogLine;
use j1939_tp::TpOut;
use std::alloc::{AllocError, Global};

/// What the bench says to a line: a frame of data asks for its message.
pub(crate) fn said_of(
    alloc: Global,
    bench: &Bench,
    bus: u32,
    line: &LogLine,
) -> Result<Option<Plain>, AllocError>
    requires bus { bus < length bench.now.buses }
    requires valid { All (λ b. IsValid b.database) bench.now.buses }
    ensures said { IfOk result (IsSaidOf (bench_meaning bench.now bus) line.now) }
    ensures memory { OnErr result (IsFrame line.now) }
{
    match line {
        LogLine::Frame { key, payload, .. } => {
            Ok(bench.plain(alloc, bus, Ask::Frame { key: *key }, payload.bytes())?)
        }
        LogLine::Remote { .. } | LogLine::Error { .. } | LogLine::Bad => Ok(None),
    }
}

/// What the bench says to what the transport protocol brought: a message that came whole asks for that of its group.
pub(crate) fn said_of_message(
    alloc: Global,
    bench: &Bench,
    bus: u32,
    brought: &TpOut,
) -> Result<Option<Plain>, AllocError>
    requires bus { bus < length bench.now.buses }
    requires valid { All (λ b. IsValid b.database) bench.now.buses }
    ensures said { IfOk result (IsSaidOfMessage (bench_meaning bench.now bus) brought.now) }
    ensures none { brought.now ≡ TpOut.Nothing → IsOk result }
{
    match brought {
        TpOut::Whole { pgn, bytes, .. } => {
            Ok(bench.plain(alloc, bus, Ask::Group { pgn: *pgn }, bytes.bytes())?)
        }
        TpOut::Nothing | TpOut::Cut { .. } => Ok(None),
    }
}
