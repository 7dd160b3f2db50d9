//! What the records of a line say, once the databases were asked.

ghost use Rattle.std.specs.Prelude.{◌≡◌, IfOk, OnErr};
ghost use Rattle.decoded_list.specs.Records.{Meaning, frame_body, own_body, message_body, transport_bodies};
ghost use Rattle.decoded_list.specs.RecordsView.{one_or_none, IsFrame};
ghost use Rattle.decoded_list.specs.Asking.{IsSaidOf, IsSaidOfMessage};

use bench_model::{Body, Key, Plain, Text};
use candump_log::LogLine;
use j1939_tp::TpOut;
use multiplex_tree::List;
use std::alloc::{AllocError, Global};

/// A frame's record: the message that it means, or its bytes where nothing matches.
fn frame_body(
    alloc: Global,
    key: Key,
    bytes: &[u8],
    said: Option<Plain>,
) -> Result<Body, AllocError>
    ensures { IfOk result (λ body. body ≡ frame_body key bytes.now said) }
{
    match said {
        Some(Plain { name, signals }) => Ok(Body::Message { name, signals }),
        None => Ok(Body::Unmatched {
            key,
            bytes: Text::of(alloc, bytes)?,
        }),
    }
}

/// What a line's own record says, where this is what the databases say to it.
pub(crate) fn own_body(
    alloc: Global,
    line: &LogLine,
    said: Option<Plain>,
) -> Result<Body, AllocError>
    ensures body { (meaning : Meaning) → IsSaidOf meaning line.now said
        → IfOk result (λ body. body ≡ own_body meaning line.now) }
    ensures memory { OnErr result (IsFrame line.now) }
{
    match line {
        LogLine::Frame { key, payload, .. } => Ok(frame_body(alloc, *key, payload.bytes(), said)?),
        LogLine::Remote { key, .. } => Ok(Body::Remote { key: *key }),
        LogLine::Error { id, .. } => Ok(Body::Error { id: *id }),
        LogLine::Bad => Ok(Body::Bad),
    }
}

/// The record of a message that came whole, with what it means where its parameter group has a message.
fn message_body(alloc: Global, pgn: u32, sa: u8, da: u8, bytes: Text, said: Option<Plain>) -> Body
    ensures { result ≡ message_body pgn sa da bytes said }
{
    match said {
        Some(Plain { name, signals }) => Body::Transport {
            pgn,
            sa,
            da,
            bytes,
            name: Some(name),
            signals,
        },
        None => Body::Transport {
            pgn,
            sa,
            da,
            bytes,
            name: None,
            signals: List::of(Vec::new(alloc)),
        },
    }
}

/// What the record says of what the transport protocol brought, where it brought something and this is what the
/// databases say to it.
pub(crate) fn transport_body(alloc: Global, brought: TpOut, said: Option<Plain>) -> Option<Body>
    ensures { (meaning : Meaning) → IsSaidOfMessage meaning brought said
        → one_or_none result ≡ transport_bodies meaning brought }
{
    match brought {
        TpOut::Nothing => None,
        TpOut::Whole { pgn, sa, da, bytes } => {
            Some(message_body(alloc, pgn, sa, da, bytes, said))
        }
        TpOut::Cut { pgn, sa, da, cause } => Some(Body::Cut { pgn, sa, da, cause }),
    }
}
