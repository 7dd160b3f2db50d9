//! Which message is asked for: by its identifier, or by its parameter group (SAE J1939-21).

ghost use Rattle.std.specs.Prelude.{◌≡◌, ◌<◌, ◌^◌, find};
ghost use Rattle.std.specs.Option.{option_copied};
ghost use Rattle.bench_model.specs.Meaning.{group_of as group, has_key, is_in_group, matching};

use crate::{Ask, Key, Kind, Message};

/// The parameter group number of a 29-bit identifier (SAE J1939-21): with a PDU format below 240 the PDU specific byte
/// is an address and counts as 0.
fn group_of(id: u32) -> u32
    ensures { result ≡ group id }
{
    if (id / 65_536) % 256 < 240 {
        (id / 65_536) % 1_024 * 256
    } else {
        (id / 256) % 262_144
    }
}

/// The first message of this identifier.
fn by_key(key: Key, messages: &[Message]) -> Option<&Message>
    ensures { option_copied result ≡ find (has_key key) messages.now }
{
    messages
        .iter()
        .find(|m| m.key.extended == key.extended && m.key.id == key.id)
}

/// The first extended message of this parameter group.
fn by_group(pgn: u32, messages: &[Message]) -> Option<&Message>
    ensures { option_copied result ≡ find (is_in_group pgn) messages.now }
{
    messages
        .iter()
        .find(|m| m.key.extended && group_of(m.key.id) == pgn)
}

/// The message that is asked for.
pub(crate) fn matching(kind: Kind, ask: Ask, messages: &[Message]) -> Option<&Message>
    ensures { option_copied result ≡ matching kind ask messages.now }
{
    match (kind, ask) {
        (Kind::J1939, Ask::Frame { key }) => match by_key(key, messages) {
            Some(message) => Some(message),
            None if key.extended => by_group(group_of(key.id), messages),
            None => None,
        },
        (Kind::J1939, Ask::Group { pgn }) => by_group(pgn, messages),
        (Kind::Can | Kind::Lin, Ask::Frame { key }) => by_key(key, messages),
        (Kind::Can | Kind::Lin, Ask::Group { .. }) => None,
    }
}
