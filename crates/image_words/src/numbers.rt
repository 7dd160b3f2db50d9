//! The numbers by which an index has messages: one for each key, and one for each parameter group.

ghost use Rattle.std.specs.Prelude.{◌≡◌, ◌*◌, ◌<◌};
ghost use Rattle.bench_model.specs.Meaning.{group_of as group};
ghost use Rattle.image_words.specs.Index.{key_number, extended_from};

use crate::layout::EXTENDED_FROM;
use bench_model::Key;

/// What one byte of an identifier counts.
const BYTE_SPAN: u32 = 1 << 8;

/// Where the PDU format of an identifier is.
const FORMAT_WEIGHT: u32 = 1 << 16;

/// The first PDU format whose PDU specific byte is part of the group.
const FIRST_BROADCAST: u32 = 240;

/// The PDU format has eight bits, and the data pages before it two.
const FORMAT_AND_PAGES_SPAN: u32 = 1 << 10;

/// A parameter group number has 18 bits.
const GROUP_SPAN: u32 = 1 << 18;

/// An identifier has 32 bits, as its type says.
fn identifier_bits(id: u32)
    ensures { id < extended_from }
{}

/// The number of a key: its identifier, and 2^32 more where it is extended.
pub fn key_number_of(key: Key) -> u64
    ensures value { result ≡ key_number key }
    ensures below { result < 2 * extended_from }
{
    identifier_bits(key.id);
    if key.extended {
        u64::from(key.id) + EXTENDED_FROM
    } else {
        u64::from(key.id)
    }
}

/// The parameter group number of a 29-bit identifier (SAE J1939-21): with a PDU format below 240 the PDU
/// specific byte is an address and counts as 0.
pub fn group_of(id: u32) -> u32
    ensures { result ≡ group id }
{
    if (id / FORMAT_WEIGHT) % BYTE_SPAN < FIRST_BROADCAST {
        (id / FORMAT_WEIGHT) % FORMAT_AND_PAGES_SPAN * BYTE_SPAN
    } else {
        (id / BYTE_SPAN) % GROUP_SPAN
    }
}
