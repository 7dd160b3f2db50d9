//! The keys that identifiers stand for.

ghost use Rattle.std.specs.Prelude.{◌≡◌};
ghost use Rattle.dbc_grammar.specs.Naming.{key_of, is_named_id};
ghost use Rattle.dbc_grammar.specs.Contract.{fault_id};

use bench_model::Key;

/// The identifier of the message that holds signals without message: it is left out.
pub const INDEPENDENT: u32 = 0xC000_0000;

/// The greatest identifier of 11 bits.
pub const LAST_SHORT_ID: u32 = 2047;

/// The least identifier of 29 bits, in which bit 31 is set.
pub const FIRST_LONG_ID: u32 = 0x8000_0000;

/// The key of an identifier: from 2^31 on its low 29 bits, else its 11 bits.
pub fn key_of(id: u32) -> Key
    ensures { result ≡ key_of id }
{
    if id < FIRST_LONG_ID {
        Key {
            extended: false,
            id,
        }
    } else {
        Key {
            extended: true,
            id: id % 0x2000_0000,
        }
    }
}

/// Whether an identifier names a message.
pub fn is_named_id(id: u32) -> bool
    ensures { result ≡ is_named_id id }
{
    id != INDEPENDENT && (id <= LAST_SHORT_ID || FIRST_LONG_ID <= id)
}

/// The identifier of a message as faults give it: bits 29 and 30 are left out.
pub fn fault_id(id: u32) -> u32
    ensures { result ≡ fault_id (key_of id) }
{
    if id < FIRST_LONG_ID {
        id
    } else {
        id % 0x2000_0000 + FIRST_LONG_ID
    }
}
