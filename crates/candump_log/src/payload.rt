//! The data bytes of a frame.
ghost use Rattle.std.specs.Prelude.{◌≡◌, ◌+◌, ◌<◌, ◌≤◌, [], ◌∷◌, ◌++◌, length};
ghost use Rattle.candump_log.specs.Data.{data_limit};

use arrayvec::ArrayVec;
use std::marker::Model;

/// The most bytes of any frame, and of a classic one.
pub(crate) const DATA_LIMIT: usize = 64;

pub(crate) const CLASSIC_LIMIT: usize = 8;

/// The data bytes of a frame, 64 at most. They are in the value itself, and contracts see them as a list.
#[derive(Debug, Drop)]
pub struct Payload {
    content: ArrayVec<u8, DATA_LIMIT>,
}

impl Model for Payload {
    ghost use Rattle.std.specs.Prelude.{List, ℕ, ◌≤◌, length};

    ghost Value = { List ℕ };

    ghost view = { λ p. p.content.items };

    ghost invariant = { λ p. length p.content.items ≤ 64 };
}

impl Payload {
    /// No bytes.
    pub(crate) fn new() -> Payload
        ensures { result ≡ [] }
    {
        Payload {
            content: ArrayVec::new(),
        }
    }

    /// The bytes.
    pub fn bytes(&self) -> &[u8]
        ensures value { result.now ≡ self.now }
        ensures few { length result.now ≤ data_limit }
    {
        self.content.as_slice()
    }

    /// Adds a byte behind the others.
    pub(crate) fn push(&mut self, byte: u8)
        requires { length self.old < data_limit }
        ensures { self.new ≡ self.old ++ byte ∷ [] }
    {
        self.content.push(byte);
    }
}
