//! A text: a name, a unit or a label as its bytes.

ghost use Rattle.std.specs.Prelude.{◌≡◌, ◌≤◌, length, IsOk, IfOk};

use smallvec::SmallVec;
use std::alloc::{AllocError, Global};
use std::marker::Model;

/// A text of up to this many bytes is in the value itself and takes no memory.
pub const INLINE_BYTES: usize = 24;

/// A text of any bytes. Contracts see it as the list of its bytes.
#[derive(Debug, Drop)]
pub struct Text {
    content: SmallVec<u8, INLINE_BYTES>,
}

impl Model for Text {
    ghost use Rattle.std.specs.Prelude.{List, ℕ};

    ghost Value = { List ℕ };

    ghost view = { λ a. a.content.items };
}

impl Text {
    /// A text of these bytes.
    pub fn of(alloc: Global, bytes: &[u8]) -> Result<Text, AllocError>
        ensures ok { IfOk result (λ text. text ≡ bytes.now) }
        ensures short { length bytes.now ≤ INLINE_BYTES → IsOk result }
    {
        let content = SmallVec::from_slice(alloc, bytes)?;
        Ok(Text { content })
    }

    /// The text of a vector's bytes, which takes no memory.
    pub fn from_vec(bytes: Vec<u8>) -> Text
        ensures { result ≡ bytes.items }
    {
        Text {
            content: SmallVec::from_vec(bytes),
        }
    }

    /// The bytes of the text.
    pub fn bytes(&self) -> &[u8]
        ensures { result.now ≡ self.now }
    {
        self.content.as_slice()
    }

    /// An equal text of its own.
    pub fn copy(&self, alloc: Global) -> Result<Text, AllocError>
        ensures ok { IfOk result (λ text. text ≡ self.now) }
        ensures short { length self.now ≤ INLINE_BYTES → IsOk result }
    {
        Text::of(alloc, self.bytes())
    }
}
