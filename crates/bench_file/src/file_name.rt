//! The name of a file.

ghost use Rattle.std.specs.Prelude.{◌≡◌, IfOk};

use std::alloc::{AllocError, Global};
use std::marker::Model;

/// The name of a file, which is text. Contracts see it as the list of its bytes.
#[derive(Debug, Drop)]
pub struct FileName {
    text: String,
}

impl Model for FileName {
    ghost use Rattle.std.specs.Prelude.{List, ℕ, string_bytes};

    ghost Value = { List ℕ };

    ghost view = { λ a. string_bytes a.text };
}

impl FileName {
    /// The name of this text.
    pub fn of(alloc: Global, name: &str) -> Result<FileName, AllocError>
        ensures { IfOk result (λ file. file ≡ name.now) }
    {
        Ok(FileName {
            text: String::from_str(alloc, name)?,
        })
    }

    /// The text of the name.
    pub fn as_str(&self) -> &str
        ensures { result.now ≡ self.now }
    {
        self.text.as_str()
    }
}
