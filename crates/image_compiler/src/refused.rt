//! Why no image was made.

use std::alloc::AllocError;
use thiserror::Error;

/// Why a bench was not compiled.
#[derive(Clone, Copy, Debug, PartialEq, Eq, Error)]
pub enum CompileRefused {
    /// The image takes so many words, which are more than the room.
    #[error("an image of {need} words is larger than the room")]
    TooLarge { need: u64 },
    #[error("out of memory")]
    Memory,
}

impl From<AllocError> for CompileRefused {
    ghost use Rattle.std.specs.Prelude.{◌≡◌};
    ghost use Rattle.image_compiler.specs.declared.refused.CompileRefused.TheVariants as refusals;

    ghost from_gives = { λ _ refused. refused ≡ refusals.Memory };

    fn from(_: AllocError) -> CompileRefused {
        CompileRefused::Memory
    }
}
