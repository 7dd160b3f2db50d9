//! Why a text is no database.

ghost use Rattle.std.specs.Prelude.{◌≡◌};
ghost use Rattle.ldf_grammar.specs.declared.fault.LdfFault.TheVariants.{Memory};

use bench_model::CheckFault;
use sig_text::LexFault;
use std::alloc::{AllocError, AllocFailed};
use thiserror::Error;

/// Why a text describes no database, numbered in the order in which the causes are tried. Places are bytes from 0.
/// The inner faults are never their `Memory`.
#[derive(Debug, Drop, Error)]
pub enum LdfFault {
    /// The text has no tokens.
    #[error("{fault}")]
    Lex { fault: LexFault },
    /// No whole statement begins at this token; or the text ends here without the first one.
    #[error("byte {at} begins no statement")]
    Statement { at: usize },
    /// The scaling of the `physical_value` at this place is too wide.
    #[error("the scaling at byte {at} is too wide")]
    Scale { at: usize },
    /// The word at this place names no signal, or no encoding.
    #[error("the name at byte {at} is not defined")]
    UnknownName { at: usize },
    /// The database breaks a rule.
    #[error("{fault}")]
    Check { fault: CheckFault },
    #[error("out of memory")]
    Memory,
}

impl<T: Drop> From<AllocFailed<T>> for LdfFault {
    ghost from_gives = { λ _ fault. fault ≡ Memory };

    fn from(_failed: AllocFailed<T>) -> LdfFault {
        LdfFault::Memory
    }
}

impl From<AllocError> for LdfFault {
    ghost from_gives = { λ _ fault. fault ≡ Memory };

    fn from(_error: AllocError) -> LdfFault {
        LdfFault::Memory
    }
}
