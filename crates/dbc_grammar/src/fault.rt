//! Why a text is no database.

ghost use Rattle.std.specs.Prelude.{◌≡◌};
ghost use Rattle.dbc_grammar.specs.declared.fault.DbcFault.TheVariants.{Memory};

use bench_model::{CheckFault, Text};
use multiplex_tree::MuxWhy;
use sig_text::LexFault;
use std::alloc::{AllocError, AllocFailed};
use thiserror::Error;

/// Why a text is no database, in the order in which faults are named; or out of memory. Inner faults are never
/// their `Memory`.
#[derive(Debug, Drop, Error)]
pub enum DbcFault {
    /// The text has no tokens.
    #[error("{fault}")]
    Lex { fault: LexFault },
    /// The token at this byte is the first after the longest run of whole statements.
    #[error("no whole statement begins at byte {at}")]
    Statement { at: usize },
    /// The `SG_` of the first signal whose factor and offset are too wide.
    #[error("the scaling of the signal at byte {at} is past the limits")]
    Scale { at: usize },
    /// The first message whose signals make no tree: its identifier, with bit 31 set where it is of 29 bits, and the
    /// signal.
    #[error("a signal of message {id} has no place in a tree: {why}")]
    Mux { id: u32, signal: Text, why: MuxWhy },
    /// The database is not valid.
    #[error("{fault}")]
    Check { fault: CheckFault },
    #[error("out of memory")]
    Memory,
}

impl<T: Drop> From<AllocFailed<T>> for DbcFault {
    ghost from_gives = { λ _ fault. fault ≡ Memory };

    fn from(_failed: AllocFailed<T>) -> DbcFault {
        DbcFault::Memory
    }
}

impl From<AllocError> for DbcFault {
    ghost from_gives = { λ _ fault. fault ≡ Memory };

    fn from(_error: AllocError) -> DbcFault {
        DbcFault::Memory
    }
}
