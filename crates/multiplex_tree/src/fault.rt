//! Why marks and links make no tree.

use thiserror::Error;

/// Why a signal has no place in a tree of parents, numbered in the order of the rules.
#[derive(Clone, Copy, Debug, PartialEq, Eq, Error)]
pub enum MuxWhy {
    /// No signal is its parent, or the one that a link names is no multiplexor.
    #[error("no signal is its parent")]
    NoParent = 1,
    /// Several signals are its parent.
    #[error("several signals are its parent")]
    Ambiguous = 2,
    /// Its chain of parents never ends.
    #[error("its chain of parents never ends")]
    Cycle = 3,
    /// More than 8 parents are above it.
    #[error("more than 8 parents are above it")]
    Deep = 4,
}

/// The first fault of a message's signals, with the signal's place among them, or out of memory.
#[derive(Clone, Copy, Debug, PartialEq, Eq, Error)]
pub enum MuxFault {
    /// The fault of a signal, which is named by its place from 0.
    #[error("signal {signal} has no place in a tree: {why}")]
    At { signal: usize, why: MuxWhy },
    /// There was no memory for the tree.
    #[error("out of memory")]
    Memory,
}
