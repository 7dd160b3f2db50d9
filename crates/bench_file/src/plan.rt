//! The plan of a bench.

use crate::FileName;
use bench_model::{Kind, Text};
use multiplex_tree::List;

/// A bus of the plan: its name and kind, and the names of its log and its database. A bus without a database has
/// the empty one.
#[derive(Debug, Drop)]
pub struct PlannedBus {
    pub name: Text,
    pub kind: Kind,
    pub log: FileName,
    pub database: Option<FileName>,
}

/// What a bench file plans: the buses in order, and the numbers of a server.
#[derive(Debug, Drop)]
pub struct Plan {
    pub buses: List<PlannedBus>,
    /// How many regions the store has.
    pub regions: u32,
    /// How many words a region has.
    pub words: u32,
    /// How many items a ring holds.
    pub ring: u32,
    /// How many sessions a place serves.
    pub sessions: u32,
    /// How many control connections the desk serves.
    pub desk: u32,
    /// The greatest version that may be published.
    pub versions: u32,
}
