//! Which signals of a message are active: extended multiplexing as the DBC format means it.
//!
//! A signal's mark says whether it selects others, a multiplexor, and to which group of values it belongs;
//! links (`SG_MUL_VAL_`) name a parent with ranges. A reader of databases hands both to `resolve`; a decoder
//! asks `Tree::active`, or goes from parent to parent by the laws of `laws`. `bench_model` keeps the tree with
//! each message, and the crates above take `List` from here, a vector that contracts see as a list. The crate
//! builds on std and `thiserror`.
//!
//! The theorem: `resolve` answers the tree of parents exactly where each signal has one parent or none and at
//! most 8 parents are above it, else the first fault, unless memory runs out; and `Tree::active` says exactly
//! whether every parent above a signal selects the one below it.
#![tactic(auto)]

mod chain;
mod claim;
mod fault;
mod laws;
mod list;
mod mark;
mod parents;
mod tree;

pub use chain::MOST_PARENTS;
pub use fault::{MuxFault, MuxWhy};
pub use laws::{
    activity_by_parents, activity_by_steps, resolution_is_unique, signals_without_parents,
    trees_of_marks,
};
pub use list::List;
pub use mark::{Link, Mark, Parent, Range};
pub use tree::{Tree, resolve};
