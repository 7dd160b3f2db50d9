//! Questions that have one answer, as definitions: each thing makes one value or fails for one reason.
//!
//! The crate has no code. Its definitions are below those of every crate whose laws say that a file has one
//! reading or one fault, and join such laws over lists.
//!
//! Main theorem: where each question of a list has one answer, so has the list.
#![tactic(auto)]
