//! The model of a bench: databases of messages and signals, the plain decoding of a frame under them, and
//! the records and items that decoding gives.
//!
//! Readers of databases make its values and hand them to `check`; decoders, rings, images and printers speak of its
//! types. It builds on `exact_scale` (scalings and exact values) and `multiplex_tree` (lists, and which signals are
//! active). `image_words` gives the same meaning, faster, from an image of a bench.
//!
//! Main theorem: unless memory runs out, `Bench::plain` gives exactly the meaning of a frame's bytes: the message that
//! matches, and in file order its signals that are active and whose bits are there, each with its raw value bit by bit,
//! its exact value, its unit and its label; and `check` accepts exactly the valid databases and names the first fault of
//! any other.
#![tactic(auto)]

mod check_laws;
mod checking;
mod coding;
mod copies;
mod database;
mod duplicates;
mod fault;
mod floats;
mod laws;
mod limits;
mod matching;
mod names;
mod plain;
mod raw;
mod reading;
mod refusal;
mod replace;
mod sizes;
mod text;
mod valid;

pub use check_laws::{valid_is_decodable, valid_keeps_rules, verdict_is_unique};
pub use checking::check;
pub use database::{Bench, Bus, Coding, Database, Entry, Key, Kind, Label, Message, Order, Signal};
pub use exact_scale::{Exact, Scale};
pub use fault::{CheckFault, CheckWhy};
pub use laws::{bits_by_shift, bytes_as_number, intel_weights, motorola_places, raw_by_shift};
pub use names::names_in_a_meaning;
pub use reading::{Ask, Body, CutCause, Item, Missed, Plain, Reading, SignalValue};
pub use replace::Change;
pub use sizes::{LAST_START, MOST_BITS};
pub use text::Text;
pub use valid::Valid;
