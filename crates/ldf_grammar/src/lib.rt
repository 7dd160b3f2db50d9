//! The reader of LIN description files (LDF), the databases of LIN buses.
//!
//! It builds on `sig_text` (tokens), `token_forms` (what readers of statements share), `bench_model` (the database and
//! its rules) and the lists and trees of `multiplex_tree`; the loader and the top calls call `read_ldf`. What a frame
//! means under the database is `bench_model`'s.
//!
//! Main theorem: unless memory runs out, `read_ldf` answers the database that the text describes exactly where it
//! describes one, and else its one fault with its place; each text has exactly one of the two.
#![tactic(auto)]

mod encodings;
mod entry;
mod fault;
mod frames;
mod laws;
mod lookups;
mod messages;
mod names;
mod parts;
mod read;
mod run;
mod section;
mod skipping;
mod statement;
mod unknown;

pub use fault::LdfFault;
pub use laws::{
    description_exists, description_is_unique, forms_are_statements, names_are_words,
    one_description_or_one_fault, statements_are_the_longest_run,
};
pub use read::read_ldf;
pub use statement::{
    Encoding, EncodingEntry, Frame, FrameSignal, Representation, SignalLine, Statement,
};
