//! The reader of whole DBC files, the databases of CAN and J1939 buses.
//!
//! `read_dbc` gives the database of a file's bytes, which passed `check`, or the first fault with its place. It builds
//! on `sig_text` and `token_forms` (tokens, and what readers of statements share), `exact_scale` (scalings),
//! `multiplex_tree` (trees of signals) and `bench_model` (databases and their rules); the loaders of a bench call it.
//!
//! Main theorem: all bytes have exactly one database or exactly one fault, a fault being one before which there is none of
//! an earlier kind; `read_dbc` answers the one or the other, unless memory runs out.
#![tactic(auto)]

mod fault;
mod keys;
mod labels;
mod laws;
mod message;
mod multiplexing;
mod notes;
mod passed;
mod places;
mod read;
mod row;
mod rows;
mod signal;
mod statement;
mod statements;
mod unkept;
mod values;
mod words;

pub use fault::DbcFault;
pub use laws::{
    database_exists, database_is_unique, forms_are_statements, names_are_words,
    one_database_or_one_fault, statements_are_the_longest_run,
};
pub use read::read_dbc;
pub use statement::{
    Heading, MessageForm, Note, Place, Says, Scaling, SignalForm, Statement, ValueText,
};
