//! What a log decodes to: the records of its lines on a bus, each line under a whole version of the databases.
//!
//! `candump_log` says what a line is, `j1939_tp` which messages of several packets the frames make, and `bench_model`
//! what bytes mean; here is the one definition of the list that they give together, and the plain step that gives the
//! records of one line. `bus_text` takes the halves of a step, and asks words that encode a bench.
//!
//! Main theorem: whatever lines came before, `BusDecoder::step` gives exactly the records of the next line in the
//! decoded list, its own and on a J1939 bus that of the message which its frame completes or breaks off, unless memory
//! runs out. Its two halves, `hear` and `records`, say the same of databases that are asked in another way.
#![tactic(auto)]

mod asking;
mod bodies;
mod decoder;
mod laws;

pub use decoder::{BusDecoder, Records, listen, stamp_of};
pub use laws::{a_record_is_of_a_line, records_are_numbered_by_their_places, the_list_goes_on};
