//! The text of a bench, printed as the logs of its buses are read, one after another.
//!
//! `bus_text` prints one bus; here are all buses of a bench, through one buffer that is flushed behind the last. The
//! tool's `decode` prints by it.
//!
//! Main theorem: on Ok `print_buses` has written exactly the texts of all buses of the bench, in order, each that of
//! all lines of its log's bytes; where a log fails or is too long the whole texts of the buses before it and its own as
//! far as the whole lines of the bytes taken go, and nothing of a later bus; else a prefix of the whole text.
#![tactic(auto)]

mod buses;
mod laws;
mod refused;

pub use buses::print_buses;
pub use laws::{a_fault_leaves_a_prefix_written, the_text_of_a_bench_goes_on};
pub use refused::BusesRefused;
