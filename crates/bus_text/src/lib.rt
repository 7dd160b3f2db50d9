//! The text of a bus, printed as its log is read.
//!
//! `candump_log` gives the lines of a log, `decoded_list` the records of each and `subscriber_text` their text;
//! here they are one stream: a log of any length is decoded and printed through one buffer, in memory that does
//! not grow with it. `bench_text` prints the buses of a bench by it, one after another.
//!
//! Main theorem: on Ok `print_bus` has given exactly the text of all lines of the log's bytes, its start, its records
//! and its end, to the buffer and the sink behind it; where the log fails or is too long just the text as far as the
//! whole lines of the bytes taken go, written before the fault is answered; else a prefix of the whole text.
#![tactic(auto)]

mod buffer;
mod bus;
mod image;
mod laws;
mod printer;
mod printing;
mod records;
mod refused;

pub use buffer::TextBuffer;
pub use bus::BusPlace;
pub use image::BenchImage;
pub use laws::{the_text_goes_on, uses_of_a_buffer_are_one};
pub use printing::{Printed, print_bus};
pub use refused::BusRefused;
