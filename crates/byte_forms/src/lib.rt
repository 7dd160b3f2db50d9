//! Lines, literals, runs of bytes and numerals: the forms that the readers of the bench's files share, and the
//! hexadecimal digits that printers write.
//! It builds on std alone and takes no memory. Some readers take the front of a byte slice and give the rest,
//! others judge a whole text; all contracts but that of `next_line` are equations with functions on lists
//! (`specs/`), about which `laws` says how pieces join to a text and are taken from it again.
//! Main theorem: `next_line` gives the first of all lines of a text and a rest that has the others.
#![tactic(auto)]

mod class;
mod hexadecimal;
mod laws;
mod lines;
mod numerals;
mod pieces;
mod runs;

pub use class::Class;
pub use hexadecimal::{hex_of_byte, hex_of_number};
pub use laws::{a_number_is_that_of_its_digits, pieces_are_what_a_text_begins_with};
pub use lines::next_line;
pub use numerals::{Radix, number_up_to};
pub use pieces::{after_literal, field_before};
pub use runs::{is_all, run};
