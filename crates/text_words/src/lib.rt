//! Lines and words of the texts that people write: the bench file, the wants and the commands of a connection; and words
//! as they are written, behind a blank each.
//!
//! Lines end at a line feed, and a carriage return before it is dropped; words are parted by spaces and tabs. The
//! crate builds on `byte_forms` for lines and on `exact_scale` for what an append leaves. The readers take no memory: each
//! gives a prefix of a text and the rest.
//!
//! Main theorem: `next_text_line` gives the first of all lines of a text and a rest that has the others, and
//! `next_word` does the same of the words of a line.
#![tactic(auto)]

mod lines;
mod spaced;
mod words;

pub use lines::{next_text_line, without_return};
pub use spaced::append_word;
pub use words::next_word;
