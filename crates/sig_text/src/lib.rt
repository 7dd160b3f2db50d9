//! The tokens of DBC and LDF text, and the content of their strings.
//!
//! A text is words, numbers, strings and signs, with white space between them and, where the format has them,
//! comments. The readers of whole DBC and LDF text read the list that `tokens` gives, over `token_forms`. It builds on
//! std and `thiserror`.
//!
//! The theorem: `tokens` answers the list of longest tokens that the text is made of, or the first place at which
//! there is none, exactly where the text has the one or the other, unless memory runs out; each text has one such
//! list or one such place, and never both. What `string_of` makes is UTF-8.
#![tactic(auto)]

mod blank;
mod bytes;
mod content;
mod fault;
mod laws;
mod lexer;
mod number;
mod scan;
mod string;
mod token;

pub use content::string_of;
pub use fault::LexFault;
pub use laws::reading_is_unique;
pub use lexer::tokens;
pub use token::{Token, TokenKind};
