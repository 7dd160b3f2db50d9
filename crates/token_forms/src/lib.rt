//! What readers of statements over tokens share: quoted words and signs, names, numbers, strings, and runs of forms.
//!
//! It lies between `sig_text`, whose tokens it reads, and the readers of whole databases, `dbc_grammar` and
//! `ldf_grammar`. A reader is a few of these functions joined by `?`, each of which takes the front of a list of
//! tokens and gives the rest; what one finds is an equation with a function on lists (`specs/`). Numbers come from
//! `byte_forms`, decimals from `exact_scale`.
//!
//! Main theorem: each reader finds at the front of the tokens exactly what its form on lists says, and gives the tokens
//! after it; the decimal of a signed number is the one that its sign and its digits denote, and each signed number denotes
//! one.
#![tactic(auto)]

mod content;
mod fault;
mod laws;
mod numbers;
mod pieces;
mod scaling;

pub use content::string_content;
pub use fault::NumberFault;
pub use laws::{
    a_signed_number_is_a_decimal_text, forms_find_what_parses, one_longest_run, one_scale_or_none,
};
pub use numbers::{
    SignedNumber, decimal_of, digits_at, number_up_to_at, signed_at, whole_at, whole_value,
};
pub use pieces::{literal_at, number_at, string_at, token_text, word_at};
pub use scaling::scale_of;
