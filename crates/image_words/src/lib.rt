//! Images of a bench: a list of words that encodes one, and the decoding of frames straight from the words.
//!
//! A bench is kept where versions of it are exchanged as a list of words of 64 bits. `Words` reads such a list
//! word by word, whatever keeps it; `image_compiler` writes one. The crate builds on `bench_model`, whose types
//! and meaning it speaks of, on `exact_scale` and on `multiplex_tree`.
//!
//! Main theorem: where some list fits the words known, `walk` gives a visitor, and `decode` gives as a value of its
//! own, unless memory runs out, the meaning of a frame's bytes under the bench of each list that fits when it returns,
//! and a list encodes at most one bench.
#![tactic(auto)]

mod activity;
mod choices;
mod coding;
mod decoding;
mod index;
mod joining;
mod laws;
pub mod layout;
mod matching;
mod numbers;
mod raw;
mod rows;
mod shape;
mod texts;
mod values;
mod visit;
mod walking;
mod words;

pub use decoding::decode;
pub use laws::{
    knowledge_narrows, known_words_decide, one_encoded, signals_have_rows, whole_list_fits,
};
pub use numbers::{group_of, key_number_of};
pub use raw::raw_of;
pub use values::ValueBuffer;
pub use visit::Visit;
pub use walking::walk;
pub use words::Words;
