//! The tests of the model of a bench: decimals and scalings, trees of multiplexed signals, databases and what `check`
//! answers of them, and frames that both decoders, over a bench and over its image, give one meaning.
//!
//! They show what no clause shows: that calls succeed with ample memory, and values that were worked out by hand or by
//! another tool. They are a crate of their own, above `exact_scale`, `multiplex_tree`, `bench_model`, `image_words` and
//! `image_compiler`, so that the proof of a library is not made once more with its tests.
#![tactic(auto)]

#[cfg(test)]
mod building;
#[cfg(test)]
mod checks;
#[cfg(test)]
mod copies;
#[cfg(test)]
mod crossing;
#[cfg(test)]
mod exact;
#[cfg(test)]
mod example;
#[cfg(test)]
mod frames;
#[cfg(test)]
mod images;
#[cfg(test)]
mod messages;
#[cfg(test)]
mod signals;
#[cfg(test)]
mod trees;
