//! The tests of the crates that read words and print text: `byte_forms`, `text_words`, `decoded_list`,
//! `subscriber_text`, `bus_text` and `bench_text`. They show what no contract says: that calls succeed with
//! ample memory, and that worked logs, records and wants have the texts that their formats give them.
//!
//! They are a crate of their own so that a library's proof is not made twice, once beside its tests. Here
//! the libraries are seen by their public contracts alone. There is one module a library; `databases`, `cases`
//! and `pieces` are what the tests of `decoded_list`, `bus_text` and `bench_text` share.
#![tactic(auto)]

#[cfg(test)]
mod benches;
#[cfg(test)]
mod buses;
#[cfg(test)]
mod bytes;
#[cfg(test)]
mod cases;
#[cfg(test)]
mod databases;
#[cfg(test)]
mod pieces;
#[cfg(test)]
mod records;
#[cfg(test)]
mod subscriber;
#[cfg(test)]
mod words;
