//! What the tool does with the files of a bench: tests of `bench_inputs`, `bench_loader` and `bench_server`.
//!
//! `inputs` reads a bench in its phases. `loading` judges and checks databases, reads the words of every fault, and has
//! a loader answer commands over stores. `running` runs the tool over files in memory. Each has calls of the outside
//! fail in turn.
//!
//! They are in a crate of their own so that a library's proof is not made twice: a test inside a library is proved
//! together with that whole library once more. Here the libraries are seen by their public contracts alone.
#![tactic(auto)]

#[cfg(test)]
mod inputs;
#[cfg(test)]
mod loading;
#[cfg(test)]
mod running;
