//! The inputs of a bench, in the order in which every call reads them: the bench file, the databases, the logs.
//!
//! A library of `port_io` opens files by name, and `bench_file` reads the plan; here each phase is one call, with
//! what the library shows before and after as one relation. The tool and the server read their bench by them; the
//! databases are read first, all of them, and judged by their callers after that.
//!
//! Main theorem: each phase asks the library for its names alone, in order; on Ok what it gives is what the named files
//! hold, and a refusal has its cause: the faulty line, a count of the library that rose, or out of memory.
#![tactic(auto)]

mod bench;
mod database_file;
mod databases;
mod laws;
mod logs;
mod refused;

pub use bench::read_bench;
pub use database_file::DatabaseFile;
pub use databases::{read_database, read_databases};
pub use laws::{files_that_are_there, one_reading_of_a_database, one_reading_of_databases};
pub use logs::open_logs;
pub use refused::{BenchRefused, FileRefused, LogRefused};
