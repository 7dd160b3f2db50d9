//! The databases of a bench, judged file by file, or one file checked alone; the text of a file's fault; and the loader,
//! which answers commands and publishes a bench with new databases as one version of a store.
//!
//! `bench_inputs` reads the files, and the grammars of DBC and LDF read their texts; here a file of a bus is its
//! database or a `DatabaseFault`. `image_compiler` makes the image of a bench, and `region_store` publishes it.
//! `bench_server` judges the databases of its buses by this crate.
//!
//! Main theorem: unless memory runs out or the library fails, `judge_bench` gives exactly the bench that the files make,
//! or their first refusal in order, `check_file` the database that the named file holds, or its fault, and
//! `Loader::command` the reply that is due to the line, or that each region may be held; an accepted command publishes
//! one image, of the bench with the databases of its files, and every other leaves the bench and the images as they
//! were; the files decide which (`laws`, `command_laws`). `DatabaseFault::text` and `Reply::text` append their words.
#![tactic(auto)]

mod check;
mod command_laws;
mod fault;
mod judge;
mod laws;
mod line;
mod load_files;
mod load_line;
mod loader;
mod reply;
mod reply_text;
mod targets;
mod text;

pub use check::{CheckRefused, check_file};
pub use command_laws::{
    images_are_published, one_due_reply, one_list_is_published, replies_are_counted, runs_join,
    runs_keep_the_library,
};
pub use fault::{BenchRefused, DatabaseFault, JudgeRefused};
pub use judge::{judge_bench, judge_database};
pub use laws::{one_check, one_judgement, one_judgement_of_a_file, one_verdict};
pub use load_line::Pair;
pub use loader::Loader;
pub use reply::Reply;
pub use targets::Target;
