//! The bench file: which buses there are, where their logs and databases are, and the numbers of a server.
//!
//! A bench file is text, a line for each bus and for each number. The crate builds on `text_words` for lines and
//! words, on `byte_forms` for names and numbers and on `bench_model` for texts and kinds of buses; the tool and the
//! server read their bench by it.
//!
//! Main theorem: unless memory runs out, `read_plan` gives exactly the plan that the bytes make, or names the line
//! at which they are faulty; each file has one plan or one faulty line (`laws`).
#![tactic(auto)]

mod draft;
mod fault;
mod file_name;
mod laws;
mod line;
mod plan;
mod read;
mod setting;

pub use fault::PlanFault;
pub use file_name::FileName;
pub use laws::{limits_of_a_plan, one_plan_or_one_fault};
pub use line::name_text;
pub use plan::{Plan, PlannedBus};
pub use read::{LONGEST_FILE, read_plan};
pub use setting::Setting;
