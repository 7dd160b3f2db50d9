//! Decimals and scalings in whole numbers, exact to the last digit.
//!
//! A value is the number that the database states, never a rounding of it. This base crate reads the decimals of
//! a database (`Decimal::read`), brings a factor and an offset over one power of ten (`Scale::new`), applies them
//! to a raw value (`Scale::apply`) and writes the outcome (`Exact::append`). `bench_model` uses it for the
//! values of signals, and a reader of databases makes the scales; it builds on std, `itoa` and `thiserror`.
//!
//! Main theorem: what `read` answers is the fraction that the text denotes over the least power of ten, what
//! `apply` answers is `raw * factor + offset` over that power, and what `append` writes is the shortest decimal
//! of that fraction.
#![tactic(auto)]

mod digits;
mod laws;
mod parts;
mod printing;
mod reading;
mod scaling;
mod significand;

pub use laws::{a_decimal_text_denotes_one, decimal_is_unique};
pub use printing::Exact;
pub use reading::{Decimal, DecimalFault};
pub use scaling::{GREATEST_RAW, LEAST_RAW_SIZE, Scale, Wide};
