//! Whole files through `read_dbc`, and frames under what it reads.

use dbc_grammar::{DbcFault, read_dbc};

mod faults;
mod frames;
mod real_files;
mod showing;
