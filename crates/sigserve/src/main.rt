//! The program `sigserve`: it hands the words of its command line, the files of the system and the standard
//! streams to `bench_server::run_tool`, and ends with the status's code.
//!
//! It builds on `bench_server` for all that is proved, and on `port_io` for the real files and streams. It
//! has no theorem of its own: it is shown by its stored run.
#![tactic(auto)]

use bench_server::{Status, run_tool};
use port_io::{ErrSink, FileLibrary, OutSink, write_piece};
use std::alloc::AllocError;
use std::env;
use std::io::ErrorKind;
use std::process::ExitCode;

/// The words behind the program's name. Words that are no text are those of no command.
fn words(rt: HostRuntime) -> Result<Vec<String>, AllocError> {
    match env::args(&rt) {
        Ok(words) => words.skip(1).collect(rt.alloc()),
        Err(error) if error.kind() == ErrorKind::OutOfMemory => Err(AllocError),
        Err(_) => Ok(Vec::new(rt.alloc())),
    }
}

/// Appends the line `memory`, as far as the error output takes it, and answers that status.
fn out_of_memory(err: &mut ErrSink) -> Status {
    match write_piece(err, b"memory\n") {
        Ok(()) | Err(_) => Status::Memory,
    }
}

fn main(rt: HostRuntime) -> ExitCode {
    let mut library = FileLibrary::new(rt);
    let mut out = OutSink::new(rt);
    let mut err = ErrSink::new(rt);
    let status = match words(rt) {
        Ok(words) => run_tool(rt.alloc(), &words, &mut library, &mut out, &mut err).status,
        Err(_) => out_of_memory(&mut err),
    };
    ExitCode::from(status.code())
}
