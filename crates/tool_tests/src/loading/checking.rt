//! Files checked by their names.

use super::*;
use bench_loader::{CheckRefused, check_file};
use bench_model::Valid;
use port_io::{Library, MemLibrary};
use std::process::Abort;
use std::test::*;

/// The check alone: its callers see none of its clauses.
fn checked<B: Library>(alloc: Global, library: &mut B, name: &str) -> Result<Valid, CheckRefused> {
    check_file(alloc, library, name)
}

/// The messages of a database, or why there is none.
fn text_of(alloc: Global, checked: Result<Valid, CheckRefused>) -> Result<Vec<u8>, AllocError> {
    let mut out = Vec::new(alloc);
    match checked {
        Ok(valid) => {
            out.extend_from_slice(b"ok")?;
            append_names(&mut out, &valid.into_database())?;
        }
        Err(CheckRefused::Fault { fault }) => fault.text(&mut out)?,
        Err(CheckRefused::Open) => out.extend_from_slice(b"open")?,
        Err(CheckRefused::Read) => out.extend_from_slice(b"read")?,
        Err(CheckRefused::Memory) => out.extend_from_slice(b"out of memory")?,
    }
    Ok(out)
}

/// The messages of the file of this name, or why it gives none; the calls of these numbers fail.
fn outcome(
    alloc: Global,
    files: &[MemFile],
    fails: &[u64],
    name: &str,
) -> Result<Vec<u8>, AllocError> {
    let mut library = MemLibrary::new(files, Vec::from_slice(alloc, fails)?);
    let checked = checked(alloc, &mut library, name);
    text_of(alloc, checked)
}

/// Names, the bytes of the file that has them, and what is answered.
const NAMES: [(&str, &[u8], &[u8]); 8] = [
    ("l.ldf", STATUS, b"ok Status"),
    ("L.LDF", STATUS, b"ok Status"),
    ("a.dbc.Ldf", ENGINE, b"statement 0"),
    ("a.dbc", ENGINE, b"ok Engine"),
    ("ldf", CRUISE, b"ok CCVS"),
    ("l.ldf.dbc", STATUS, b"statement 0"),
    ("", b"", b"ok"),
    ("a.dbc", SENDERLESS, b"statement 11"),
];

/// The same of a library with this file alone.
fn outcome_of_one(alloc: Global, name: &str, bytes: &[u8]) -> Result<Vec<u8>, AllocError> {
    let files = vec![in alloc; file_named(alloc, name, bytes)?]?;
    outcome(alloc, &files, &[], name)
}

fn are_checked(rt: &impl Abort, alloc: Global, rows: &[(&str, &[u8], &[u8])]) -> Result<(), Fail> {
    for (name, bytes, wanted) in rows {
        assert_eq!(rt; outcome_of_one(alloc, name, bytes)?.as_slice(), *wanted);
    }
    Ok(())
}

#[test]
fn a_file_is_checked_by_the_grammar_of_its_name(rt: HostRuntime) -> Result<(), Fail> {
    are_checked(&rt, rt.alloc(), &NAMES)
}

/// Each call of a check that fails: the begin, and two reads.
fn have_causes(rt: &impl Abort, alloc: Global, rows: &[(u64, &[u8])]) -> Result<(), Fail> {
    let files = vec![in alloc; file_named(alloc, "l.ldf", STATUS)?]?;
    for (call, wanted) in rows {
        assert_eq!(rt;
            outcome(alloc, &files, &[*call], "l.ldf")?.as_slice(),
            *wanted
        );
    }
    Ok(())
}

#[test]
fn each_call_that_fails_is_the_cause(rt: HostRuntime) -> Result<(), Fail> {
    let causes: [(u64, &[u8]); 4] = [(0, b"open"), (1, b"read"), (2, b"read"), (3, b"ok Status")];
    have_causes(&rt, rt.alloc(), &causes)?;
    let missing = outcome(rt.alloc(), &[], &[], "l.ldf")?;
    assert_eq!(rt; missing.as_slice(), b"open".as_slice());
    Ok(())
}

/// What the check of a file of so many line feeds answers.
fn blank_outcome(alloc: Global, name: &str, count: usize) -> Result<Vec<u8>, AllocError> {
    let mut file = file_named(alloc, name, b"")?;
    file.content = vec![in alloc; b'\n'; count]?;
    let files = vec![in alloc; file]?;
    outcome(alloc, &files, &[], name)
}

#[test]
fn a_file_of_just_the_limit_is_read(rt: HostRuntime) -> Result<(), Fail> {
    let read = blank_outcome(rt.alloc(), "a.dbc", 16_777_216)?;
    assert_eq!(rt; read.as_slice(), b"ok".as_slice());
    Ok(())
}

#[test]
fn a_file_above_the_limit_is_long(rt: HostRuntime) -> Result<(), Fail> {
    let long = blank_outcome(rt.alloc(), "a.dbc", 16_777_217)?;
    assert_eq!(rt; long.as_slice(), b"long".as_slice());
    Ok(())
}
