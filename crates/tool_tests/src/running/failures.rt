//! Runs in which the library, a log or a sink fails at a stated call.

use super::buses::{CLUSTER, CLUSTER_LOG};
use super::*;

/// A bench of two buses, one with a DBC and one with an LDF.
const TWO: Case<'static> = Case {
    words: DECODE,
    files: &[
        (
            "bench.txt",
            b"bus A can a.log a.dbc\nbus L lin l.log l.ldf\n",
        ),
        SPEED,
        CLUSTER,
        FRAME,
        CLUSTER_LOG,
    ],
};

const TWO_TEXT: &[u8] = b"start A 0\n\
      m A 0 0 1000000 Engine\n\
      s Speed 4000 8000 \"rpm\"\n\
      end A 1\n\
      start L 0\n\
      m L 0 0 1000000 Status\n\
      s Temp 100 10 \"degC\"\n\
      end L 1\n";

/// A call that fails, counted from 0, and how the run then ends: status, output, error line, logs handed back.
type Failing = (u64, u8, &'static [u8], &'static [u8], usize);

fn end_of(row: &Failing) -> End<'static> {
    let (_, code, out, err, logs) = *row;
    End {
        code,
        out,
        err,
        logs,
    }
}

/// The calls of the library: begin and two reads for the bench file, begin and three reads for the DBC, begin and eight
/// reads for the LDF, each up to the read that says the end; a log, another, and one that is not made.
const LIBRARY_CALLS: &[Failing] = &[
    (0, 5, b"", b"open\n", 0),
    (1, 6, b"", b"read\n", 0),
    (2, 6, b"", b"read\n", 0),
    (3, 5, b"", b"open\n", 0),
    (4, 6, b"", b"read\n", 0),
    (5, 6, b"", b"read\n", 0),
    (6, 6, b"", b"read\n", 0),
    (7, 5, b"", b"open\n", 0),
    (8, 6, b"", b"read\n", 0),
    (9, 6, b"", b"read\n", 0),
    (10, 6, b"", b"read\n", 0),
    (11, 6, b"", b"read\n", 0),
    (12, 6, b"", b"read\n", 0),
    (13, 6, b"", b"read\n", 0),
    (14, 6, b"", b"read\n", 0),
    (15, 6, b"", b"read\n", 0),
    (16, 5, b"", b"open\n", 0),
    (17, 5, b"", b"open\n", 1),
    (18, 0, TWO_TEXT, b"", 2),
];

fn fail_in_the_library(
    rt: &impl Abort,
    alloc: Global,
    case: &Case<'static>,
    rows: &[Failing],
) -> Result<(), AllocError> {
    for row in rows {
        let outside = Outside {
            library: &[row.0],
            ..QUIET
        };
        ends(rt, alloc, case, &outside, &end_of(row))?;
    }
    Ok(())
}

#[test]
fn each_call_of_the_library_fails_in_turn(rt: HostRuntime) -> Result<(), Fail> {
    fail_in_the_library(&rt, rt.alloc(), &TWO, LIBRARY_CALLS)?;
    Ok(())
}

const FIRST_FRAME: &[u8] = b"start A 0\n\
      m A 0 0 1000000 Engine\n\
      s Speed 4000 8000 \"rpm\"\n";

const SECOND_FRAME: &[u8] = b"start A 0\n\
      m A 0 0 1000000 Engine\n\
      s Speed 4000 8000 \"rpm\"\n\
      end A 1\n\
      start L 0\n\
      m L 0 0 1000000 Status\n\
      s Temp 100 10 \"degC\"\n";

/// The reads of the first log: its line, and its end.
const FIRST_READS: &[Failing] = &[
    (0, 6, b"", b"read A\n", 2),
    (1, 6, FIRST_FRAME, b"read A\n", 2),
    (2, 0, TWO_TEXT, b"", 2),
];

/// The reads of the second log.
const SECOND_READS: &[Failing] = &[
    (0, 6, SPEED_TEXT, b"read L\n", 2),
    (1, 6, SECOND_FRAME, b"read L\n", 2),
    (2, 0, TWO_TEXT, b"", 2),
];

fn fail_in_a_log(
    rt: &impl Abort,
    alloc: Global,
    log: &'static str,
    rows: &[Failing],
) -> Result<(), AllocError> {
    for row in rows {
        let outside = Outside {
            read: Some((log, row.0)),
            ..QUIET
        };
        ends(rt, alloc, &TWO, &outside, &end_of(row))?;
    }
    Ok(())
}

#[test]
fn a_log_that_fails_ends_the_text_behind_its_lines(rt: HostRuntime) -> Result<(), Fail> {
    fail_in_a_log(&rt, rt.alloc(), "a.log", FIRST_READS)?;
    fail_in_a_log(&rt, rt.alloc(), "l.log", SECOND_READS)?;
    Ok(())
}

/// The run in which the write behind this text fails, and that in which there is no room for more.
fn fail_behind(rt: &impl Abort, alloc: Global, text: &'static [u8]) -> Result<(), AllocError> {
    let end = End {
        code: 7,
        out: text,
        err: b"write\n",
        logs: 2,
    };
    let failing = Outside {
        step: 1,
        writes: &[text.len() as u64],
        ..QUIET
    };
    ends(rt, alloc, &TWO, &failing, &end)?;
    let full = Outside {
        room: text.len(),
        ..QUIET
    };
    ends(rt, alloc, &TWO, &full, &end)
}

#[test]
fn each_write_fails_in_turn(rt: HostRuntime) -> Result<(), Fail> {
    for count in 0..TWO_TEXT.len() {
        fail_behind(&rt, rt.alloc(), &TWO_TEXT[..count])?;
    }
    Ok(())
}

/// The writes of the error line of a failing log, in its three pieces, and one that is not made.
const ERROR_WRITES: &[Failing] = &[
    (0, 6, b"", b"", 1),
    (1, 6, b"", b"read ", 1),
    (2, 6, b"", b"read A", 1),
    (3, 6, b"", b"read A\n", 1),
];

fn fail_in_the_error_output(
    rt: &impl Abort,
    alloc: Global,
    rows: &[Failing],
) -> Result<(), AllocError> {
    for row in rows {
        let outside = Outside {
            read: Some(("a.log", 0)),
            lines: &[row.0],
            ..QUIET
        };
        ends(rt, alloc, &CLASSIC, &outside, &end_of(row))?;
    }
    Ok(())
}

#[test]
fn an_error_line_that_fails_leaves_the_status(rt: HostRuntime) -> Result<(), Fail> {
    fail_in_the_error_output(&rt, rt.alloc(), ERROR_WRITES)?;
    Ok(())
}

/// A frame read in pieces of 46 bytes, which are its line, with a fault behind it.
#[test]
fn a_fault_behind_a_line_ends_the_text_there(rt: HostRuntime) -> Result<(), Fail> {
    let outside = Outside {
        step: 46,
        read: Some(("a.log", 1)),
        ..QUIET
    };
    let end = End {
        code: 6,
        out: FIRST_FRAME,
        err: b"read A\n",
        logs: 1,
    };
    ends(&rt, rt.alloc(), &CLASSIC, &outside, &end)?;
    Ok(())
}

const CHECK: Case<'static> = Case {
    words: &["check", "a.dbc"],
    files: &[SPEED],
};

/// The calls of a check: begin, three reads, and one that is not made.
const CHECK_CALLS: &[Failing] = &[
    (0, 5, b"", b"open\n", 0),
    (1, 6, b"", b"read\n", 0),
    (2, 6, b"", b"read\n", 0),
    (3, 6, b"", b"read\n", 0),
    (4, 0, b"ok 1 1\n", b"", 0),
];

#[test]
fn a_check_that_fails_names_its_cause(rt: HostRuntime) -> Result<(), Fail> {
    fail_in_the_library(&rt, rt.alloc(), &CHECK, CHECK_CALLS)?;
    let writes = Outside {
        writes: &[0],
        ..QUIET
    };
    let end = End {
        code: 7,
        out: b"",
        err: b"write\n",
        logs: 0,
    };
    ends(&rt, rt.alloc(), &CHECK, &writes, &end)?;
    Ok(())
}
