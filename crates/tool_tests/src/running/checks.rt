//! `check` over files of both grammars.

use super::buses::{CLUSTER, DESCRIPTION, ENGINE};
use super::*;

/// The words and the file of a check: the exit status, the text and the error line.
type Checked = (
    &'static [&'static str],
    &'static [File<'static>],
    u8,
    &'static [u8],
    &'static [u8],
);

const CHECKS: &[Checked] = &[
    (&["check", "a.dbc"], &[ENGINE], 0, b"ok 1 3\n", b""),
    (&["check", "l.ldf"], &[CLUSTER], 0, b"ok 1 1\n", b""),
    (&["check", "a.dbc"], &[("a.dbc", b"")], 0, b"ok 0 0\n", b""),
    (
        &["check", "--", "-l.LDF"],
        &[("-l.LDF", DESCRIPTION)],
        0,
        b"ok 1 1\n",
        b"",
    ),
    (
        &["check", "a.dbc"],
        &[("a.dbc", b"VERSION \"\"\nBO_ 256 Engine: 8")],
        4,
        b"",
        b"refused statement 11\n",
    ),
    (
        &["check", "l.ldf"],
        &[(
            "l.ldf",
            b"LIN_description_file;\nFrames { F: 1, N, 1 { Tmp, 0; } }",
        )],
        4,
        b"",
        b"refused name 44\n",
    ),
    (
        &["check", "l.ldf"],
        &[("l.ldf", b"")],
        4,
        b"",
        b"refused statement 0\n",
    ),
    (
        &["check", "a.dbc"],
        &[("a.dbc", b"VERSION")],
        4,
        b"",
        b"refused statement 0\n",
    ),
    (
        &["check", "a.dbc"],
        &[("a.dbc", b"VERSION \"")],
        4,
        b"",
        b"refused string 8\n",
    ),
    (&["check", "none"], &[ENGINE], 5, b"", b"open\n"),
];

#[test]
fn a_file_is_counted_or_refused(rt: HostRuntime) -> Result<(), Fail> {
    each_is_checked(&rt, rt.alloc(), CHECKS)?;
    Ok(())
}

fn each_is_checked(rt: &impl Abort, alloc: Global, rows: &[Checked]) -> Result<(), AllocError> {
    for (words, files, code, out, err) in rows {
        let case = Case { words, files };
        let end = End {
            code: *code,
            out,
            err,
            logs: 0,
        };
        ends(rt, alloc, &case, &QUIET, &end)?;
    }
    Ok(())
}
