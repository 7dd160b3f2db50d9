//! Words, bench files and databases that are refused, and in which order.

use super::*;

const USAGE_LINE: &[u8] =
    b"usage: sigserve decode BENCH | check FILE | mill N | serve BENCH DESK PLACE..\n";

/// Words, each list those of no command.
const NO_COMMANDS: &[&[&str]] = &[
    &[],
    &["decode"],
    &["decode", "a", "b"],
    &["decode", "-x"],
    &["help"],
    &["mill", "0"],
    &["mill", "1000001"],
    &["--", "decode", "bench.txt"],
    &["serve", "bench.txt", "desk", "place"],
];

#[test]
fn words_of_no_command_are_usage(rt: HostRuntime) -> Result<(), Fail> {
    each_is_usage(&rt, rt.alloc(), NO_COMMANDS)?;
    Ok(())
}

fn each_is_usage(rt: &impl Abort, alloc: Global, rows: &[&[&str]]) -> Result<(), AllocError> {
    for words in rows {
        let case = Case {
            words,
            files: CLASSIC.files,
        };
        let end = End {
            code: 2,
            out: b"",
            err: USAGE_LINE,
            logs: 0,
        };
        ends(rt, alloc, &case, &QUIET, &end)?;
    }
    Ok(())
}

/// Files of a bench that is refused, the exit status and the line.
type Refused = (&'static [File<'static>], u8, &'static [u8]);

fn each_is_refused(rt: &impl Abort, alloc: Global, rows: &[Refused]) -> Result<(), AllocError> {
    for (files, code, err) in rows {
        let case = Case {
            words: DECODE,
            files,
        };
        let end = End {
            code: *code,
            out: b"",
            err,
            logs: 0,
        };
        ends(rt, alloc, &case, &QUIET, &end)?;
    }
    Ok(())
}

const BENCH_FILES: &[Refused] = &[
    (
        &[("bench.txt", b"bus A can a.log\nring 1\n")],
        3,
        b"bench 2\n",
    ),
    (&[("bench.txt", b"")], 3, b"bench 0\n"),
    (
        &[(
            "bench.txt",
            b"bus A can a.log\nversions 0\nbus A can b.log\n",
        )],
        3,
        b"bench 3\n",
    ),
    (&[], 5, b"open\n"),
    (&[CAN], 5, b"open\n"),
    (&[CAN, SPEED], 5, b"open\n"),
];

#[test]
fn bench_files_are_judged_before_their_databases(rt: HostRuntime) -> Result<(), Fail> {
    each_is_refused(&rt, rt.alloc(), BENCH_FILES)?;
    Ok(())
}

/// Databases of one CAN bus that are refused, and the line. The log is not there.
const DATABASES: &[Refused] = &[
    (
        &[
            CAN,
            (
                "a.dbc",
                b"VERSION \"\"\n\
                  BO_ 256 Engine: 8 ECU\n\
                  \x20  SG_ Speed : 0|16@1+ (4611686018427387904,0) [0|0] \"\" Vector__XXX\n",
            ),
        ],
        4,
        b"refused A scale 36\n",
    ),
    (
        &[
            CAN,
            (
                "a.dbc",
                b"VERSION \"\"\n\
                  BO_ 512 Mux: 8 ECU\n\
                  \x20SG_ Top M : 0|8@1+ (1,0) [0|0] \"\" Vector__XXX\n\
                  \x20SG_ Mid m1M : 8|8@1+ (1,0) [0|0] \"\" Vector__XXX\n\
                  \x20SG_ Low m2M : 16|8@1+ (1,0) [0|0] \"\" Vector__XXX\n\
                  SG_MUL_VAL_ 512 Mid Low 1-1;\n\
                  SG_MUL_VAL_ 512 Low Mid 2-3;\n",
            ),
        ],
        4,
        b"refused A mux 512 Mid cycle\n",
    ),
    (
        &[
            CAN,
            (
                "a.dbc",
                b"VERSION \"\"\n\
                  BO_ 512 Mux: 8 ECU\n\
                  \x20SG_ Top M : 0|8@1+ (1,0) [0|0] \"\" Vector__XXX\n\
                  \x20SG_ Mid m1M : 8|8@1+ (1,0) [0|0] \"\" Vector__XXX\n\
                  \x20SG_ Low m2 : 16|8@1+ (1,0) [0|0] \"\" Vector__XXX\n\
                  SG_MUL_VAL_ 512 Mid Nope 1-1;\n",
            ),
        ],
        4,
        b"refused A mux 512 Mid noparent\n",
    ),
    (
        &[
            CAN,
            (
                "a.dbc",
                b"VERSION \"\"\n\
                  BO_ 512 Mux: 8 ECU\n\
                  \x20SG_ P M : 0|8@1+ (1,0) [0|0] \"\" Vector__XXX\n\
                  \x20SG_ Q M : 8|8@1+ (1,0) [0|0] \"\" Vector__XXX\n\
                  \x20SG_ C m1 : 16|8@1+ (1,0) [0|0] \"\" Vector__XXX\n",
            ),
        ],
        4,
        b"refused A mux 512 C ambiguous\n",
    ),
    (
        &[CAN, ("a.dbc", b"VERSION \"\"\nBO_ 256 Engine: 8")],
        4,
        b"refused A statement 11\n",
    ),
    (
        &[
            CAN,
            (
                "a.dbc",
                b"VERSION \"\"\n\
                  BO_ 256 Engine: 8 ECU\n\
                  \x20SG_ Speed : 0|16@1+ (2,0) [0|0] \"\" Vector__XXX\n\
                  SIG_VALTYPE_ 256 Speed : 1;\n",
            ),
        ],
        4,
        b"refused A float 256 Speed\n",
    ),
];

#[test]
fn a_refused_database_is_named_with_its_bus(rt: HostRuntime) -> Result<(), Fail> {
    each_is_refused(&rt, rt.alloc(), DATABASES)?;
    Ok(())
}

/// A database of one byte more than it may have.
fn long_files(alloc: Global) -> Result<Vec<MemFile>, AllocError> {
    let mut files = files_of(alloc, &[CAN], &QUIET)?;
    files.push(MemFile {
        name: String::from_str(alloc, "a.dbc")?,
        content: vec![in alloc; b'\n'; 16_777_217]?,
        step: 4_096,
        fails: Vec::new(alloc),
    })?;
    Ok(files)
}

#[test]
fn a_database_of_too_many_bytes_is_long(rt: HostRuntime) -> Result<(), Fail> {
    let files = long_files(rt.alloc())?;
    let left = run_over(rt.alloc(), DECODE, &files, &QUIET)?;
    let end = End {
        code: 4,
        out: b"",
        err: b"refused A long\n",
        logs: 0,
    };
    is_end(&rt, &left, &end);
    Ok(())
}

/// A bench of two buses.
const TWO: File<'static> = (
    "bench.txt",
    b"bus A can a.log a.dbc\nbus B can b.log b.dbc\n",
);

const ORDER: &[Refused] = &[
    (&[TWO, ("a.dbc", b"x")], 5, b"open\n"),
    (
        &[TWO, ("a.dbc", b"x"), ("b.dbc", b"y")],
        4,
        b"refused A statement 0\n",
    ),
    (
        &[TWO, SPEED, ("b.dbc", b"y")],
        4,
        b"refused B statement 0\n",
    ),
];

#[test]
fn all_databases_are_read_before_one_is_judged(rt: HostRuntime) -> Result<(), Fail> {
    each_is_refused(&rt, rt.alloc(), ORDER)?;
    Ok(())
}

/// Benches of 31 words in regions of fewer, whose log is not there.
const LARGE: &[Refused] = &[
    (
        &[("bench.txt", b"bus A can a.log a.dbc\nwords 30\n"), SPEED],
        10,
        b"large 31 30\n",
    ),
    (
        &[("bench.txt", b"words 1\nbus A can a.log a.dbc\n"), SPEED],
        10,
        b"large 31 1\n",
    ),
    (
        &[("bench.txt", b"bus A can a.log a.dbc\nwords 31\n"), SPEED],
        5,
        b"open\n",
    ),
    (
        &[
            ("bench.txt", b"bus A can a.log a.dbc\nwords 1\n"),
            ("a.dbc", b"VERSION \"\"\n\"open"),
        ],
        4,
        b"refused A string 11\n",
    ),
];

#[test]
fn a_bench_of_more_words_than_a_region_is_large_before_a_log_is_opened(
    rt: HostRuntime,
) -> Result<(), Fail> {
    each_is_refused(&rt, rt.alloc(), LARGE)?;
    Ok(())
}

#[test]
fn a_missing_log_leaves_those_before_it(rt: HostRuntime) -> Result<(), Fail> {
    let case = Case {
        words: DECODE,
        files: &[TWO, SPEED, ("b.dbc", b""), FRAME],
    };
    let end = End {
        code: 5,
        out: b"",
        err: b"open\n",
        logs: 1,
    };
    ends(&rt, rt.alloc(), &case, &QUIET, &end)?;
    Ok(())
}
