//! Words that are taken, and words that aren't.

use crate::{Command, command_of, is_ldf_name};
use std::alloc::Global;
use std::process::Abort;
use std::test::Fail;

/// Words, and the command that they name.
type Row = (&'static [&'static str], Option<Command<'static>>);

fn name_commands(rt: &impl Abort, alloc: Global, rows: &[Row]) -> Result<(), Fail> {
    for (words, command) in rows {
        let mut given = Vec::new(alloc);
        for word in *words {
            given.push(String::from_str(alloc, word)?)?;
        }
        assert!(rt; command_of(&given) == *command);
    }
    Ok(())
}

const COMMANDS: [Row; 18] = [
    (
        &["decode", "bench.txt"],
        Some(Command::Decode { bench: "bench.txt" }),
    ),
    (&["decode", "-"], Some(Command::Decode { bench: "-" })),
    (&["decode", ""], Some(Command::Decode { bench: "" })),
    (
        &["decode", "--", "-x"],
        Some(Command::Decode { bench: "-x" }),
    ),
    (
        &["decode", "--", "--"],
        Some(Command::Decode { bench: "--" }),
    ),
    (&["decode", "a", "--"], Some(Command::Decode { bench: "a" })),
    (&["check", "a.dbc"], Some(Command::Check { file: "a.dbc" })),
    (&[], None),
    (&["decode"], None),
    (&["decode", "--"], None),
    (&["decode", "a", "b"], None),
    (&["decode", "-x"], None),
    (&["decode", "-x", "--", "a"], None),
    (&["decode", "a", "--", "b"], None),
    (&["--", "decode", "a"], None),
    (&["help"], None),
    (&["mills", "1"], None),
    (&["Decode", "a"], None),
];

#[test]
fn words_name_commands(rt: HostRuntime) -> Result<(), Fail> {
    name_commands(&rt, rt.alloc(), &COMMANDS)
}

const MILLS: [Row; 14] = [
    (&["mill", "1"], Some(Command::Mill { frames: 1 })),
    (&["mill", "007"], Some(Command::Mill { frames: 7 })),
    (
        &["mill", "00000000000000000000000000000000000000001"],
        Some(Command::Mill { frames: 1 }),
    ),
    (
        &["mill", "1000000"],
        Some(Command::Mill { frames: 1_000_000 }),
    ),
    (&["mill", "--", "1"], Some(Command::Mill { frames: 1 })),
    (&["mill", "0"], None),
    (&["mill", "1000001"], None),
    (&["mill", "18446744073709551617"], None),
    (&["mill", ""], None),
    (&["mill", "+1"], None),
    (&["mill", "--", "-1"], None),
    (&["mill", "1x"], None),
    (&["mill"], None),
    (&["mill", "1", "2"], None),
];

#[test]
fn mill_takes_one_to_a_million_frames(rt: HostRuntime) -> Result<(), Fail> {
    name_commands(&rt, rt.alloc(), &MILLS)
}

/// Names, and whether they are those of LDF files.
const NAMES: [(&str, bool); 9] = [
    ("l.ldf", true),
    ("L.LDF", true),
    (".ldf", true),
    ("a.dbc.Ldf", true),
    ("ldf", false),
    ("l.ldf ", false),
    ("", false),
    ("l.dbc", false),
    ("l.ldfx", false),
];

fn name_ldf_files(rt: &impl Abort, rows: &[(&str, bool)]) {
    for (name, is_ldf) in rows {
        assert!(rt; is_ldf_name(name) == *is_ldf);
    }
}

#[test]
fn names_of_ldf_files_end_in_any_case(rt: HostRuntime) {
    name_ldf_files(&rt, &NAMES);
}
