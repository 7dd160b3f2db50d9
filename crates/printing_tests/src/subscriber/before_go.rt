//! What is before the line `GO`.

use super::lines;
use std::alloc::{AllocError, Global};
use std::process::Abort;
use std::test::Fail;
use subscriber_text::{Asking, wants_before_go};

/// The first bytes of an input, whether it has ended, and what they say.
const INPUTS: [(&[u8], bool, Asking); 17] = [
    (b"", false, Asking::Open),
    (b"", true, Asking::Gone),
    (b"GO\n", false, Asking::Go { wants: 0 }),
    (b"GO", false, Asking::Open),
    (b"GO", true, Asking::Go { wants: 0 }),
    (
        b"WANT A\nGO\r\nWANT B\nGO\n",
        false,
        Asking::Go { wants: 7 },
    ),
    (b"WANT A\n\tGO \n", false, Asking::Go { wants: 7 }),
    (b"\n\nGO\n", false, Asking::Go { wants: 2 }),
    (b"GOX\nGO\n", false, Asking::Go { wants: 4 }),
    (b"GO X\nGO\n", false, Asking::Go { wants: 5 }),
    (b"go\n", false, Asking::Open),
    (b"go\n", true, Asking::Gone),
    (b"WANT A\n", true, Asking::Gone),
    (b"WANT A", true, Asking::Gone),
    (b"WANT A\nGO", false, Asking::Open),
    (b"WANT A\nGO", true, Asking::Go { wants: 7 }),
    (b"GO\r \nGO\n", false, Asking::Go { wants: 5 }),
];

fn say(rt: &impl Abort, inputs: &[(&[u8], bool, Asking)]) {
    for (bytes, ended, expected) in inputs {
        if bytes.len() <= 65_536 {
            assert_eq!(rt; wants_before_go(bytes, *ended), *expected);
        }
    }
}

#[test]
fn the_first_line_with_go_alone_ends_the_wants(rt: HostRuntime) {
    say(&rt, &INPUTS)
}

/// Line feeds, and this behind them.
fn behind_feeds(alloc: Global, feeds: usize, end: &[u8]) -> Result<Vec<u8>, AllocError> {
    let mut text = vec![in alloc; b'\n'; feeds]?;
    text.extend_from_slice(end)?;
    Ok(text)
}

/// Line feeds, what is behind them, whether the input has ended, and what that says.
const AT_THE_LIMIT: &[(usize, &[u8], bool, Asking)] = &[
    (65_533, b"GO\n", false, Asking::Go { wants: 65_533 }),
    (65_534, b"GO", true, Asking::Long { n: 65_535 }),
    (65_533, b"GO", true, Asking::Go { wants: 65_533 }),
    (65_533, b"GO", false, Asking::Open),
    (65_536, b"", false, Asking::Long { n: 65_536 }),
    (65_535, b"", true, Asking::Gone),
    (65_532, b"WANT", false, Asking::Long { n: 65_533 }),
];

/// Each text says so.
fn assert_at_the_limit(
    rt: &impl Abort,
    alloc: Global,
    rows: &[(usize, &[u8], bool, Asking)],
) -> Result<(), Fail> {
    for (feeds, end, ended, expected) in rows {
        let text = behind_feeds(alloc, *feeds, end)?;
        assert!(rt; text.len() <= 65_536);
        assert_eq!(rt; wants_before_go(&text, *ended), *expected);
    }
    Ok(())
}

#[test]
fn its_end_parses_among_the_first_65536_bytes(rt: HostRuntime) -> Result<(), Fail> {
    assert_at_the_limit(&rt, rt.alloc(), AT_THE_LIMIT)
}

/// The first bytes of so many lines that want a bus.
fn first_of_lines(alloc: Global, count: u32, len: usize) -> Result<Vec<u8>, AllocError> {
    let mut text = lines(alloc, count)?;
    text.truncate(len);
    Ok(text)
}

#[test]
fn the_last_byte_that_may_come_is_in_the_faulty_line(rt: HostRuntime) -> Result<(), Fail> {
    let text = first_of_lines(rt.alloc(), 9363, 65_536)?;
    assert!(rt; text.len() <= 65_536);
    assert_eq!(rt; wants_before_go(&text, false), Asking::Long { n: 9363 });
    Ok(())
}
