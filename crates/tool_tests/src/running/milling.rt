//! `mill` over few frames.

use super::*;

const ONE: Case<'static> = Case {
    words: &["mill", "1"],
    files: &[],
};

const ONE_TEXT: &[u8] = b"frames 1\nsignals 4\nsum 84052\n";

#[test]
fn one_generated_frame_has_four_signals(rt: HostRuntime) -> Result<(), Fail> {
    let end = End {
        code: 0,
        out: ONE_TEXT,
        err: b"",
        logs: 0,
    };
    ends(&rt, rt.alloc(), &ONE, &QUIET, &end)?;
    Ok(())
}

#[test]
fn a_write_that_fails_leaves_a_part_of_the_numbers(rt: HostRuntime) -> Result<(), Fail> {
    let outside = Outside {
        step: 9,
        writes: &[1],
        ..QUIET
    };
    let end = End {
        code: 7,
        out: b"frames 1\n",
        err: b"write\n",
        logs: 0,
    };
    ends(&rt, rt.alloc(), &ONE, &outside, &end)?;
    Ok(())
}
