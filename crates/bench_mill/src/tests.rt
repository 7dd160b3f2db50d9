//! Worked runs.

use crate::{Totals, append_totals, mill};
use std::test::Fail;

#[test]
fn one_frame_has_four_signals(rt: HostRuntime) -> Result<(), Fail> {
    let totals = mill(rt.alloc(), 1)?;
    let mut text = Vec::new(rt.alloc());
    append_totals(&mut text, totals)?;
    assert!(rt; text.as_slice() == b"frames 1\nsignals 4\nsum 84052\n".as_slice());
    Ok(())
}

#[test]
fn a_thousand_frames_have_the_same_totals_again(rt: HostRuntime) -> Result<(), Fail> {
    let Totals {
        frames,
        signals,
        sum,
    } = mill(rt.alloc(), 1_000)?;
    assert_eq!(rt; frames, 1_000);
    assert_eq!(rt; signals, 4_000);
    let again = mill(rt.alloc(), 1_000)?;
    assert!(rt;
        again
            == Totals {
                frames,
                signals,
                sum
            }
    );
    Ok(())
}
