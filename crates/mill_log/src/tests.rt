//! Worked pieces.

ghost use Rattle.std.specs.Prelude.{◌<◌};

use crate::push_frames;
use std::process::Abort;
use std::test::Fail;

/// One frame is this line, and the generator is here behind it.
fn has_line(
    rt: &impl Abort,
    mut log: Vec<u8>,
    first: u32,
    before: u64,
    line: &[u8],
    behind: u64,
) -> Result<(), Fail>
    requires { first < 1000000 }
{
    let next = push_frames(&mut log, first, 1, before)?;
    assert_eq!(rt; next, behind);
    assert!(rt; log.as_slice() == line);
    Ok(())
}

#[test]
fn the_first_frame_of_seed_1_is_of_message_27(rt: HostRuntime) -> Result<(), Fail> {
    let line = b"(0000000000.000000) can0 11B#7C00FD43AC6F576C\n";
    has_line(
        &rt,
        Vec::new(rt.alloc()),
        0,
        1,
        line,
        7_806_831_264_735_756_412,
    )
}

#[test]
fn a_frame_a_minute_behind_the_first_has_its_stamp(rt: HostRuntime) -> Result<(), Fail> {
    let line = b"(0000000065.432100) can0 105#4F8167F77E7B0514\n";
    has_line(
        &rt,
        Vec::new(rt.alloc()),
        654_321,
        0,
        line,
        1_442_695_040_888_963_407,
    )
}
