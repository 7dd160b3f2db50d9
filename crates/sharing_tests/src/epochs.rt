//! What no clause shows: that each call succeeds with ample memory, and runs worked out by hand.

ghost use Rattle.epoch_core.specs.Runs.{AreWithinLimits};

use epoch_core::{State, Step};
use std::process::Abort;
use std::test::Fail;

/// A lane takes hold of version 0, the loader publishes version 1, stores the next epoch, and finds the lane's
/// pin: the lane may still read region 0.
static PUBLISH_UNDER_A_READER: [Step; 8] = [
    Step::L1 { lane: 0 },
    Step::L2 { lane: 0 },
    Step::L3 { lane: 0 },
    Step::W1 {
        region: 1,
        place: 0,
        word: 8,
    },
    Step::W1 {
        region: 1,
        place: 1,
        word: 9,
    },
    Step::W2 {
        region: 1,
        length: 2,
    },
    Step::W3,
    Step::W4 { region: 0, lane: 0 },
];

/// The lane reads the last word that it may, and a seat is split off.
static READ_ON: [Step; 2] = [Step::L4 { lane: 0, place: 2 }, Step::S];

/// The loader stores a word of region 0, which it could not before.
static WRITE_AGAIN: [Step; 1] = [Step::W1 {
    region: 0,
    place: 0,
    word: 1,
}];

/// The lane lets go, and the loader finds its pin 0.
static LET_GO: [Step; 2] = [Step::L5 { lane: 0 }, Step::W4 { region: 0, lane: 0 }];

/// The loader writes region 0 whole, publishes version 2 in it, stores the next epoch, and finds the lane's pin:
/// region 1 was retired at epoch 1.
static PUBLISH_AGAIN: [Step; 5] = [
    Step::W1 {
        region: 0,
        place: 0,
        word: 1,
    },
    Step::W1 {
        region: 0,
        place: 1,
        word: 2,
    },
    Step::W2 {
        region: 0,
        length: 2,
    },
    Step::W3,
    Step::W4 { region: 1, lane: 0 },
];

/// The lane lets go and announces the next epoch, and the loader finds its pin 2.
static ANNOUNCE_AGAIN: [Step; 4] = [
    Step::L5 { lane: 0 },
    Step::L1 { lane: 0 },
    Step::L2 { lane: 0 },
    Step::W4 { region: 0, lane: 0 },
];

/// Steps that the first state of two regions and one lane does not allow.
static TOO_EARLY: [Step; 18] = [
    Step::L1 { lane: 1 },
    Step::L2 { lane: 0 },
    Step::L2 { lane: 1 },
    Step::L3 { lane: 0 },
    Step::L4 { lane: 0, place: 0 },
    Step::L5 { lane: 0 },
    Step::W1 {
        region: 0,
        place: 0,
        word: 1,
    },
    Step::W1 {
        region: 1,
        place: 1,
        word: 1,
    },
    Step::W1 {
        region: 2,
        place: 0,
        word: 1,
    },
    Step::W2 {
        region: 0,
        length: 1,
    },
    Step::W2 {
        region: 1,
        length: 0,
    },
    Step::W2 {
        region: 4294967295,
        length: 0,
    },
    Step::W3,
    Step::W4 { region: 0, lane: 0 },
    Step::W4 { region: 1, lane: 0 },
    Step::W4 { region: 2, lane: 0 },
    Step::J { lane: 1 },
    Step::J { lane: 4294967295 },
];

/// Steps that are not allowed while the lane holds region 0 after the publication.
static UNDER_A_READER: [Step; 12] = [
    Step::W1 {
        region: 0,
        place: 0,
        word: 1,
    },
    Step::W1 {
        region: 1,
        place: 0,
        word: 1,
    },
    Step::W2 {
        region: 0,
        length: 0,
    },
    Step::W2 {
        region: 1,
        length: 2,
    },
    Step::W3,
    Step::W4 { region: 0, lane: 1 },
    Step::W4 { region: 1, lane: 0 },
    Step::L1 { lane: 0 },
    Step::L2 { lane: 0 },
    Step::L3 { lane: 0 },
    Step::L4 { lane: 0, place: 3 },
    Step::J { lane: 0 },
];

/// Lane 1 takes hold of version 0, version 1 is published, and the loader finds the pins of both lanes: lane 0's
/// is 0, lane 1's is not.
static PUBLISH_BESIDE_A_READER: [Step; 8] = [
    Step::L1 { lane: 1 },
    Step::L2 { lane: 1 },
    Step::L3 { lane: 1 },
    Step::W1 {
        region: 1,
        place: 0,
        word: 8,
    },
    Step::W2 {
        region: 1,
        length: 1,
    },
    Step::W3,
    Step::W4 { region: 0, lane: 0 },
    Step::W4 { region: 0, lane: 1 },
];

/// Lane 1 lets go, and the loader finds its pin 0.
static LET_GO_TOO: [Step; 2] = [Step::L5 { lane: 1 }, Step::W4 { region: 0, lane: 1 }];

/// One word of a region is written.
static ONE_WORD: [Step; 1] = [Step::W1 {
    region: 1,
    place: 0,
    word: 8,
}];

/// A publication of more words than were written.
static TOO_LONG: [Step; 1] = [Step::W2 {
    region: 1,
    length: 2,
}];

/// Takes steps, each of which has to be allowed.
fn take_all(rt: &impl Abort, state: &mut State, steps: &[Step]) -> Result<(), Fail> {
    for (place, step) in steps.iter().enumerate() {
        assert!(rt; state.may(step), "step {place}");
        state.take(step)?;
    }
    Ok(())
}

/// The place of the first step that is allowed.
fn first_allowed(state: &State, steps: &[Step]) -> Option<usize> {
    steps.iter().position(|step| state.may(step))
}

/// No step is allowed.
fn refuse_all(rt: &impl Abort, state: &State, steps: &[Step]) {
    assert_eq!(rt; first_allowed(state, steps), None);
}

/// The published version, its epoch and its region.
fn assert_published(rt: &impl Abort, state: &State, version: u32, epoch: u64, region: u32) {
    assert_eq!(rt;
        (state.version, state.epoch, state.region),
        (version, epoch, region)
    );
}

/// By region, the epoch at which it was retired.
fn assert_retired(rt: &impl Abort, state: &State, epochs: &[Option<u64>]) {
    assert_eq!(rt; state.retired.items(), epochs);
}

/// By lane, its pin.
fn assert_pins(rt: &impl Abort, state: &State, pins: &[u64]) {
    assert_eq!(rt; state.pins.items(), pins);
}

/// The region being written.
fn assert_writing(rt: &impl Abort, state: &State, region: Option<u32>) {
    assert_eq!(rt; state.writing, region);
}

/// The image of the last of so many versions.
fn assert_last_image(rt: &impl Abort, state: &State, versions: usize, words: &[u64]) {
    let images = state.images.items();
    assert_eq!(rt; images.len(), versions);
    assert_eq!(rt; images.last().map(|image| image.items()), Some(words));
}

/// The state after version 1 was published while a lane read version 0.
fn published_under_a_reader(rt: &(impl Abort + AllocGlobal)) -> Result<State, Fail> {
    let mut state = State::first(rt.alloc(), 2, 1, &[5, 6, 7])?;
    refuse_all(rt, &state, &TOO_EARLY);
    take_all(rt, &mut state, &PUBLISH_UNDER_A_READER)?;
    refuse_all(rt, &state, &UNDER_A_READER);
    take_all(rt, &mut state, &READ_ON)?;
    Ok(state)
}

/// After these steps the lane's pin is this, and the loader may write region 0 again.
fn assert_written_after(
    rt: &(impl Abort + AllocGlobal),
    steps: &[Step],
    pin: u64,
) -> Result<(), Fail> {
    let mut state = published_under_a_reader(rt)?;
    assert_retired(rt, &state, &[Some(0), None]);
    take_all(rt, &mut state, steps)?;
    assert_pins(rt, &state, &[pin]);
    take_all(rt, &mut state, &WRITE_AGAIN)?;
    assert_published(rt, &state, 1, 1, 1);
    assert_writing(rt, &state, Some(0));
    Ok(())
}

/// Values of this type may go to another thread.
fn assert_crosses<T: Send + Sync>(_value: &T) {}

#[test]
fn a_region_is_written_again_once_its_reader_is_past_it(rt: HostRuntime) -> Result<(), Fail> {
    assert_written_after(&rt, &LET_GO, 0)?;
    assert_written_after(&rt, &ANNOUNCE_AGAIN, 2)
}

#[test]
fn a_second_publication_uses_the_first_region_again(rt: HostRuntime) -> Result<(), Fail> {
    let mut state = published_under_a_reader(&rt)?;
    take_all(&rt, &mut state, &LET_GO)?;
    take_all(&rt, &mut state, &PUBLISH_AGAIN)?;
    assert_published(&rt, &state, 2, 2, 0);
    assert_retired(&rt, &state, &[None, Some(1)]);
    assert_last_image(&rt, &state, 3, &[1, 2]);
    Ok(())
}

#[test]
fn a_region_waits_for_every_lane(rt: HostRuntime) -> Result<(), Fail> {
    let mut state = State::first(rt.alloc(), 2, 2, &[5])?;
    take_all(&rt, &mut state, &PUBLISH_BESIDE_A_READER)?;
    refuse_all(&rt, &state, &WRITE_AGAIN);
    take_all(&rt, &mut state, &LET_GO_TOO)?;
    take_all(&rt, &mut state, &WRITE_AGAIN)
}

#[test]
fn no_more_is_published_than_was_written(rt: HostRuntime) -> Result<(), Fail> {
    let mut state = State::first(rt.alloc(), 2, 1, &[5])?;
    take_all(&rt, &mut state, &ONE_WORD)?;
    refuse_all(&rt, &state, &TOO_LONG);
    Ok(())
}

#[test]
fn a_first_state_goes_to_another_thread(rt: HostRuntime) -> Result<(), Fail> {
    let state = State::first(rt.alloc(), 8, 16, &[])?;
    assert_crosses(&state);
    assert_eq!(rt; state.lanes.items().len(), 16);
    Ok(())
}
