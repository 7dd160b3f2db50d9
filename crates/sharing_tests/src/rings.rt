//! What no clause shows: that each call succeeds with ample memory, runs worked out by hand, and that both
//! ends may go to another thread and be dropped.
ghost use Rattle.std.specs.Prelude.{◌≡◌, ◌+◌, ◌<◌, false, length};
ghost use Rattle.gap_ring.specs.Offers.{IsAttached};
ghost use Rattle.gap_ring.specs.TakerView.{ring_of_taker, turn_of_taker};
ghost use Rattle.gap_ring.specs.PutterView.{ring_of, bus_of, offers_of, has_ended};

use bench_model::{Body, Item, Missed, Reading};
use gap_ring::{Met, Offer, Putter, Take, Taker, meet, ring};
use std::alloc::Global;
use std::process::Abort;
use std::test::Fail;

mod two_threads;

/// How an offer ended, with the head of a refusal.
#[derive(Clone, Copy, Debug, PartialEq, Eq)]
enum Answer {
    Put,
    Refused { head: u64 },
    Away,
}

fn offer(putter: &mut Putter, number: u64) -> Answer
    requires ring { (bus_of putter.old ≡ 0) × (has_ended putter.old ≡ false) }
    requires number { (number ≡ length (offers_of putter.old)) × (number < 1000000) }
    ensures ring { (bus_of putter.new ≡ 0) × (has_ended putter.new ≡ false)
        × (ring_of putter.new ≡ ring_of putter.old) }
    ensures number { length (offers_of putter.new) ≡ number + 1 }
{
    offer_under(putter, number, 0)
}

/// Offers a record that was decoded under this version.
fn offer_under(putter: &mut Putter, number: u64, version: u32) -> Answer
    requires ring { (bus_of putter.old ≡ 0) × (has_ended putter.old ≡ false) }
    requires number { (number ≡ length (offers_of putter.old)) × (number < 1000000) }
    ensures ring { (bus_of putter.new ≡ 0) × (has_ended putter.new ≡ false)
        × (ring_of putter.new ≡ ring_of putter.old) }
    ensures number { length (offers_of putter.new) ≡ number + 1 }
{
    let reading = Reading {
        bus: 0,
        number,
        version,
        micros: 1_000_000 + 10 * number,
        body: Body::Bad,
    };
    match putter.offer(reading) {
        Offer::Put => Answer::Put,
        Offer::Refused { reading: _, head } => Answer::Refused { head },
        Offer::Away { reading: _ } => Answer::Away,
    }
}

/// What was taken.
#[derive(Clone, Copy, Debug, PartialEq, Eq)]
enum Got {
    Start { number: u64, turn: u64 },
    Record { number: u64 },
    Gap { missed: Missed },
    End,
    Old,
    Empty { tail: u64 },
    Ended { number: u64, gap: Option<Missed> },
}

fn take(taker: &mut Taker) -> Got
    requires { IsAttached (turn_of_taker taker.old) }
    ensures turn { turn_of_taker taker.new ≡ turn_of_taker taker.old }
    ensures ring { ring_of_taker taker.new ≡ ring_of_taker taker.old }
{
    match taker.take() {
        Take::Item { item } => match item {
            Item::Start {
                bus: _,
                number,
                turn,
            } => Got::Start { number, turn },
            Item::Reading { reading } => Got::Record {
                number: reading.number,
            },
            Item::Gap { bus: _, missed } => Got::Gap { missed },
            Item::End { bus: _, number: _ } => Got::End,
        },
        Take::Old => Got::Old,
        Take::Empty { tail } => Got::Empty { tail },
        Take::Ended { number, gap } => Got::Ended { number, gap },
    }
}

/// Records 2 to 4.
const TWO_TO_FOUR: Missed = Missed {
    first: 2,
    count: 3,
    first_micros: 1_000_020,
    last_micros: 1_000_040,
    first_version: 0,
    last_version: 0,
};

#[test]
fn a_gap_counts_the_records_that_a_full_ring_refused(rt: HostRuntime) -> Result<(), Fail> {
    let (mut putter, mut taker) = ring(rt.alloc(), 0, 3)?;
    assert_eq!(rt; offer(&mut putter, 0), Answer::Put);
    assert_eq!(rt; offer(&mut putter, 1), Answer::Put);
    assert_eq!(rt; offer(&mut putter, 2), Answer::Refused { head: 0 });
    assert_eq!(rt; offer(&mut putter, 3), Answer::Refused { head: 0 });
    assert_eq!(rt; offer(&mut putter, 4), Answer::Refused { head: 0 });
    assert_eq!(rt; take(&mut taker), Got::Start { number: 0, turn: 1 });
    assert_eq!(rt; take(&mut taker), Got::Record { number: 0 });
    assert_eq!(rt; offer(&mut putter, 5), Answer::Put);
    assert_eq!(rt; take(&mut taker), Got::Record { number: 1 });
    assert_eq!(rt;
        take(&mut taker),
        Got::Gap {
            missed: TWO_TO_FOUR
        }
    );
    assert_eq!(rt; take(&mut taker), Got::Record { number: 5 });
    assert_eq!(rt; take(&mut taker), Got::Empty { tail: 5 });
    Ok(())
}

#[test]
fn the_end_has_the_gap_of_the_last_records(rt: HostRuntime) -> Result<(), Fail> {
    let (mut putter, mut taker) = ring(rt.alloc(), 0, 3)?;
    assert!(rt; taker.attached());
    assert_eq!(rt; offer(&mut putter, 0), Answer::Put);
    assert_eq!(rt; offer(&mut putter, 1), Answer::Put);
    assert_eq!(rt; offer(&mut putter, 2), Answer::Refused { head: 0 });
    assert_eq!(rt; offer(&mut putter, 3), Answer::Refused { head: 0 });
    assert_eq!(rt; offer(&mut putter, 4), Answer::Refused { head: 0 });
    putter.end();
    assert_eq!(rt; take(&mut taker), Got::Start { number: 0, turn: 1 });
    assert_eq!(rt; take(&mut taker), Got::Record { number: 0 });
    assert_eq!(rt; take(&mut taker), Got::Record { number: 1 });
    assert_eq!(rt;
        take(&mut taker),
        Got::Ended {
            number: 5,
            gap: Some(TWO_TO_FOUR)
        }
    );
    Ok(())
}

#[test]
fn a_new_turn_drops_the_items_of_the_one_before(rt: HostRuntime) -> Result<(), Fail> {
    let (mut putter, mut taker) = ring(rt.alloc(), 0, 3)?;
    assert_eq!(rt; offer(&mut putter, 0), Answer::Put);
    taker.detach();
    assert!(rt; !taker.attached());
    assert_eq!(rt; offer(&mut putter, 1), Answer::Away);
    taker.attach();
    assert_eq!(rt; offer(&mut putter, 2), Answer::Refused { head: 0 });
    assert_eq!(rt; take(&mut taker), Got::Old);
    assert_eq!(rt; take(&mut taker), Got::Old);
    assert_eq!(rt; offer(&mut putter, 3), Answer::Put);
    assert_eq!(rt; take(&mut taker), Got::Start { number: 3, turn: 3 });
    assert_eq!(rt; take(&mut taker), Got::Record { number: 3 });
    assert_eq!(rt; take(&mut taker), Got::Empty { tail: 4 });
    Ok(())
}

#[test]
fn two_ends_meet(rt: HostRuntime) -> Result<(), Fail> {
    let (putter, taker) = ring(rt.alloc(), 0, 2)?;
    let met = meet(putter, taker);
    assert_eq!(rt; met.put, 0);
    assert_eq!(rt; met.taken, 0);
    Ok(())
}

#[test]
fn two_sessions_find_the_end_and_the_ends_meet(rt: HostRuntime) -> Result<(), Fail> {
    let (mut putter, mut taker) = ring(rt.alloc(), 0, 3)?;
    assert_eq!(rt; offer(&mut putter, 0), Answer::Put);
    assert_eq!(rt; offer(&mut putter, 1), Answer::Put);
    assert_eq!(rt; offer(&mut putter, 2), Answer::Refused { head: 0 });
    putter.end();
    assert_eq!(rt; take(&mut taker), Got::Start { number: 0, turn: 1 });
    assert_eq!(rt; take(&mut taker), Got::Record { number: 0 });
    assert_eq!(rt; take(&mut taker), Got::Record { number: 1 });
    let gap = Missed {
        first: 2,
        count: 1,
        first_micros: 1_000_020,
        last_micros: 1_000_020,
        first_version: 0,
        last_version: 0,
    };
    assert_eq!(rt;
        take(&mut taker),
        Got::Ended {
            number: 3,
            gap: Some(gap)
        }
    );
    taker.detach();
    taker.attach();
    assert_eq!(rt;
        take(&mut taker),
        Got::Ended {
            number: 3,
            gap: None
        }
    );
    let met = meet(putter, taker);
    assert_eq!(rt; met.put, 3);
    assert_eq!(rt; met.taken, 3);
    Ok(())
}

#[test]
fn a_turn_that_saw_no_start_ends_with_no_gap(rt: HostRuntime) -> Result<(), Fail> {
    let (mut putter, mut taker) = ring(rt.alloc(), 0, 2)?;
    assert_eq!(rt; offer(&mut putter, 0), Answer::Put);
    taker.detach();
    taker.attach();
    assert_eq!(rt; offer(&mut putter, 1), Answer::Refused { head: 0 });
    putter.end();
    assert_eq!(rt; take(&mut taker), Got::Old);
    assert_eq!(rt; take(&mut taker), Got::Old);
    assert_eq!(rt;
        take(&mut taker),
        Got::Ended {
            number: 2,
            gap: None
        }
    );
    Ok(())
}

/// Records 1 and 2, of which the second was decoded under version 3.
const UNDER_TWO_VERSIONS: Missed = Missed {
    first: 1,
    count: 2,
    first_micros: 1_000_010,
    last_micros: 1_000_020,
    first_version: 2,
    last_version: 3,
};

#[test]
fn a_gap_tells_the_versions_of_its_first_and_its_last_record(rt: HostRuntime) -> Result<(), Fail> {
    let (mut putter, mut taker) = ring(rt.alloc(), 0, 2)?;
    assert_eq!(rt; offer_under(&mut putter, 0, 2), Answer::Put);
    assert_eq!(rt; offer_under(&mut putter, 1, 2), Answer::Refused { head: 0 });
    assert_eq!(rt; offer_under(&mut putter, 2, 3), Answer::Refused { head: 0 });
    assert_eq!(rt; take(&mut taker), Got::Start { number: 0, turn: 1 });
    assert_eq!(rt; take(&mut taker), Got::Record { number: 0 });
    assert_eq!(rt; offer_under(&mut putter, 3, 4), Answer::Put);
    assert_eq!(rt;
        take(&mut taker),
        Got::Gap {
            missed: UNDER_TWO_VERSIONS
        }
    );
    Ok(())
}

#[test]
fn the_gap_at_the_end_tells_both_versions(rt: HostRuntime) -> Result<(), Fail> {
    let (mut putter, mut taker) = ring(rt.alloc(), 0, 2)?;
    assert_eq!(rt; offer_under(&mut putter, 0, 2), Answer::Put);
    assert_eq!(rt; offer_under(&mut putter, 1, 2), Answer::Refused { head: 0 });
    assert_eq!(rt; offer_under(&mut putter, 2, 3), Answer::Refused { head: 0 });
    putter.end();
    assert_eq!(rt; take(&mut taker), Got::Start { number: 0, turn: 1 });
    assert_eq!(rt; take(&mut taker), Got::Record { number: 0 });
    assert_eq!(rt;
        take(&mut taker),
        Got::Ended {
            number: 3,
            gap: Some(UNDER_TWO_VERSIONS)
        }
    );
    Ok(())
}

fn sends_and_drops<T: Send + Drop>() {}

#[test]
fn both_ends_may_go_to_another_thread_and_be_dropped() {
    sends_and_drops::<Putter>();
    sends_and_drops::<Taker>();
    sends_and_drops::<Met>();
}
