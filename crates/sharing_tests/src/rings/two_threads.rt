//! One thread offers 100,000 records and another takes them, in turns of uneven length. What was taken is
//! checked by code of its own: each turn tiles the records from its Start on, and in a run of one turn what
//! was given and missed is what was put and refused. Then the two ends meet, and each item that was put was
//! taken: as a Start, a record, a gap, or one of an earlier turn.
ghost use Rattle.std.specs.Prelude.{◌≡◌, ◌+◌, ◌*◌, ◌≤◌, false, length};
ghost use Rattle.gap_ring.specs.Rule.{most_slots};
ghost use Rattle.gap_ring.specs.PutterView.{ring_of, bus_of, offers_of, has_ended};
ghost use Rattle.gap_ring.specs.TakerView.{ring_of_taker, turn_of_taker};
ghost use Rattle.gap_ring.specs.MetView.{IsPair};

use super::{Answer, Got, offer, take};
use bench_model::Missed;
use gap_ring::{Putter, Taker, meet, ring};
use std::alloc::{AllocError, Global};
use std::process::Abort;
use std::sync::Wait;
use std::test::Fail;
use std::thread;
use std::thread::Threads;

const RECORDS: u64 = 100_000;

/// The putter, and how its offers ended.
#[derive(Drop)]
struct Feed {
    putter: Putter,
    number: u64,
    put: u64,
    refused: u64,
    away: u64,
    ghost open: { (bus_of putter ≡ 0) × (has_ended putter ≡ false) × (number ≡ length (offers_of putter)) },
    ghost few: { (put ≤ number) × (refused ≤ number) × (away ≤ number) × (number ≤ 100000) },
}

impl Feed {
    // Offers the next record; false where all were offered.
    fn step(&mut self) -> bool
        ensures { ring_of self.new.putter ≡ ring_of self.old.putter }
    {
        if self.number >= RECORDS {
            return false;
        }
        let answer = offer(&mut self.putter, self.number);
        self.number += 1;
        match answer {
            Answer::Put => self.put += 1,
            Answer::Refused { head: _ } => self.refused += 1,
            Answer::Away => self.away += 1,
        }
        true
    }
}

/// A putter that has ended, and how its offers ended.
#[derive(Drop)]
struct Fed {
    putter: Putter,
    put: u64,
    refused: u64,
    away: u64,
}

// Offers all records, and ends.
fn put_all(rt: &impl Wait, mut feed: Feed) -> Fed
    ensures { ring_of result.putter ≡ ring_of feed.putter }
{
    for _ in rt.forever() {
        if !feed.step() {
            break;
        }
        if feed.number % 89 < 2 {
            thread::yield_now();
        }
    }
    let Feed {
        mut putter,
        number: _,
        put,
        refused,
        away,
    } = feed;
    putter.end();
    Fed {
        putter,
        put,
        refused,
        away,
    }
}

/// The taker, and what it found so far.
#[derive(Drop)]
struct Session {
    taker: Taker,
    turns: u64,
    /// Whether this turn's Start was taken, and the number that must come next then.
    begun: bool,
    next: u64,
    /// The items taken: of this turn Starts, records and gaps, and those of an earlier one.
    starts: u64,
    given: u64,
    gaps: u64,
    olds: u64,
    /// The records that gaps counted, that at the end too.
    missed: u64,
    ended: bool,
    fault: bool,
    ghost attached: { (turn_of_taker taker ≡ 2 * turns + 1) × (turns ≤ 1000) },
}

impl Session {
    fn new(taker: Taker) -> Session
        requires { turn_of_taker taker ≡ 1 }
        ensures { ring_of_taker result.taker ≡ ring_of_taker taker }
    {
        Session {
            taker,
            turns: 0,
            begun: false,
            next: 0,
            starts: 0,
            given: 0,
            gaps: 0,
            olds: 0,
            missed: 0,
            ended: false,
            fault: false,
        }
    }

    fn expect(&mut self, holds: bool)
        ensures { self.new.taker ≡ self.old.taker }
    {
        if !holds {
            self.fault = true;
        }
    }

    fn gap(&mut self, missed: Missed)
        ensures { self.new.taker ≡ self.old.taker }
    {
        let last = missed.first.wrapping_add(missed.count).wrapping_sub(1);
        self.expect(self.begun && missed.first == self.next && missed.count > 0);
        self.expect(
            missed.first_micros == stamp(missed.first) && missed.last_micros == stamp(last),
        );
        self.missed = self.missed.wrapping_add(missed.count);
        self.next = last.wrapping_add(1);
    }

    fn step(&mut self) -> bool
        ensures { ring_of_taker self.new.taker ≡ ring_of_taker self.old.taker }
    {
        match take(&mut self.taker) {
            Got::Start { number, turn } => {
                self.expect(!self.begun && number >= self.next && turn == 2 * self.turns + 1);
                self.begun = true;
                self.starts = self.starts.wrapping_add(1);
                self.next = number;
            }
            Got::Record { number } => {
                self.expect(self.begun && number == self.next);
                self.given = self.given.wrapping_add(1);
                self.next = number.wrapping_add(1);
            }
            Got::Gap { missed } => {
                self.gaps = self.gaps.wrapping_add(1);
                self.gap(missed);
            }
            Got::End => self.fault = true,
            Got::Old => {
                self.olds = self.olds.wrapping_add(1);
                self.expect(!self.begun);
            }
            Got::Empty { tail: _ } => thread::yield_now(),
            Got::Ended { number, gap } => {
                if let Some(missed) = gap {
                    self.gap(missed);
                }
                self.expect(number == RECORDS && (!self.begun || self.next == RECORDS));
                self.ended = true;
            }
        }
        !self.ended
    }

    // Another turn, where the most are not reached.
    fn renew(&mut self)
        ensures { ring_of_taker self.new.taker ≡ ring_of_taker self.old.taker }
    {
        if self.turns < 1000 {
            self.taker.detach();
            thread::yield_now();
            self.taker.attach();
            self.turns += 1;
            self.begun = false;
        }
    }
}

fn stamp(number: u64) -> u64 {
    number.wrapping_mul(10).wrapping_add(1_000_000)
}

// Takes all, with a new turn after so many steps, or none where that is 0. The first turn has two steps, of
// which none can find the end, since the first record is put behind its Start.
fn drain(rt: &impl Wait, mut session: Session, every: u64) -> Session
    ensures { ring_of_taker result.taker ≡ ring_of_taker session.taker }
{
    let mut since = every.saturating_sub(1);
    for _ in rt.forever() {
        if !session.step() {
            break;
        }
        since = since.wrapping_add(1);
        if every > 0 && since > every {
            session.renew();
            since = 0;
        }
        if since % 53 == 0 {
            thread::yield_now();
        }
    }
    session
}

// Whether what was put and what was taken agree, in a run of more turns or of one.
fn agree(fed: Fed, session: Session, more: bool) -> bool
    requires { IsPair fed.putter session.taker }
{
    let Fed {
        putter,
        put,
        refused,
        away,
    } = fed;
    let Session {
        taker,
        turns,
        begun: _,
        next: _,
        starts,
        given,
        gaps,
        olds,
        missed,
        ended: _,
        fault,
    } = session;
    let met = meet(putter, taker);
    let items = starts
        .wrapping_add(given)
        .wrapping_add(gaps)
        .wrapping_add(olds);
    let taken = met.put == met.taken && met.taken == items;
    let counted = put.wrapping_add(refused).wrapping_add(away) == RECORDS;
    let within = given <= put && missed <= refused;
    let whole = away == 0 && olds == 0 && given == put && missed == refused;
    let turned = if more { turns > 0 } else { turns == 0 && whole };
    !fault && taken && counted && within && turned
}

// Whether a run through a ring of so many slots, with a new turn after so many steps, was right.
fn is_right<R: Threads + Wait + Sync>(
    rt: &R,
    alloc: Global,
    capacity: usize,
    every: u64,
) -> Result<bool, AllocError>
    requires { (2 ≤ capacity) × (capacity ≤ most_slots) }
{
    let (putter, taker) = ring(alloc, 0, capacity)?;
    let source = Feed {
        putter,
        number: 0,
        put: 0,
        refused: 0,
        away: 0,
    };
    let session = Session::new(taker);
    // where no thread can be made the last closure runs first
    let (session, fed) = thread::join(
        rt,
        move || drain(rt, session, every),
        move || put_all(rt, source),
    );
    Ok(agree(fed, session, every > 0))
}

#[test]
fn one_turn_through_a_ring_of_two(rt: HostRuntime) -> Result<(), Fail> {
    assert!(rt; is_right(&rt, rt.alloc(), 2, 0)?);
    Ok(())
}

#[test]
fn one_turn_through_a_ring_of_three(rt: HostRuntime) -> Result<(), Fail> {
    assert!(rt; is_right(&rt, rt.alloc(), 3, 0)?);
    Ok(())
}

#[test]
fn many_turns_through_a_ring_of_two(rt: HostRuntime) -> Result<(), Fail> {
    assert!(rt; is_right(&rt, rt.alloc(), 2, 41)?);
    Ok(())
}

#[test]
fn many_turns_through_a_ring_of_three(rt: HostRuntime) -> Result<(), Fail> {
    assert!(rt; is_right(&rt, rt.alloc(), 3, 67)?);
    Ok(())
}
