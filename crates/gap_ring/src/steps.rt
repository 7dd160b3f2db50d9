//! The atomic steps of the two ends, each with what it shows.
ghost use Rattle.std.specs.Prelude.{◌≡◌, ◌+◌, ◌%◌, ◌<◌, ◌≤◌, ◌∷◌, ℕ, [], length, true, cond, All, Option};
ghost use Rattle.std.specs.Prelude.{Some, None};
ghost use Rattle.bench_model.specs.declared.reading.Item.TheVariants as items;
ghost use Rattle.gap_ring.specs.Offers.{IsHeadOf, put_of, trailing, gap_of, last_version_of};
ghost use Rattle.gap_ring.specs.Rule.{version_limit, gap_words_of, head_word, tail_word, first_word};
ghost use Rattle.gap_ring.specs.Rule.{last_word, versions_word};
ghost use Rattle.gap_ring.specs.Steps.{attach_seen, head_seen, is_short, slot_taken, did_put, with_slot};
ghost use Rattle.gap_ring.specs.Steps.{lead_put, record_put, gap_stored, end_stored};
ghost use Rattle.gap_ring.specs.Steps.{end_loaded, saw_tail, saw_gap, head_stored, attach_stored, both_sides};
ghost use Rattle.gap_ring.specs.Steps.{HaveMet};
ghost use Rattle.gap_ring.specs.May.{MayOffer, MayPut, MayReach, MayLead, MayRecord, MayEnd};
ghost use Rattle.gap_ring.specs.May.{IsGapWord, MayTake, MayTurn, MayGive};
ghost use Rattle.bench_model.specs.declared.reading.Item.{Item};
ghost use Rattle.gap_ring.specs.Ends.{IsOn, did_reach, did_learn};
ghost use Rattle.atomic_table.specs.Table.{step};
ghost use mathlib.Core.Option.{none};

use crate::plays::{
    Learn, OfBus, PutLead, PutRecord, Reach, Roles, Said, SeeAttach, SeeEnd, SeeGap, SeeHead,
    SeeTail, StoreAttach, StoreEnd, StoreGap, StoreHead,
};
use crate::view::{Place, Ring};
use bench_model::{Item, Reading};

pub(crate) const HEAD: usize = 0;

pub(crate) const TAIL: usize = 16;

pub(crate) const END: usize = 32;

pub(crate) const ATTACH: usize = 48;

pub(crate) const FIRST: usize = 64;

pub(crate) const LAST: usize = 80;

pub(crate) const VERSIONS: usize = 96;

pub(crate) const WORDS: usize = 112;

// Loads the attach word, which ends the offer where it is even.
pub(crate) fn load_attach<W: Said>(ring: &Ring, seat: &mut Place, reading: &Reading) -> u64
    requires said { W.reading ≡ Some reading.now }
    requires on { IsOn ring.now.shared.table_id seat.old }
    requires may { MayOffer ring.now.shared.key reading.now seat.old.me.0 }
    ensures on { IsOn ring.now.shared.table_id seat.new }
    ensures seen { seat.new.me
        ≡ (
          record seat.old.me.0 { putting = attach_seen reading.now result seat.old.me.0.putting },
          seat.old.me.1,
        ) }
    ensures word { (1 ≤ result) × All (λ o. o.attach ≤ result) seat.old.me.0.putting.offers }
{
    let _reading = reading;
    ring.shared.load::<SeeAttach<W>>(seat, ATTACH)
}

// Loads the head: too few free slots end the offer, else the seat has the slot of the tail.
pub(crate) fn load_head<W: Said>(ring: &Ring, seat: &mut Place, reading: &Reading) -> u64
    requires said { W.reading ≡ Some reading.now }
    requires on { IsOn ring.now.shared.table_id seat.old }
    requires may { MayPut ring.now.shared.key reading.now seat.old.me.0 × (seat.old.me.1 ≡ []) }
    ensures on { IsOn ring.now.shared.table_id seat.new }
    ensures view { seat.new.me.0
        ≡ record seat.old.me.0 {
          putting = head_seen ring.now.shared.table_id.slots reading.now result seat.old.me.0.putting;
        } }
    ensures hand { seat.new.me.1
        ≡ cond (is_short ring.now.shared.table_id.slots result seat.old.me.0.putting reading.now)
        []
        (slot_taken ring.now.shared.table_id.slots seat.old.me.0.putting) }
    ensures head { IsHeadOf ring.now.shared.table_id.slots
        (length (put_of seat.old.me.0.putting.offers)) result }
{
    let _reading = reading;
    ring.shared.load::<SeeHead<W>>(seat, HEAD)
}

// Loads the head again, and has the slot of the tail.
pub(crate) fn reach(ring: &Ring, seat: &mut Place)
    requires on { IsOn ring.now.shared.table_id seat.old }
    requires may { MayReach ring.now.shared.table_id.slots seat.old.me.0 × (seat.old.me.1 ≡ []) }
    ensures on { IsOn ring.now.shared.table_id seat.new }
    ensures seen { (n : ℕ)
        × (seat.new.me
        ≡ (did_reach n seat.old.me.0, slot_taken ring.now.shared.table_id.slots seat.old.me.0.putting)) }
{
    ring.shared.load::<Reach>(seat, HEAD);
}

// Puts what goes before a record into the slot in hand, and stores the tail.
pub(crate) fn put_lead(ring: &Ring, seat: &mut Place, slot: usize, tail: u64, item: Item)
    requires on { IsOn ring.now.shared.table_id seat.old }
    requires slot { (slot ≡ length seat.old.me.0.putting.put % ring.now.shared.table_id.slots)
        × (seat.old.me.1 ≡ slot_taken ring.now.shared.table_id.slots seat.old.me.0.putting) }
    requires may { MayLead ring.now.shared.key item tail seat.old.me.0 }
    ensures on { IsOn ring.now.shared.table_id seat.new }
    ensures put { seat.new.me
        ≡ (record seat.old.me.0 { putting = lead_put item tail seat.old.me.0.putting }, []) }
{
    let before = ring.shared.exchange(seat, slot, Some(item));
    prove!(before.is_none());
    ring.shared.store::<PutLead>(seat, TAIL, tail);
}

// Puts a record into the slot in hand, and stores the tail.
pub(crate) fn put_record(ring: &Ring, seat: &mut Place, slot: usize, tail: u64, reading: Reading)
    requires on { IsOn ring.now.shared.table_id seat.old }
    requires slot { (slot ≡ length seat.old.me.0.putting.put % ring.now.shared.table_id.slots)
        × (seat.old.me.1 ≡ slot_taken ring.now.shared.table_id.slots seat.old.me.0.putting) }
    requires may { MayRecord ring.now.shared.key ring.now.shared.table_id.slots reading tail seat.old.me.0 }
    ensures on { IsOn ring.now.shared.table_id seat.new }
    ensures put { seat.new.me
        ≡ (record seat.old.me.0 { putting = record_put reading tail seat.old.me.0.putting }, []) }
{
    let before = ring
        .shared
        .exchange(seat, slot, Some(Item::Reading { reading }));
    prove!(before.is_none());
    ring.shared.store::<PutRecord>(seat, TAIL, tail);
}

// Stores a gap word.
pub(crate) fn store_gap(ring: &Ring, seat: &mut Place, word: usize, value: u64)
    requires on { IsOn ring.now.shared.table_id seat.old }
    requires may { MayEnd seat.old.me.0 × IsGapWord word }
    ensures on { IsOn ring.now.shared.table_id seat.new }
    ensures stored { seat.new.me
        ≡ (record seat.old.me.0 { putting = gap_stored word value seat.old.me.0.putting }, seat.old.me.1) }
{
    ring.shared.store::<StoreGap>(seat, word, value);
}

// Stores the end word, once the gap words are those of the trailing gap.
pub(crate) fn store_end(ring: &Ring, seat: &mut Place, value: u64)
    requires on { IsOn ring.now.shared.table_id seat.old }
    requires may { MayEnd seat.old.me.0 × (seat.old.me.0.putting.lead ≡ []) }
    requires count { value ≡ length seat.old.me.0.putting.offers + 1 }
    requires gap { seat.old.me.0.putting.gap ≡ gap_words_of (gap_of (trailing seat.old.me.0.putting.offers)) }
    requires fits { last_version_of (gap_of (trailing seat.old.me.0.putting.offers)) < version_limit }
    ensures on { IsOn ring.now.shared.table_id seat.new }
    ensures stored { seat.new.me
        ≡ (record seat.old.me.0 { putting = end_stored value seat.old.me.0.putting }, seat.old.me.1) }
{
    ring.shared.store::<StoreEnd>(seat, END, value);
}

// Loads the end word.
pub(crate) fn load_end(ring: &Ring, seat: &mut Place) -> u64
    requires on { IsOn ring.now.shared.table_id seat.old }
    requires may { seat.old.me.0.takes ≡ true }
    ensures on { IsOn ring.now.shared.table_id seat.new }
    ensures seen { seat.new.me
        ≡ (record seat.old.me.0 { taking = end_loaded result seat.old.me.0.taking }, seat.old.me.1) }
{
    ring.shared.load::<SeeEnd>(seat, END)
}

// Loads the tail: the seat has the slot of the head where an item waits.
pub(crate) fn load_tail(ring: &Ring, seat: &mut Place) -> u64
    requires on { IsOn ring.now.shared.table_id seat.old }
    requires may { MayTake seat.old.me.0 × (seat.old.me.1 ≡ []) }
    ensures on { IsOn ring.now.shared.table_id seat.new }
    ensures seen { saw_tail (step ring.now.shared.table_id.slots tail_word 0 0 none)
        seat.old.me result seat.new.me }
{
    ring.shared.load::<SeeTail>(seat, TAIL)
}

// Loads a gap word.
pub(crate) fn load_gap(ring: &Ring, seat: &mut Place, word: usize) -> u64
    requires on { IsOn ring.now.shared.table_id seat.old }
    requires may { (seat.old.me.0.takes ≡ true) × IsGapWord word }
    ensures on { IsOn ring.now.shared.table_id seat.new }
    ensures seen { saw_gap (step ring.now.shared.table_id.slots word 0 0 none)
        seat.old.me result seat.new.me }
{
    ring.shared.load::<SeeGap>(seat, word)
}

// Takes the item out of the slot in hand, and stores the head.
pub(crate) fn take_item(ring: &Ring, seat: &mut Place, slot: usize, head: u64) -> Item
    requires on { IsOn ring.now.shared.table_id seat.old }
    requires may { (x : Item) × MayGive x head seat.old.me.0
        × (seat.old.me.1
        ≡ (length seat.old.me.0.taking.taken % ring.now.shared.table_id.slots, Some x) ∷ []) }
    requires slot { slot ≡ length seat.old.me.0.taking.taken % ring.now.shared.table_id.slots }
    ensures on { IsOn ring.now.shared.table_id seat.new }
    ensures item { seat.old.me.0.taking.hand ≡ Some result }
    ensures taken { seat.new.me
        ≡ (record seat.old.me.0 { taking = head_stored head seat.old.me.0.taking }, []) }
{
    let item = ring.shared.exchange(seat, slot, None);
    ring.shared.store::<StoreHead>(seat, HEAD, head);
    item.unwrap()
}

// Stores the attach word.
pub(crate) fn store_attach(ring: &Ring, seat: &mut Place, value: u64)
    requires on { IsOn ring.now.shared.table_id seat.old }
    requires may { MayTurn value seat.old.me.0 }
    ensures on { IsOn ring.now.shared.table_id seat.new }
    ensures stored { seat.new.me
        ≡ (record seat.old.me.0 { taking = attach_stored value seat.old.me.0.taking }, seat.old.me.1) }
{
    ring.shared.store::<StoreAttach>(seat, ATTACH, value);
}

// Puts the taker's seat into the putter's, which then knows what both know.
pub(crate) fn join_ends<W: OfBus>(ring: &Ring, seat: &mut Place, other: Place)
    requires bus { W.bus ≡ ring.now.shared.key }
    requires on { IsOn ring.now.shared.table_id seat.old × (other.table_id ≡ ring.now.shared.table_id)
        × (other.me.1 ≡ []) }
    requires may { (seat.old.me.0.puts ≡ true) × (other.me.0.takes ≡ true) }
    ensures on { IsOn ring.now.shared.table_id seat.new }
    ensures joined { (n : ℕ) × (seat.new.me.0 ≡ did_learn n (both_sides seat.old.me.0 other.me.0))
        × (n ≡ length other.me.0.taking.taken) }
    ensures met { HaveMet ring.now.shared.key ring.now.shared.table_id.slots
        seat.new.me.0.putting seat.new.me.0.taking }
{
    ring.shared.join_seat::<Roles>(seat, other);
    ring.shared.load::<Learn<W>>(seat, HEAD);
}
