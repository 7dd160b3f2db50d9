//! How an offer is made, over the putter's seat.
ghost use Rattle.std.specs.Prelude.{◌≡◌, ◌+◌, ◌<◌, ◌≤◌, [], length, false, Some, option_to_list};
ghost use Rattle.gap_ring.specs.Offers.{trailing, gap_of, last_version_of};
ghost use Rattle.gap_ring.specs.Rule.{version_limit, gap_words_of, first_word, last_word, versions_word};
ghost use Rattle.gap_ring.specs.Rule.{end_word, word_limit};
ghost use Rattle.gap_ring.specs.Steps.{slot_taken};
ghost use Rattle.gap_ring.specs.May.{MayItems, MayOffer};
ghost use Rattle.gap_ring.specs.Ends.{IsOn, PutterRests};
ghost use Rattle.gap_ring.specs.Offering.{ItemsPut, OfferMade, EndMade};

use crate::answers::Offer;
use crate::count::Count;
use crate::plays::Said;
use crate::steps::{
    FIRST, LAST, VERSIONS, load_attach, load_head, put_lead, put_record, reach, store_end,
    store_gap,
};
use crate::view::{GapWords, Place, Ring, VERSION_LIMIT};
use bench_model::{Item, Missed, Reading};

// Puts a record, with what goes before it. Gives the tail after it.
fn put_items(
    ring: &Ring,
    seat: &mut Place,
    capacity: u64,
    tail: u64,
    lead: Option<Item>,
    reading: Reading,
) -> u64
    requires on { IsOn ring.now.shared.table_id seat.old }
    requires sized { (capacity ≡ ring.now.shared.table_id.slots) × (2 ≤ capacity)
        × (tail + 2 < word_limit) }
    requires tail { tail ≡ length seat.old.me.0.putting.put }
    requires hand { seat.old.me.1 ≡ slot_taken ring.now.shared.table_id.slots seat.old.me.0.putting }
    requires may { MayItems ring.now.shared.key ring.now.shared.table_id.slots reading lead seat.old.me.0 }
    ensures on { IsOn ring.now.shared.table_id seat.new }
    ensures put { ItemsPut lead reading tail seat.old.me.0 seat.new.me.0 result }
    ensures hand { seat.new.me.1 ≡ [] }
{
    let slot = (tail % capacity) as usize;
    match lead {
        None => {
            put_record(ring, seat, slot, tail + 1, reading);
            tail + 1
        }
        Some(item) => {
            put_lead(ring, seat, slot, tail + 1, item);
            reach(ring, seat);
            let next = ((tail + 1) % capacity) as usize;
            put_record(ring, seat, next, tail + 2, reading);
            tail + 2
        }
    }
}

// The slots of a record with what goes before it.
fn slots_for(lead: &Option<Item>) -> u64
    ensures { result ≡ length (option_to_list lead.now) + 1 }
{
    if lead.is_some() { 2 } else { 1 }
}

// Makes an offer.
pub(crate) fn make_offer<W: Said>(
    ring: &Ring,
    seat: &mut Place,
    capacity: u64,
    count: &mut Count,
    reading: Reading,
) -> Offer
    requires said { W.reading ≡ Some reading }
    requires on { IsOn ring.now.shared.table_id seat.old }
    requires sized { (capacity ≡ ring.now.shared.table_id.slots) × (2 ≤ capacity) }
    requires rests { PutterRests count.old seat.old.me.0 × (seat.old.me.1 ≡ []) }
    requires may { MayOffer ring.now.shared.key reading seat.old.me.0 }
    ensures on { IsOn ring.now.shared.table_id seat.new }
    ensures rests { PutterRests count.new seat.new.me.0 × (seat.new.me.1 ≡ []) }
    ensures made { OfferMade ring.now.shared.key ring.now.shared.table_id.slots reading
        seat.old.me.0 seat.new.me.0 result }
{
    let attach = load_attach::<W>(ring, seat, &reading);
    if attach % 2 == 0 {
        count.number += 1;
        return Offer::Away { reading };
    }
    let lead = count.lead(&reading, attach);
    let needed = slots_for(&lead);
    let head = load_head::<W>(ring, seat, &reading);
    if capacity - (count.tail - head) < needed {
        count.refuse(&reading, attach);
        return Offer::Refused { reading, head };
    }
    let tail = put_items(ring, seat, capacity, count.tail, lead, reading);
    *count = Count {
        tail,
        number: count.number + 1,
        turn: attach,
        missed: None,
    };
    Offer::Put
}

// The gap words of a trailing gap.
fn gap_words(missed: Option<Missed>) -> GapWords
    ensures words { result ≡ gap_words_of missed }
    ensures fits { last_version_of missed < version_limit }
{
    match missed {
        None => GapWords {
            first: 0,
            last: 0,
            versions: 0,
        },
        Some(missed) => GapWords {
            first: missed.first_micros,
            last: missed.last_micros,
            versions: u64::from(missed.first_version) * VERSION_LIMIT
                + u64::from(missed.last_version),
        },
    }
}

// Stores the gap words, and then the end word.
pub(crate) fn make_end(ring: &Ring, seat: &mut Place, count: &Count)
    requires on { IsOn ring.now.shared.table_id seat.old }
    requires rests { PutterRests count.now seat.old.me.0 × (seat.old.me.1 ≡ []) }
    requires open { seat.old.me.0.putting.ended ≡ false }
    ensures on { IsOn ring.now.shared.table_id seat.new }
    ensures rests { PutterRests count.now seat.new.me.0 × (seat.new.me.1 ≡ []) }
    ensures made { EndMade seat.old.me.0 seat.new.me.0 }
{
    let words = gap_words(count.missed);
    store_gap(ring, seat, FIRST, words.first);
    store_gap(ring, seat, LAST, words.last);
    store_gap(ring, seat, VERSIONS, words.versions);
    store_end(ring, seat, count.number + 1);
}
