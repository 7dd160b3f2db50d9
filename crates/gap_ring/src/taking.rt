//! How an item is taken, over the taker's seat.
ghost use Rattle.std.specs.Prelude.{◌≡◌, ◌≤◌, []};
ghost use Rattle.gap_ring.specs.Offers.{IsAttached};
ghost use Rattle.gap_ring.specs.Takes.{TakeMade};
ghost use Rattle.gap_ring.specs.Ends.{IsOn, TakerRests};

use crate::answers::Take;
use crate::progress::Progress;
use crate::steps::{FIRST, LAST, VERSIONS, load_end, load_gap, load_tail, take_item};
use crate::view::{GapWords, Place, Ring};

// Takes the oldest item.
pub(crate) fn make_take(
    ring: &Ring,
    seat: &mut Place,
    capacity: u64,
    progress: &mut Progress,
) -> Take
    requires on { IsOn ring.now.shared.table_id seat.old }
    requires sized { (capacity ≡ ring.now.shared.table_id.slots) × (2 ≤ capacity) }
    requires rests { TakerRests progress.old seat.old.me.0 × (seat.old.me.1 ≡ []) }
    requires attached { IsAttached seat.old.me.0.taking.attach }
    ensures on { IsOn ring.now.shared.table_id seat.new }
    ensures rests { TakerRests progress.new seat.new.me.0 × (seat.new.me.1 ≡ []) }
    ensures made { TakeMade ring.now.shared.table_id.slots seat.old.me.0.taking seat.new.me.0.taking result }
{
    let end = load_end(ring, seat);
    let tail = load_tail(ring, seat);
    if tail == progress.head {
        if end == 0 {
            return Take::Empty { tail };
        }
        let first = load_gap(ring, seat, FIRST);
        let last = load_gap(ring, seat, LAST);
        let versions = load_gap(ring, seat, VERSIONS);
        let words = GapWords {
            first,
            last,
            versions,
        };
        let gap = progress.gap_to(end - 1, words);
        return Take::Ended {
            number: end - 1,
            gap,
        };
    }
    let slot = (progress.head % capacity) as usize;
    let item = take_item(ring, seat, slot, progress.head + 1);
    if progress.pass(&item) {
        Take::Item { item }
    } else {
        Take::Old
    }
}
