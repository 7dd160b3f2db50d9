//! How the loader writes an image.
ghost use Rattle.std.specs.Prelude.{◌≡◌, ◌≤◌, [], length, true, None};
ghost use Rattle.region_store.specs.Layout.{place_of};
ghost use Rattle.region_store.specs.Store.{IsOn};
ghost use Rattle.region_store.specs.Finding.{IsFound, written};

use crate::plays::Said;
use crate::steps::store_word;
use crate::view::{Place, Regioned};

// Stores the words of an image into a region.
pub(crate) fn write_image<W: Said>(
    table: &Regioned,
    seat: &mut Place,
    region: u32,
    start: usize,
    image: &[u64],
)
    requires said { W.number ≡ region }
    requires on { IsOn table.now.shared.table_id table.now.shared.key seat.old }
    requires loader { (seat.old.me.0.is_loader ≡ true) × (seat.old.me.0.loader.writing ≡ None)
        × (seat.old.me.0.loader.draft ≡ []) }
    requires found { IsFound seat.old.me.0 region }
    requires start { start ≡ place_of seat.old.me.0.shape.room region 0 }
    requires image { (1 ≤ length image.now) × (length image.now ≤ seat.old.me.0.shape.room) }
    ensures on { IsOn table.now.shared.table_id table.now.shared.key seat.new }
    ensures written { seat.new.me.0 ≡ written region image.now (length image.now) seat.old.me.0 }
{
    for at in 0..image.len() {
        store_word::<W>(table, seat, region, start + at, image[at]);
    }
}
