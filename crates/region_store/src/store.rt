//! A store.
ghost use Rattle.std.specs.Prelude.{◌≡◌, slice_index};
ghost use Rattle.region_store.specs.Layout.{word_count};
ghost use Rattle.region_store.specs.Rule.{IsWithin};

use crate::view::{Regioned, Shape};

/// A store of versions, whose seats are used with it alone.
#[derive(Drop)]
pub struct Store {
    pub(crate) table: Regioned,
    pub(crate) shape: Shape,
    pub(crate) last: u32,
    ghost shaped: { shape ≡ table.shared.key.shape },
    ghost sized: { table.shared.table_id.words ≡ word_count shape.regions shape.room },
    ghost slotless: { table.shared.table_id.slots ≡ 0 },
    ghost within: { IsWithin shape },
    ghost buses: { shape.buses ≡ slice_index table.shared.key.first.value.items 1 },
}
