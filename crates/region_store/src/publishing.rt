//! How the loader publishes an image.
ghost use Rattle.std.specs.Prelude.{◌≡◌, ◌+◌, ◌<◌, ◌≤◌, length};
ghost use Rattle.region_store.specs.Layout.{version_weight};
ghost use Rattle.region_store.specs.Store.{IsOn, LoaderRests};
ghost use Rattle.region_store.specs.Images.{IsLike};
ghost use Rattle.region_store.specs.Ends.{shape_of, first_of};
ghost use Rattle.region_store.specs.LoaderEnd.{IsLoaderOf};
ghost use Rattle.region_store.specs.Finding.{IsFound, written_out};
ghost use Rattle.region_store.specs.Publishing.{Publishes};

use crate::finding::find_region;
use crate::layout::{pack, region_word};
use crate::loader::{LoaderSeat, PublishRefused};
use crate::plays::Said;
use crate::steps::{store_epoch, store_published};
use crate::store::Store;
use crate::view::Place;
use crate::writing::write_image;
use std::marker::Brand;

impl Store {
    // Writes an image into a region that no lane can hold, and publishes it there as the next version.
    fn write_out<W: Said>(&self, seat: &mut Place, version: u32, region: u32, image: &[u64])
        requires said { W.number ≡ region }
        requires on { IsOn self.now.table.shared.table_id self.now.table.shared.key seat.old }
        requires rests { LoaderRests version seat.old.me.0.loader.region seat.old.me.0 }
        requires more { version + 1 < version_weight }
        requires found { IsFound seat.old.me.0 region }
        requires image { IsLike (first_of self.now) image.now }
        requires room { length image.now ≤ (shape_of self.now).room }
        ensures on { IsOn self.now.table.shared.table_id self.now.table.shared.key seat.new }
        ensures written { seat.new.me.0 ≡ written_out region image.now seat.old.me.0 }
    {
        let start = region_word(self.shape.room as usize, region);
        write_image::<W>(&self.table, seat, region, start, image);
        store_published(&self.table, seat, pack(version + 1, region, image.len()));
        store_epoch(&self.table, seat, u64::from(version) + 1);
    }

    /// Publishes an image as the next version, in the first spare region that no lane holds; refused where the
    /// published version is the last one, or each spare region may be held by a lane. It takes no memory and waits
    /// for nothing.
    pub fn publish(&self, seat: &mut LoaderSeat, image: &[u64]) -> Result<u32, PublishRefused>
        requires own { IsLoaderOf self.now seat.old }
        requires image { IsLike (first_of self.now) image.now }
        requires room { length image.now ≤ (shape_of self.now).room }
        ensures own { IsLoaderOf self.now seat.new }
        ensures answer { Publishes self.now.last image.now seat.old seat.new result }
    {
        if seat.version == self.last {
            return Err(PublishRefused::VersionsSpent);
        }
        let lanes = self.shape.lanes as u32;
        match find_region(
            &self.table,
            &mut seat.seat,
            seat.region,
            &seat.retired,
            lanes,
        ) {
            Err(holders) => Err(PublishRefused::Busy { holders }),
            Ok(region) => {
                self.write_out::<Brand>(&mut seat.seat, seat.version, region, image);
                seat.retired[seat.region as usize] = Some(u64::from(seat.version));
                seat.retired[region as usize] = None;
                seat.region = region;
                seat.version += 1;
                Ok(seat.version)
            }
        }
    }
}
