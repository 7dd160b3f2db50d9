//! How a lane takes hold of a version, reads its words and lets it go.
ghost use Rattle.std.specs.Prelude.{◌≡◌, ◌<◌, ◌≤◌, ◌+◌, ◌∷◌, ◌++◌, [], ℕ, All, slice_index};
ghost use Rattle.region_store.specs.declared.view.Did.TheVariants as did;
ghost use Rattle.region_store.specs.Layout.{epoch_word, published_word, pin_place};
ghost use Rattle.region_store.specs.Layout.{most_lines, place_of, version_in, region_in, size_in};
ghost use Rattle.region_store.specs.Steps.{use_of, with_read};
ghost use Rattle.region_store.specs.Ends.{IsLaneOf, uses_of, steps_of, uses_of_pin, steps_of_pin};
ghost use Rattle.region_store.specs.Ends.{shape_of, first_of, known_of_pin, use_of_pin};
ghost use Rattle.image_words.specs.Knowledge.{Learns, SomeFits};

use crate::lane::LaneSeat;
use crate::layout::{pin_word, region_word, unpack};
use crate::pinned::Pinned;
use crate::plays::Said;
use crate::steps::{load_epoch, load_published, load_word, store_none, store_pin};
use crate::store::Store;
use image_words::Words;
use std::marker::Brand;

impl Store {
    fn pin_said<W: Said>(&self, seat: LaneSeat, lines: u32) -> Pinned<'_>
        requires said { W.number ≡ lines }
        requires own { IsLaneOf self.now seat }
        ensures store { result.store.now ≡ self.now }
        ensures lane { result.lane ≡ seat.lane }
        ensures steps { (epoch : ℕ) × ((found : ℕ) × ((steps_of_pin result ≡ steps_of seat
            ++ (did.Loaded epoch_word epoch ∷ did.Stored (pin_place seat.lane) (epoch + 1)
            ∷ did.Loaded published_word found ∷ []))
            × (uses_of_pin result ≡ uses_of seat ++ use_of lines found ∷ [])
            × (version_in found ≡ result.version) × (size_in found ≡ result.size)
            × (result.start ≡ place_of (shape_of self.now).room (region_in found) 0))) }
        ensures buses { (known_of_pin result).buses ≡ slice_index (first_of self.now) 1 }
        ensures newest { All (λ u. u.version ≤ result.version) (uses_of seat) }
        ensures fits { SomeFits (known_of_pin result) }
    {
        let LaneSeat { mut seat, lane } = seat;
        let epoch = load_epoch(&self.table, &mut seat);
        store_pin(&self.table, &mut seat, pin_word(lane), epoch + 1);
        let word = load_published::<W>(&self.table, &mut seat, lines);
        let found = unpack(word);
        Pinned {
            store: self,
            seat,
            lane,
            version: found.version,
            size: found.size,
            start: region_word(self.shape.room as usize, found.region),
        }
    }

    /// Takes hold of the published version, for so many lines: it loads the epoch, stores its pin and loads the
    /// published word. It takes no memory and waits for nothing.
    pub fn pin(&self, seat: LaneSeat, lines: u32) -> Pinned<'_>
        requires own { IsLaneOf self.now seat }
        requires lines { (1 ≤ lines) × (lines ≤ most_lines) }
        ensures store { result.store.now ≡ self.now }
        ensures lane { result.lane ≡ seat.lane }
        ensures steps { (epoch : ℕ) × ((found : ℕ) × ((steps_of_pin result ≡ steps_of seat
            ++ (did.Loaded epoch_word epoch ∷ did.Stored (pin_place seat.lane) (epoch + 1)
            ∷ did.Loaded published_word found ∷ []))
            × (uses_of_pin result ≡ uses_of seat ++ use_of lines found ∷ [])
            × (version_in found ≡ result.version) × (size_in found ≡ result.size)
            × (result.start ≡ place_of (shape_of self.now).room (region_in found) 0))) }
        ensures buses { (known_of_pin result).buses ≡ slice_index (first_of self.now) 1 }
        ensures newest { All (λ u. u.version ≤ result.version) (uses_of seat) }
        ensures fits { SomeFits (known_of_pin result) }
    {
        self.pin_said::<Brand>(seat, lines)
    }
}

impl<'a> Pinned<'a> {
    /// The version that is held.
    pub fn version(&self) -> u32
        ensures { result ≡ self.now.version }
    {
        self.version
    }

    /// Lets the version go: it stores 0 into the pin. It takes no memory and waits for nothing.
    pub fn unpin(self) -> LaneSeat
        ensures own { IsLaneOf self.entry.store.now result }
        ensures lane { result.lane ≡ self.entry.lane }
        ensures uses { uses_of result ≡ uses_of_pin self.entry }
        ensures steps { steps_of result ≡ steps_of_pin self.entry ++ did.Stored (pin_place self.entry.lane) 0 ∷ [] }
    {
        let Pinned {
            store,
            mut seat,
            lane,
            version: _,
            size: _,
            start: _,
        } = self;
        store_none(&store.table, &mut seat, pin_word(lane));
        LaneSeat { seat, lane }
    }
}

impl<'a> Words for Pinned<'a> {
    ghost use Rattle.region_store.specs.Ends.{known_of_pin, Reads};
    ghost use Rattle.region_store.specs.Reading.{reads_same, reads_chain};

    ghost knows = { known_of_pin };

    ghost reads = { Reads };

    ghost same = { reads_same };

    ghost chain = { reads_chain };

    fn len(&self) -> usize {
        self.size
    }

    // one load, of the word at this place of its image
    fn word(&mut self, at: usize) -> u64
        requires { at < (known_of_pin self.old).size }
        ensures learns { Learns (known_of_pin self.old) (known_of_pin self.new) at result }
        ensures fits { SomeFits (known_of_pin self.old) → SomeFits (known_of_pin self.new) }
        ensures some { SomeFits (known_of_pin self.new) }
        ensures reads { Reads self.old self.new }
        ensures step { steps_of_pin self.new ≡ steps_of_pin self.old ++ did.Loaded (self.old.start + at) result ∷ [] }
        ensures read { use_of_pin self.new ≡ with_read at result (use_of_pin self.old) }
    {
        load_word(&self.store.table, &mut self.seat, self.start + at)
    }
}
