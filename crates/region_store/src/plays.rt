//! What each step shows its seat. These types are for the proofs alone.

use crate::view::View;
use atomic_table::{Join, Play, Split};
use std::marker::{Brand, PhantomData};

/// For how many lines a pin is made, and of which region a step of the loader is.
pub trait Said {
    ghost use Rattle.std.specs.Prelude.{ℕ};

    ghost number: { ℕ };
}

impl Said for Brand {
    ghost number = { 0 };
}

pub struct SeeEpoch;

impl Play<(), View> for SeeEpoch {
    ghost use Rattle.region_store.specs.Steps.{LaneLoads, saw_epoch, epoch_shown};

    ghost then = { LaneLoads saw_epoch epoch_shown };
}

pub struct StorePin;

impl Play<(), View> for StorePin {
    ghost use Rattle.region_store.specs.Steps.{LaneStores, stored_pin};

    ghost then = { LaneStores stored_pin };
}

pub struct SeePublished<W> {
    said: PhantomData<W>,
}

impl<W: Said> Play<(), View> for SeePublished<W> {
    ghost use Rattle.region_store.specs.Steps.{LaneLoads, saw_published, published_shown};

    ghost then = { LaneLoads (saw_published W.number) (published_shown W.number) };
}

pub struct SeeWord;

impl Play<(), View> for SeeWord {
    ghost use Rattle.region_store.specs.Steps.{LaneLoads, saw_word, word_shown};

    ghost then = { LaneLoads saw_word word_shown };
}

pub struct LetGo;

impl Play<(), View> for LetGo {
    ghost use Rattle.region_store.specs.Steps.{LaneStores, let_go};

    ghost then = { LaneStores let_go };
}

pub struct StoreWord<W> {
    said: PhantomData<W>,
}

impl<W: Said> Play<(), View> for StoreWord<W> {
    ghost use Rattle.region_store.specs.Steps.{LoaderStores, stored_word};

    ghost then = { LoaderStores (stored_word W.number) };
}

pub struct StorePublished;

impl Play<(), View> for StorePublished {
    ghost use Rattle.region_store.specs.Steps.{LoaderStores, stored_published};

    ghost then = { LoaderStores stored_published };
}

pub struct StoreEpoch;

impl Play<(), View> for StoreEpoch {
    ghost use Rattle.region_store.specs.Steps.{LoaderStores, stored_epoch};

    ghost then = { LoaderStores stored_epoch };
}

pub struct SeePin<W> {
    said: PhantomData<W>,
}

impl<W: Said> Play<(), View> for SeePin<W> {
    ghost use Rattle.region_store.specs.Steps.{LoaderLoads, saw_pin, pin_shown};

    ghost then = { LoaderLoads (saw_pin W.number) (pin_shown W.number) };
}

pub struct Lanes;

impl Split<View> for Lanes {
    ghost use Rattle.region_store.specs.Steps.{loader_side, lane_side};

    ghost left = { loader_side };

    ghost right = { lane_side };
}

impl Join<View> for Lanes {
    ghost use Rattle.region_store.specs.Steps.{both_sides, spent_view};

    ghost both = { both_sides };

    ghost spent = { spent_view };
}
