//! What each step shows its seat. These types are for the proofs alone.

use crate::view::View;
use atomic_table::{Join, Play, Split};
use bench_model::{Item, Reading};
use std::marker::{Brand, PhantomData};

/// The record that an offer is made of, which its steps are to enter.
pub trait Said {
    ghost use Rattle.std.specs.Prelude.{Option};
    ghost use Rattle.bench_model.specs.declared.reading.Reading.{Reading};

    ghost reading: { Option Reading };
}

impl Said for Brand {
    ghost use Rattle.std.specs.Prelude.{None};

    ghost reading = { None };
}

pub struct SeeAttach<W> {
    said: PhantomData<W>,
}

impl<W: Said> Play<Option<Item>, View> for SeeAttach<W> {
    ghost use Rattle.gap_ring.specs.Steps.{PutterLoads, saw_attach};

    ghost then = { PutterLoads (saw_attach W.reading) };
}

pub struct SeeHead<W> {
    said: PhantomData<W>,
}

impl<W: Said> Play<Option<Item>, View> for SeeHead<W> {
    ghost use Rattle.gap_ring.specs.Steps.{PutterLoads, saw_head};

    ghost then = { PutterLoads (saw_head W.reading) };
}

pub struct Reach;

impl Play<Option<Item>, View> for Reach {
    ghost use Rattle.gap_ring.specs.Steps.{PutterLoads, reached};

    ghost then = { PutterLoads reached };
}

pub struct PutLead;

impl Play<Option<Item>, View> for PutLead {
    ghost use Rattle.gap_ring.specs.Steps.{PutterStores, item_in, put_lead};

    ghost then = { λ st m n w. PutterStores (put_lead (item_in m.1)) st m n w };
}

pub struct PutRecord;

impl Play<Option<Item>, View> for PutRecord {
    ghost use Rattle.gap_ring.specs.Steps.{PutterStores, item_in, record_in, put_record};

    ghost then = { λ st m n w. PutterStores (put_record (record_in (item_in m.1))) st m n w };
}

pub struct StoreGap;

impl Play<Option<Item>, View> for StoreGap {
    ghost use Rattle.gap_ring.specs.Steps.{PutterStores, stored_gap};

    ghost then = { PutterStores stored_gap };
}

pub struct StoreEnd;

impl Play<Option<Item>, View> for StoreEnd {
    ghost use Rattle.gap_ring.specs.Steps.{PutterStores, stored_end};

    ghost then = { PutterStores stored_end };
}

pub struct SeeEnd;

impl Play<Option<Item>, View> for SeeEnd {
    ghost use Rattle.gap_ring.specs.Steps.{TakerLoads, saw_end};

    ghost then = { TakerLoads saw_end };
}

pub struct SeeTail;

impl Play<Option<Item>, View> for SeeTail {
    ghost use Rattle.gap_ring.specs.Steps.{TakerLoads, saw_tail};

    ghost then = { TakerLoads saw_tail };
}

pub struct SeeGap;

impl Play<Option<Item>, View> for SeeGap {
    ghost use Rattle.gap_ring.specs.Steps.{TakerLoads, saw_gap};

    ghost then = { TakerLoads saw_gap };
}

pub struct StoreHead;

impl Play<Option<Item>, View> for StoreHead {
    ghost use Rattle.gap_ring.specs.Steps.{TakerStores, stored_head};

    ghost then = { TakerStores stored_head };
}

pub struct StoreAttach;

impl Play<Option<Item>, View> for StoreAttach {
    ghost use Rattle.gap_ring.specs.Steps.{TakerStores, stored_attach};

    ghost then = { TakerStores stored_attach };
}

/// The bus of the ring, which the two ends are to learn of when they meet.
pub trait OfBus {
    ghost use Rattle.std.specs.Prelude.{ℕ};

    ghost bus: { ℕ };
}

impl OfBus for Brand {
    ghost bus = { 0 };
}

pub struct Learn<W> {
    of: PhantomData<W>,
}

impl<W: OfBus> Play<Option<Item>, View> for Learn<W> {
    ghost use Rattle.gap_ring.specs.Steps.{TakerLoads, learned};

    ghost then = { TakerLoads (learned W.bus) };
}

pub struct Roles;

impl Split<View> for Roles {
    ghost use Rattle.gap_ring.specs.Steps.{putter_side, taker_side};

    ghost left = { putter_side };

    ghost right = { taker_side };
}

impl Join<View> for Roles {
    ghost use Rattle.gap_ring.specs.Steps.{both_sides, spent_view};

    ghost both = { both_sides };

    ghost spent = { spent_view };
}
