//! Signals of the worked frames, each with its scaling or its encoding.

use super::building::{CodingRow, EntryRow, ScaleRow, SignalRow};
use bench_model::Order;
use multiplex_tree::Mark;

/// A signal without multiplexer indicator, and the indicators `M`, `m1M` and `m2`.
pub const PLAIN: Mark = Mark {
    multiplexor: false,
    group: None,
};

pub const M: Mark = Mark {
    multiplexor: true,
    group: None,
};

pub const M1M: Mark = Mark {
    multiplexor: true,
    group: Some(1),
};

pub const M2: Mark = Mark {
    multiplexor: false,
    group: Some(2),
};

const SAME: ScaleRow = ScaleRow {
    factor: "1",
    offset: "0",
    unit: "",
};

const DOUBLE_RPM: ScaleRow = ScaleRow {
    factor: "2",
    unit: "rpm",
    ..SAME
};

const GREATEST: ScaleRow = ScaleRow {
    factor: "4611686018427387903",
    ..SAME
};

const HUNDRED_THOUSANDTHS: ScaleRow = ScaleRow {
    factor: "1E-005",
    offset: "-40",
    ..SAME
};

const QUARTERS_OF_ONE: ScaleRow = ScaleRow {
    factor: "0.25",
    ..SAME
};

const QUARTER_RPM: ScaleRow = ScaleRow {
    factor: "0.25",
    unit: "rpm",
    ..SAME
};

const FROM_FORTY: ScaleRow = ScaleRow {
    offset: "40",
    unit: "°C",
    ..SAME
};

const EIGHTHS_RPM: ScaleRow = ScaleRow {
    factor: "0.125",
    unit: "rpm",
    ..SAME
};

const HALF_DEGREES: ScaleRow = ScaleRow {
    factor: "0.5",
    offset: "-40",
    unit: "degC",
};

const VOLTS: ScaleRow = ScaleRow {
    factor: "2",
    unit: "V",
    ..SAME
};

/// A whole byte whose value is its raw value.
pub const SIGNAL: SignalRow = SignalRow {
    name: "S",
    start: 0,
    size: 8,
    order: Order::Intel,
    signed: false,
    coding: CodingRow::Scaled(SAME, &[]),
    mark: PLAIN,
};

pub const RPM: SignalRow = SignalRow {
    name: "Speed",
    start: 0,
    size: 16,
    coding: CodingRow::Scaled(DOUBLE_RPM, &[]),
    ..SIGNAL
};

pub const BIG: SignalRow = SignalRow {
    name: "S",
    start: 7,
    size: 16,
    order: Order::Motorola,
    ..SIGNAL
};

pub const BIG_SIGNED: SignalRow = SignalRow {
    name: "S",
    start: 3,
    size: 12,
    order: Order::Motorola,
    signed: true,
    ..SIGNAL
};

pub const ALL_SIGNED: SignalRow = SignalRow {
    name: "S",
    start: 0,
    size: 64,
    signed: true,
    ..SIGNAL
};

pub const ALL: SignalRow = SignalRow {
    name: "S",
    start: 0,
    size: 64,
    coding: CodingRow::Scaled(GREATEST, &[]),
    ..SIGNAL
};

pub const SMALL_STEPS: SignalRow = SignalRow {
    name: "S",
    start: 0,
    size: 16,
    coding: CodingRow::Scaled(HUNDRED_THOUSANDTHS, &[]),
    ..SIGNAL
};

pub const QUARTERS: SignalRow = SignalRow {
    name: "S",
    start: 0,
    size: 16,
    coding: CodingRow::Scaled(QUARTERS_OF_ONE, &[]),
    ..SIGNAL
};

pub const SECOND_WORD: SignalRow = SignalRow {
    name: "Late",
    start: 16,
    size: 16,
    ..SIGNAL
};

pub const BIG_SECOND: SignalRow = SignalRow {
    name: "S",
    start: 15,
    size: 16,
    order: Order::Motorola,
    ..SIGNAL
};

pub const BIG_THIRD: SignalRow = SignalRow {
    name: "Late",
    start: 23,
    size: 16,
    order: Order::Motorola,
    ..SIGNAL
};

pub const SPEED: SignalRow = SignalRow {
    name: "Speed",
    start: 0,
    size: 16,
    coding: CodingRow::Scaled(QUARTER_RPM, &[]),
    ..SIGNAL
};

pub const OIL: SignalRow = SignalRow {
    name: "Oil",
    start: 16,
    size: 8,
    signed: true,
    coding: CodingRow::Scaled(FROM_FORTY, &[]),
    ..SIGNAL
};

pub const GEAR: SignalRow = SignalRow {
    name: "Gear",
    start: 24,
    size: 4,
    coding: CodingRow::Scaled(SAME, &[(0, "Neutral"), (1, "First"), (1, "Second")]),
    ..SIGNAL
};

pub const ENGINE_SPEED: SignalRow = SignalRow {
    name: "EngSpeed",
    start: 24,
    size: 16,
    coding: CodingRow::Scaled(EIGHTHS_RPM, &[]),
    ..SIGNAL
};

pub const TOP: SignalRow = SignalRow {
    name: "Top",
    start: 0,
    size: 8,
    mark: M,
    ..SIGNAL
};

pub const MID: SignalRow = SignalRow {
    name: "Mid",
    start: 8,
    size: 8,
    mark: M1M,
    ..SIGNAL
};

pub const LOW: SignalRow = SignalRow {
    name: "Low",
    start: 16,
    size: 8,
    mark: M2,
    ..SIGNAL
};

pub const TEMP: SignalRow = SignalRow {
    name: "Temp",
    start: 0,
    size: 8,
    coding: CodingRow::Listed(&[
        EntryRow::Logical(255, Some("invalid")),
        EntryRow::Physical(0, 255, HALF_DEGREES),
    ]),
    ..SIGNAL
};

pub const GAPPED: SignalRow = SignalRow {
    name: "Gapped",
    start: 8,
    size: 8,
    coding: CodingRow::Listed(&[EntryRow::Logical(1, None), EntryRow::Physical(3, 4, VOLTS)]),
    ..SIGNAL
};

pub const DIGITS: SignalRow = SignalRow {
    name: "Digits",
    start: 0,
    size: 8,
    coding: CodingRow::Listed(&[EntryRow::Plain]),
    ..SIGNAL
};

pub const NINE_BYTES: SignalRow = SignalRow {
    name: "S",
    start: 7,
    size: 64,
    ..SIGNAL
};

pub const INTEL_SIGNED: SignalRow = SignalRow {
    name: "S",
    start: 4,
    size: 12,
    signed: true,
    ..SIGNAL
};

pub const BIG_ALL: SignalRow = SignalRow {
    name: "S",
    start: 7,
    size: 64,
    order: Order::Motorola,
    ..SIGNAL
};

pub const FAR: SignalRow = SignalRow {
    name: "S",
    start: 72,
    size: 8,
    ..SIGNAL
};

pub const LABELLED: SignalRow = SignalRow {
    name: "S",
    signed: true,
    coding: CodingRow::Scaled(SAME, &[(-1, "none")]),
    ..SIGNAL
};

pub const UNSIGNED_LABELLED: SignalRow = SignalRow {
    name: "S",
    coding: CodingRow::Scaled(SAME, &[(-1, "none")]),
    ..SIGNAL
};

pub const SIGNED_LISTED: SignalRow = SignalRow {
    name: "S",
    signed: true,
    coding: CodingRow::Listed(&[
        EntryRow::Physical(0, 255, VOLTS),
        EntryRow::Plain,
        EntryRow::Logical(255, Some("late")),
    ]),
    ..SIGNAL
};

pub const ALONE: SignalRow = SignalRow {
    name: "Alone",
    start: 8,
    mark: M2,
    ..SIGNAL
};

/// Twelve bits that begin within a byte, 64 in nine bytes, and 64 big-endian bits.
pub const TWELVE: SignalRow = SignalRow {
    name: "Twelve",
    ..INTEL_SIGNED
};

pub const NINE: SignalRow = SignalRow {
    name: "Nine",
    ..NINE_BYTES
};

pub const BIG_LONG: SignalRow = SignalRow {
    name: "Big",
    ..BIG_ALL
};

/// Value texts: the first of one number counts, and an unsigned number is never below 0.
pub const SIGNED_GEAR: SignalRow = SignalRow {
    name: "Gear",
    signed: true,
    coding: CodingRow::Scaled(SAME, &[(-1, "none"), (1, "First"), (1, "Second"), (2, "")]),
    ..SIGNAL
};

pub const UNSIGNED: SignalRow = SignalRow {
    name: "Unsigned",
    ..UNSIGNED_LABELLED
};

/// The third byte, signed, with a list whose second entry covers every number.
pub const THIRD_LISTED: SignalRow = SignalRow {
    name: "Signed",
    start: 16,
    ..SIGNED_LISTED
};

/// A multiplexor in the second byte, and the signal below it in the first.
pub const SECOND_TOP: SignalRow = SignalRow { start: 8, ..TOP };

pub const FIRST_LOW: SignalRow = SignalRow { start: 0, ..LOW };

/// A multiplexor with every part of a scaling, and a signal below it with every kind of entry.
pub const ALL_SPEED: SignalRow = SignalRow {
    name: "Speed",
    size: 16,
    signed: true,
    coding: CodingRow::Scaled(
        ScaleRow {
            factor: "0.2",
            offset: "-0.3",
            unit: "rpm",
        },
        &[(-1, "no")],
    ),
    mark: M,
    ..SIGNAL
};

pub const ALL_MODE: SignalRow = SignalRow {
    name: "Mode",
    start: 23,
    order: Order::Motorola,
    coding: CodingRow::Listed(&[
        EntryRow::Logical(5, Some("on")),
        EntryRow::Logical(6, None),
        EntryRow::Physical(0, 9, ScaleRow { unit: "C", ..SAME }),
        EntryRow::Plain,
    ]),
    mark: M2,
    ..SIGNAL
};
