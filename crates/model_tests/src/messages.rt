//! Messages of the worked frames: their identifiers, their signals, and which lie below which.

use super::building::MessageRow;
use super::signals::*;
use bench_model::Key;
use multiplex_tree::Range;

const ONE: Range = Range { low: 1, high: 1 };

const TWO_THREE: Range = Range { low: 2, high: 3 };

const ONE_TWO: Range = Range { low: 1, high: 2 };

const FOUR: Range = Range { low: 4, high: 4 };

pub const ENGINE: Key = Key {
    extended: false,
    id: 0x100,
};

pub const MUX: Key = Key {
    extended: false,
    id: 0x200,
};

pub const EEC1: Key = Key {
    extended: true,
    id: 0x0cf0_04fe,
};

pub const EEC1_OTHER: Key = Key {
    extended: true,
    id: 0x0cf0_0400,
};

pub const SHORT_EEC1: Key = Key {
    extended: false,
    id: 0x400,
};

pub const SPEED_AND_MORE: MessageRow = MessageRow {
    name: "Engine",
    key: ENGINE,
    signals: &[SPEED, OIL, GEAR],
    links: &[],
};

pub const MULTIPLEXED: MessageRow = MessageRow {
    name: "Mux",
    key: MUX,
    signals: &[TOP, MID, LOW],
    links: &[(1, 0, ONE), (2, 1, TWO_THREE)],
};

pub const BY_GROUP: MessageRow = MessageRow {
    name: "EEC1",
    key: EEC1,
    signals: &[ENGINE_SPEED],
    links: &[],
};

pub const BY_GROUP_TOO: MessageRow = MessageRow {
    name: "EEC1_B",
    key: EEC1_OTHER,
    signals: &[SIGNAL],
    links: &[],
};

pub const LIN_STATUS: MessageRow = MessageRow {
    name: "Status",
    key: ENGINE,
    signals: &[TEMP, GAPPED],
    links: &[],
};

/// Messages of a group whose PDU format is below 240, in which the PDU specific byte is an address, of data page 1, and
/// with an 11-bit identifier.
pub const REQUEST: Key = Key {
    extended: true,
    id: 0x18ea_ff00,
};

pub const REQUEST_TO_ONE: Key = Key {
    extended: true,
    id: 0x0cea_0105,
};

pub const FORMAT_239: Key = Key {
    extended: true,
    id: 0x18ef_1020,
};

pub const FORMAT_240: Key = Key {
    extended: true,
    id: 0x18f0_1020,
};

pub const PAGE_ONE: Key = Key {
    extended: true,
    id: 0x19ea_0000,
};

pub const GROUP_EA: MessageRow = MessageRow {
    name: "EA",
    key: REQUEST,
    signals: &[SIGNAL],
    links: &[],
};

pub const GROUP_EA_AGAIN: MessageRow = MessageRow {
    name: "EA_AGAIN",
    key: Key {
        extended: true,
        id: 0x00ea_0001,
    },
    signals: &[SIGNAL],
    links: &[],
};

pub const GROUP_F010: MessageRow = MessageRow {
    name: "F010",
    key: FORMAT_240,
    signals: &[SIGNAL],
    links: &[],
};

pub const SHORT: MessageRow = MessageRow {
    name: "SHORT",
    key: SHORT_EEC1,
    signals: &[SIGNAL],
    links: &[],
};

pub const UNLINKED: MessageRow = MessageRow {
    name: "Unlinked",
    key: ENGINE,
    signals: &[TOP, ALONE],
    links: &[],
};

/// The message of one signal and the identifier 100, whose engine runs at 2 rpm a step.
pub const ENGINE_RPM: MessageRow = MessageRow {
    name: "Engine",
    key: ENGINE,
    signals: &[RPM],
    links: &[],
};

pub const WITHIN_BYTES: MessageRow = MessageRow {
    signals: &[TWELVE, NINE, BIG_LONG],
    ..ENGINE_RPM
};

pub const TEXTS: MessageRow = MessageRow {
    signals: &[SIGNED_GEAR, UNSIGNED],
    ..ENGINE_RPM
};

pub const ENCODINGS: MessageRow = MessageRow {
    name: "Status",
    signals: &[TEMP, GAPPED, THIRD_LISTED],
    ..ENGINE_RPM
};

/// Two ranges below one parent, and an 11-bit identifier that a J1939 bus has beside its groups.
pub const TWO_RANGES: MessageRow = MessageRow {
    name: "Ranges",
    key: MUX,
    signals: &[SECOND_TOP, FIRST_LOW],
    links: &[(1, 0, ONE_TWO), (1, 0, FOUR)],
};

/// A part of every kind.
pub const ALL_PARTS: MessageRow = MessageRow {
    name: "Engine",
    key: Key {
        extended: true,
        id: 0x18f0_0401,
    },
    signals: &[ALL_SPEED, ALL_MODE],
    links: &[(1, 0, ONE_TWO), (1, 0, FOUR)],
};
