//! Frames at the edges: the ends of the raw values, of ranges and of parameter groups, and labels below zero.

use super::Case;
use crate::building::MessageRow;
use crate::messages::*;
use crate::signals::*;
use bench_model::{Ask, Key, Kind};

pub const EDGES: &[Case] = &[
    // The ends of the range of raw values, over eight bytes and nine, and a byte behind the eighth.
    Case {
        kind: Kind::Can,
        messages: &[MessageRow {
            signals: &[ALL_SIGNED],
            ..ENGINE_RPM
        }],
        ask: Ask::Frame { key: ENGINE },
        bytes: &[0x00, 0x00, 0x00, 0x00, 0x00, 0x00, 0x00, 0x80],
        meaning: "Engine; S -9223372036854775808 -9223372036854775808 ",
    },
    Case {
        kind: Kind::Can,
        messages: &[MessageRow {
            signals: &[NINE_BYTES],
            ..ENGINE_RPM
        }],
        ask: Ask::Frame { key: ENGINE },
        bytes: &[0x80, 0xff, 0xff, 0xff, 0xff, 0xff, 0xff, 0xff, 0x7f],
        meaning: "Engine; S 18446744073709551615 18446744073709551615 ",
    },
    Case {
        kind: Kind::Can,
        messages: &[MessageRow {
            signals: &[NINE_BYTES],
            ..ENGINE_RPM
        }],
        ask: Ask::Frame { key: ENGINE },
        bytes: &[0xff; 8],
        meaning: "Engine",
    },
    Case {
        kind: Kind::Can,
        messages: &[MessageRow {
            signals: &[BIG_ALL],
            ..ENGINE_RPM
        }],
        ask: Ask::Frame { key: ENGINE },
        bytes: &[0x01, 0x02, 0x03, 0x04, 0x05, 0x06, 0x07, 0x08],
        meaning: "Engine; S 72623859790382856 72623859790382856 ",
    },
    Case {
        kind: Kind::Can,
        messages: &[MessageRow {
            signals: &[INTEL_SIGNED],
            ..ENGINE_RPM
        }],
        ask: Ask::Frame { key: ENGINE },
        bytes: &[0xe0, 0xff],
        meaning: "Engine; S -2 -2 ",
    },
    Case {
        kind: Kind::Can,
        messages: &[MessageRow {
            signals: &[FAR],
            ..ENGINE_RPM
        }],
        ask: Ask::Frame { key: ENGINE },
        bytes: &[0x00, 0x00, 0x00, 0x00, 0x00, 0x00, 0x00, 0x00, 0x00, 0x42],
        meaning: "Engine; S 66 66 ",
    },
    // A label below zero, which an unsigned signal never has.
    Case {
        kind: Kind::Can,
        messages: &[MessageRow {
            signals: &[LABELLED],
            ..ENGINE_RPM
        }],
        ask: Ask::Frame { key: ENGINE },
        bytes: &[0xff],
        meaning: "Engine; S -1 -1  = none",
    },
    Case {
        kind: Kind::Can,
        messages: &[MessageRow {
            signals: &[UNSIGNED_LABELLED],
            ..ENGINE_RPM
        }],
        ask: Ask::Frame { key: ENGINE },
        bytes: &[0xff],
        meaning: "Engine; S 255 255 ",
    },
    // A negative raw value lies in no range; an entry for every value is before a later one.
    Case {
        kind: Kind::Lin,
        messages: &[MessageRow {
            signals: &[SIGNED_LISTED],
            ..ENGINE_RPM
        }],
        ask: Ask::Frame { key: ENGINE },
        bytes: &[0xff],
        meaning: "Engine; S -1 -1 ",
    },
    Case {
        kind: Kind::Lin,
        messages: &[MessageRow {
            signals: &[SIGNED_LISTED],
            ..ENGINE_RPM
        }],
        ask: Ask::Frame { key: ENGINE },
        bytes: &[0x05],
        meaning: "Engine; S 5 10 V",
    },
    // Both ends of a range.
    Case {
        kind: Kind::Lin,
        messages: &[LIN_STATUS],
        ask: Ask::Frame { key: ENGINE },
        bytes: &[0x64, 0x04],
        meaning: "Status; Temp 100 10 degC; Gapped 4 8 V",
    },
    Case {
        kind: Kind::Lin,
        messages: &[LIN_STATUS],
        ask: Ask::Frame { key: ENGINE },
        bytes: &[0x64, 0x05],
        meaning: "Status; Temp 100 10 degC; Gapped 5 5 ",
    },
    Case {
        kind: Kind::Can,
        messages: &[MULTIPLEXED],
        ask: Ask::Frame { key: MUX },
        bytes: &[0x01, 0x02, 0x05],
        meaning: "Mux; Top 1 1 ; Mid 2 2 ; Low 5 5 ",
    },
    // A marked signal without a link is under the one multiplexor.
    Case {
        kind: Kind::Can,
        messages: &[UNLINKED],
        ask: Ask::Frame { key: ENGINE },
        bytes: &[0x02, 0x07],
        meaning: "Unlinked; Top 2 2 ; Alone 7 7 ",
    },
    Case {
        kind: Kind::Can,
        messages: &[UNLINKED],
        ask: Ask::Frame { key: ENGINE },
        bytes: &[0x01, 0x07],
        meaning: "Unlinked; Top 1 1 ",
    },
    // A PDU format below 240: the PDU specific byte is an address, and the first message of the group matches.
    Case {
        kind: Kind::J1939,
        messages: &[GROUP_EA, GROUP_EA_AGAIN],
        ask: Ask::Frame {
            key: REQUEST_TO_ONE,
        },
        bytes: &[0x01],
        meaning: "EA; S 1 1 ",
    },
    Case {
        kind: Kind::J1939,
        messages: &[GROUP_EA],
        ask: Ask::Frame { key: PAGE_ONE },
        bytes: &[0x01],
        meaning: "no match",
    },
    Case {
        kind: Kind::J1939,
        messages: &[GROUP_EA],
        ask: Ask::Group { pgn: 59_904 },
        bytes: &[0x01],
        meaning: "EA; S 1 1 ",
    },
    Case {
        kind: Kind::J1939,
        messages: &[GROUP_EA],
        ask: Ask::Group { pgn: 60_159 },
        bytes: &[0x01],
        meaning: "no match",
    },
    // From 240 on it is part of the group.
    Case {
        kind: Kind::J1939,
        messages: &[GROUP_F010],
        ask: Ask::Group { pgn: 61_456 },
        bytes: &[0x01],
        meaning: "F010; S 1 1 ",
    },
    Case {
        kind: Kind::J1939,
        messages: &[GROUP_F010],
        ask: Ask::Frame { key: FORMAT_239 },
        bytes: &[0x01],
        meaning: "no match",
    },
    // An 11-bit identifier matches by itself alone, and its message no group.
    Case {
        kind: Kind::J1939,
        messages: &[SHORT],
        ask: Ask::Frame { key: SHORT_EEC1 },
        bytes: &[0x01],
        meaning: "SHORT; S 1 1 ",
    },
    Case {
        kind: Kind::J1939,
        messages: &[SHORT],
        ask: Ask::Frame {
            key: Key {
                extended: true,
                id: 0x400,
            },
        },
        bytes: &[0x01],
        meaning: "no match",
    },
    Case {
        kind: Kind::Lin,
        messages: &[BY_GROUP],
        ask: Ask::Group { pgn: 61_444 },
        bytes: &[0x01],
        meaning: "no match",
    },
];
