//! Worked frames: both bit orders, signs, decimals and multiplexing of DBC files, groups of J1939 and encodings of LIN.

use super::Case;
use crate::building::MessageRow;
use crate::messages::*;
use crate::signals::*;
use bench_model::{Ask, Key, Kind};

pub const CASES: &[Case] = &[
    // Both bit orders, signs and 64 bits.
    Case {
        kind: Kind::Can,
        messages: &[ENGINE_RPM],
        ask: Ask::Frame { key: ENGINE },
        bytes: &[0xa0, 0x0f, 0x00, 0x00, 0x00, 0x00, 0x00, 0x00],
        meaning: "Engine; Speed 4000 8000 rpm",
    },
    Case {
        kind: Kind::Can,
        messages: &[MessageRow {
            signals: &[BIG],
            ..ENGINE_RPM
        }],
        ask: Ask::Frame { key: ENGINE },
        bytes: &[0x12, 0x34],
        meaning: "Engine; S 4660 4660 ",
    },
    Case {
        kind: Kind::Can,
        messages: &[MessageRow {
            signals: &[BIG_SIGNED],
            ..ENGINE_RPM
        }],
        ask: Ask::Frame { key: ENGINE },
        bytes: &[0x0f, 0xfe],
        meaning: "Engine; S -2 -2 ",
    },
    Case {
        kind: Kind::Can,
        messages: &[MessageRow {
            signals: &[ALL_SIGNED],
            ..ENGINE_RPM
        }],
        ask: Ask::Frame { key: ENGINE },
        bytes: &[0xff; 8],
        meaning: "Engine; S -1 -1 ",
    },
    Case {
        kind: Kind::Can,
        messages: &[MessageRow {
            signals: &[ALL],
            ..ENGINE_RPM
        }],
        ask: Ask::Frame { key: ENGINE },
        bytes: &[0xff; 8],
        meaning: "Engine; S 18446744073709551615 85070591730234615842785221765805113345 ",
    },
    // Decimals.
    Case {
        kind: Kind::Can,
        messages: &[MessageRow {
            signals: &[SMALL_STEPS],
            ..ENGINE_RPM
        }],
        ask: Ask::Frame { key: ENGINE },
        bytes: &[0x39, 0x30],
        meaning: "Engine; S 12345 -39.87655 ",
    },
    Case {
        kind: Kind::Can,
        messages: &[MessageRow {
            signals: &[QUARTERS],
            ..ENGINE_RPM
        }],
        ask: Ask::Frame { key: ENGINE },
        bytes: &[0xa0, 0x0f],
        meaning: "Engine; S 4000 1000 ",
    },
    // Signals whose bits lie past the bytes are left out.
    Case {
        kind: Kind::Can,
        messages: &[MessageRow {
            signals: &[SIGNAL, SECOND_WORD],
            ..ENGINE_RPM
        }],
        ask: Ask::Frame { key: ENGINE },
        bytes: &[0x01, 0x02, 0x03],
        meaning: "Engine; S 1 1 ",
    },
    Case {
        kind: Kind::Can,
        messages: &[MessageRow {
            signals: &[BIG_SECOND, BIG_THIRD],
            ..ENGINE_RPM
        }],
        ask: Ask::Frame { key: ENGINE },
        bytes: &[0x01, 0x02, 0x03],
        meaning: "Engine; S 515 515 ",
    },
    Case {
        kind: Kind::Can,
        messages: &[MessageRow {
            signals: &[SIGNAL],
            ..ENGINE_RPM
        }],
        ask: Ask::Frame { key: ENGINE },
        bytes: &[],
        meaning: "Engine",
    },
    // A unit beyond ASCII, a negative value, and the first of two labels of one value.
    Case {
        kind: Kind::Can,
        messages: &[SPEED_AND_MORE],
        ask: Ask::Frame { key: ENGINE },
        bytes: &[0xa0, 0x0f, 0xec, 0x01],
        meaning: "Engine; Speed 4000 1000 rpm; Oil -20 20 °C; Gear 1 1  = First",
    },
    Case {
        kind: Kind::Can,
        messages: &[SPEED_AND_MORE],
        ask: Ask::Frame { key: ENGINE },
        bytes: &[0xa0, 0x0f, 0xec, 0x02],
        meaning: "Engine; Speed 4000 1000 rpm; Oil -20 20 °C; Gear 2 2 ",
    },
    // Two levels of multiplexing: a value that fits under an inactive parent selects nothing.
    Case {
        kind: Kind::Can,
        messages: &[MULTIPLEXED],
        ask: Ask::Frame { key: MUX },
        bytes: &[0x00, 0x02, 0x05],
        meaning: "Mux; Top 0 0 ",
    },
    Case {
        kind: Kind::Can,
        messages: &[MULTIPLEXED],
        ask: Ask::Frame { key: MUX },
        bytes: &[0x01, 0x03, 0x05],
        meaning: "Mux; Top 1 1 ; Mid 3 3 ; Low 5 5 ",
    },
    Case {
        kind: Kind::Can,
        messages: &[MULTIPLEXED],
        ask: Ask::Frame { key: MUX },
        bytes: &[0x01, 0x04, 0x05],
        meaning: "Mux; Top 1 1 ; Mid 4 4 ",
    },
    // A selector past the bytes selects nothing.
    Case {
        kind: Kind::Can,
        messages: &[MULTIPLEXED],
        ask: Ask::Frame { key: MUX },
        bytes: &[0x01],
        meaning: "Mux; Top 1 1 ",
    },
    // No message of this identifier, also where the number alone is the same.
    Case {
        kind: Kind::Can,
        messages: &[SPEED_AND_MORE],
        ask: Ask::Frame { key: MUX },
        bytes: &[0x01, 0x02],
        meaning: "no match",
    },
    Case {
        kind: Kind::Can,
        messages: &[SPEED_AND_MORE],
        ask: Ask::Frame {
            key: Key {
                extended: true,
                id: 0x100,
            },
        },
        bytes: &[0xa0, 0x0f, 0xec, 0x01],
        meaning: "no match",
    },
    // On a J1939 bus the source address does not matter where no identifier matches.
    Case {
        kind: Kind::J1939,
        messages: &[BY_GROUP],
        ask: Ask::Frame { key: EEC1_OTHER },
        bytes: &[0xff, 0xff, 0xff, 0x68, 0x13, 0xff, 0xff, 0xff],
        meaning: "EEC1; EngSpeed 4968 621 rpm",
    },
    Case {
        kind: Kind::J1939,
        messages: &[BY_GROUP, BY_GROUP_TOO],
        ask: Ask::Frame { key: EEC1_OTHER },
        bytes: &[0x01],
        meaning: "EEC1_B; S 1 1 ",
    },
    Case {
        kind: Kind::J1939,
        messages: &[BY_GROUP, BY_GROUP_TOO],
        ask: Ask::Group { pgn: 61_444 },
        bytes: &[0xff, 0xff, 0xff, 0x68, 0x13, 0xff, 0xff, 0xff],
        meaning: "EEC1; EngSpeed 4968 621 rpm",
    },
    Case {
        kind: Kind::J1939,
        messages: &[BY_GROUP],
        ask: Ask::Group { pgn: 61_440 },
        bytes: &[0xff, 0xff, 0xff, 0x68, 0x13, 0xff, 0xff, 0xff],
        meaning: "no match",
    },
    Case {
        kind: Kind::J1939,
        messages: &[BY_GROUP],
        ask: Ask::Frame { key: SHORT_EEC1 },
        bytes: &[0xff, 0xff, 0xff, 0x68, 0x13, 0xff, 0xff, 0xff],
        meaning: "no match",
    },
    // Elsewhere groups match nothing.
    Case {
        kind: Kind::Can,
        messages: &[BY_GROUP],
        ask: Ask::Frame { key: EEC1_OTHER },
        bytes: &[0xff, 0xff, 0xff, 0x68, 0x13, 0xff, 0xff, 0xff],
        meaning: "no match",
    },
    Case {
        kind: Kind::Can,
        messages: &[BY_GROUP],
        ask: Ask::Group { pgn: 61_444 },
        bytes: &[0xff, 0xff, 0xff, 0x68, 0x13, 0xff, 0xff, 0xff],
        meaning: "no match",
    },
    // The first entry of an encoding that covers the raw value applies; where none does, it stands for itself.
    Case {
        kind: Kind::Lin,
        messages: &[LIN_STATUS],
        ask: Ask::Frame { key: ENGINE },
        bytes: &[0xff, 0x00],
        meaning: "Status; Temp 255 255  = invalid; Gapped 0 0 ",
    },
    Case {
        kind: Kind::Lin,
        messages: &[LIN_STATUS],
        ask: Ask::Frame { key: ENGINE },
        bytes: &[0x64, 0x03],
        meaning: "Status; Temp 100 10 degC; Gapped 3 6 V",
    },
    Case {
        kind: Kind::Lin,
        messages: &[LIN_STATUS],
        ask: Ask::Frame { key: ENGINE },
        bytes: &[0x64, 0x01],
        meaning: "Status; Temp 100 10 degC; Gapped 1 1 ",
    },
    Case {
        kind: Kind::Lin,
        messages: &[MessageRow {
            signals: &[DIGITS],
            ..ENGINE_RPM
        }],
        ask: Ask::Frame { key: ENGINE },
        bytes: &[0x42],
        meaning: "Engine; Digits 66 66 ",
    },
];
