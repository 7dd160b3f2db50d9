//! Frames of every kind of coding and of bus, in each way of asking.

use super::Case;
use crate::messages::*;
use bench_model::{Ask, Key, Kind};

pub const KINDS: &[Case] = &[
    // Buses without a database.
    Case {
        kind: Kind::Can,
        messages: &[],
        ask: Ask::Frame {
            key: Key {
                extended: false,
                id: 0x123,
            },
        },
        bytes: &[0xaa, 0xbb],
        meaning: "no match",
    },
    Case {
        kind: Kind::J1939,
        messages: &[],
        ask: Ask::Group { pgn: 65_226 },
        bytes: &[0x11, 0x22, 0x33, 0x44, 0x55, 0x66, 0x77, 0x88, 0x99, 0xaa],
        meaning: "no match",
    },
    // Every kind of coding.
    Case {
        kind: Kind::Can,
        messages: &[MULTIPLEXED, WITHIN_BYTES],
        ask: Ask::Frame { key: ENGINE },
        bytes: &[0xe0, 0xff, 0, 0, 0, 0, 0, 0x01, 0x01],
        meaning: "Engine; Twelve -2 -2 ; Nine 144678138029277695 144678138029277695 ; Big 16212677183557074945 16212677183557074945 ",
    },
    Case {
        kind: Kind::Can,
        messages: &[TEXTS],
        ask: Ask::Frame { key: ENGINE },
        bytes: &[0xff],
        meaning: "Engine; Gear -1 -1  = none; Unsigned 255 255 ",
    },
    Case {
        kind: Kind::Can,
        messages: &[TEXTS],
        ask: Ask::Frame { key: ENGINE },
        bytes: &[0x01],
        meaning: "Engine; Gear 1 1  = First; Unsigned 1 1 ",
    },
    Case {
        kind: Kind::Can,
        messages: &[TEXTS],
        ask: Ask::Frame { key: ENGINE },
        bytes: &[0x02],
        meaning: "Engine; Gear 2 2  = ; Unsigned 2 2 ",
    },
    Case {
        kind: Kind::Lin,
        messages: &[ENCODINGS],
        ask: Ask::Frame { key: ENGINE },
        bytes: &[0xff, 0x00, 0xff],
        meaning: "Status; Temp 255 255  = invalid; Gapped 0 0 ; Signed -1 -1 ",
    },
    Case {
        kind: Kind::Lin,
        messages: &[ENCODINGS],
        ask: Ask::Frame { key: ENGINE },
        bytes: &[0x64, 0x03, 0x03],
        meaning: "Status; Temp 100 10 degC; Gapped 3 6 V; Signed 3 6 V",
    },
    Case {
        kind: Kind::Lin,
        messages: &[ENCODINGS],
        ask: Ask::Frame { key: ENGINE },
        bytes: &[0x64, 0x01],
        meaning: "Status; Temp 100 10 degC; Gapped 1 1 ",
    },
    // A selector in the second range, outside both, and past the bytes.
    Case {
        kind: Kind::Lin,
        messages: &[TWO_RANGES],
        ask: Ask::Frame { key: MUX },
        bytes: &[0x07, 0x04],
        meaning: "Ranges; Top 4 4 ; Low 7 7 ",
    },
    Case {
        kind: Kind::Lin,
        messages: &[TWO_RANGES],
        ask: Ask::Frame { key: MUX },
        bytes: &[0x07, 0x03],
        meaning: "Ranges; Top 3 3 ",
    },
    Case {
        kind: Kind::Lin,
        messages: &[TWO_RANGES],
        ask: Ask::Frame { key: MUX },
        bytes: &[0x07],
        meaning: "Ranges",
    },
    // On a J1939 bus the identifier comes before the group, and the group of a request has no address.
    Case {
        kind: Kind::J1939,
        messages: &[GROUP_EA, BY_GROUP, TWO_RANGES, BY_GROUP_TOO],
        ask: Ask::Frame { key: EEC1_OTHER },
        bytes: &[0x01],
        meaning: "EEC1_B; S 1 1 ",
    },
    Case {
        kind: Kind::J1939,
        messages: &[GROUP_EA, BY_GROUP, TWO_RANGES, BY_GROUP_TOO],
        ask: Ask::Group { pgn: 61_444 },
        bytes: &[0x01],
        meaning: "EEC1",
    },
    Case {
        kind: Kind::J1939,
        messages: &[GROUP_EA, BY_GROUP, TWO_RANGES, BY_GROUP_TOO],
        ask: Ask::Frame {
            key: Key {
                extended: true,
                id: 0x0cea_0105,
            },
        },
        bytes: &[0x02],
        meaning: "EA; S 2 2 ",
    },
    Case {
        kind: Kind::J1939,
        messages: &[GROUP_EA, BY_GROUP, TWO_RANGES, BY_GROUP_TOO],
        ask: Ask::Frame { key: MUX },
        bytes: &[0x03, 0x01],
        meaning: "Ranges; Top 1 1 ; Low 3 3 ",
    },
    // Elsewhere an extended frame has its identifier alone, and no group is found.
    Case {
        kind: Kind::Can,
        messages: &[GROUP_EA, BY_GROUP, TWO_RANGES, BY_GROUP_TOO],
        ask: Ask::Frame { key: EEC1_OTHER },
        bytes: &[0x01],
        meaning: "EEC1_B; S 1 1 ",
    },
    Case {
        kind: Kind::Can,
        messages: &[BY_GROUP],
        ask: Ask::Frame { key: EEC1_OTHER },
        bytes: &[0x01],
        meaning: "no match",
    },
    Case {
        kind: Kind::Lin,
        messages: &[BY_GROUP],
        ask: Ask::Group { pgn: 61_444 },
        bytes: &[0x01],
        meaning: "no match",
    },
];
