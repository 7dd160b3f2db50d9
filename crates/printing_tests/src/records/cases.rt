//! Worked logs, each with the records of its lines.

use bench_model::Kind;

/// A kind of bus, the lines of the log, each with the version that it is decoded under, and its records in
/// words. Version 0 has no database, version 1 a message of the group FECA with a signal in its last byte.
pub(super) struct Case {
    pub kind: Kind,
    pub lines: &'static [(u32, &'static str)],
    pub records: &'static str,
}

pub(super) const ANNOUNCED: &str = "(1.000000) can0 18ECFF00#200A0002FFCAFE00";

const FIRST: &str = "(1.050000) can0 18EBFF00#0111223344556677";

const SECOND: &str = "(1.100000) can0 18EBFF00#028899AAFFFFFFFF";

const TO_ONE: &str = "(1.000000) can0 18EC0102#100A0002FFCAFE00";

const FIRST_TO_ONE: &str = "(1.100000) can0 18EB0102#0111223344556677";

pub(super) const CASES: &[Case] = &[
    // Every kind of line, each a record of its own.
    Case {
        kind: Kind::Can,
        lines: &[
            (0, "(1.000000) can0 123##1AABB"),
            (0, "(1.000001) can0 123#R"),
            (0, "(1.000002) can0 20000004#0000000000000000"),
            (0, "no line of a log"),
        ],
        records: "0v0 1000000 unmatched AABB; \
                  1v0 1000001 remote; \
                  2v0 1000002 error 536870916; \
                  3v0 0 bad; ",
    },
    // A message to all in two packets, which the last line's version describes or does not.
    Case {
        kind: Kind::J1939,
        lines: &[(0, ANNOUNCED), (0, FIRST), (0, SECOND)],
        records: "0v0 1000000 unmatched 200A0002FFCAFE00; \
                  1v0 1050000 unmatched 0111223344556677; \
                  2v0 1100000 unmatched 028899AAFFFFFFFF; \
                  3v0 1100000 transport 65226 0 255 112233445566778899AA; ",
    },
    Case {
        kind: Kind::J1939,
        lines: &[(0, ANNOUNCED), (0, FIRST), (1, SECOND)],
        records: "0v0 1000000 unmatched 200A0002FFCAFE00; \
                  1v0 1050000 unmatched 0111223344556677; \
                  2v1 1100000 unmatched 028899AAFFFFFFFF; \
                  3v1 1100000 transport 65226 0 255 112233445566778899AA Lamps Last 170; ",
    },
    // A frame of that group is the same message, whatever its source.
    Case {
        kind: Kind::J1939,
        lines: &[
            (1, "(2.000000) can0 0CFECA07##000112233445566778899AABB"),
            (0, "(2.000001) can0 0CFECA07#00"),
        ],
        records: "0v1 2000000 message Lamps Last 153; \
                  1v0 2000001 unmatched 00; ",
    },
    // A packet that comes twice changes nothing but the numbers.
    Case {
        kind: Kind::J1939,
        lines: &[(0, ANNOUNCED), (0, FIRST), (0, FIRST), (0, SECOND)],
        records: "0v0 1000000 unmatched 200A0002FFCAFE00; \
                  1v0 1050000 unmatched 0111223344556677; \
                  2v0 1050000 unmatched 0111223344556677; \
                  3v0 1100000 unmatched 028899AAFFFFFFFF; \
                  4v0 1100000 transport 65226 0 255 112233445566778899AA; ",
    },
    // CAN FD frames of eight bytes are heard, too; other lines between the packets are not.
    Case {
        kind: Kind::J1939,
        lines: &[
            (0, ANNOUNCED),
            (0, "(1.050000) can0 18EBFF00##10111223344556677"),
            (0, "(1.060000) can0 18EBFF00#R"),
            (0, "bad"),
            (0, SECOND),
        ],
        records: "0v0 1000000 unmatched 200A0002FFCAFE00; \
                  1v0 1050000 unmatched 0111223344556677; \
                  2v0 1060000 remote; \
                  3v0 0 bad; \
                  4v0 1100000 unmatched 028899AAFFFFFFFF; \
                  5v0 1100000 transport 65226 0 255 112233445566778899AA; ",
    },
    // What cuts a message: a packet left out, an abort, a new opening, its receiver, and too long a pause.
    Case {
        kind: Kind::J1939,
        lines: &[
            (0, ANNOUNCED),
            (0, "(1.050000) can0 18EBFF00#028899AAFFFFFFFF"),
        ],
        records: "0v0 1000000 unmatched 200A0002FFCAFE00; \
                  1v0 1050000 unmatched 028899AAFFFFFFFF; \
                  2v0 1050000 cut 65226 0 255 Order; ",
    },
    Case {
        kind: Kind::J1939,
        lines: &[
            (0, ANNOUNCED),
            (0, FIRST),
            (0, "(1.080000) can0 18EC00FF#FFFFFFFFFFCAFE00"),
        ],
        records: "0v0 1000000 unmatched 200A0002FFCAFE00; \
                  1v0 1050000 unmatched 0111223344556677; \
                  2v0 1080000 unmatched FFFFFFFFFFCAFE00; \
                  3v0 1080000 cut 65226 0 255 Abort; ",
    },
    Case {
        kind: Kind::J1939,
        lines: &[(0, ANNOUNCED), (0, ANNOUNCED)],
        records: "0v0 1000000 unmatched 200A0002FFCAFE00; \
                  1v0 1000000 unmatched 200A0002FFCAFE00; \
                  2v0 1000000 cut 65226 0 255 Again; ",
    },
    Case {
        kind: Kind::J1939,
        lines: &[
            (0, TO_ONE),
            (0, "(1.100000) can0 18EC0201#13FFFFFFFFCAFE00"),
        ],
        records: "0v0 1000000 unmatched 100A0002FFCAFE00; \
                  1v0 1100000 unmatched 13FFFFFFFFCAFE00; \
                  2v0 1100000 cut 65226 2 1 End; ",
    },
    Case {
        kind: Kind::J1939,
        lines: &[
            (0, TO_ONE),
            (0, FIRST_TO_ONE),
            (0, "(2.350000) can0 18EB0102#028899AAFFFFFFFF"),
        ],
        records: "0v0 1000000 unmatched 100A0002FFCAFE00; \
                  1v0 1100000 unmatched 0111223344556677; \
                  2v0 2350000 unmatched 028899AAFFFFFFFF; \
                  3v0 2350000 transport 65226 2 1 112233445566778899AA; ",
    },
    Case {
        kind: Kind::J1939,
        lines: &[
            (0, TO_ONE),
            (0, FIRST_TO_ONE),
            (0, "(2.350001) can0 18EB0102#028899AAFFFFFFFF"),
        ],
        records: "0v0 1000000 unmatched 100A0002FFCAFE00; \
                  1v0 1100000 unmatched 0111223344556677; \
                  2v0 2350001 unmatched 028899AAFFFFFFFF; \
                  3v0 2350001 cut 65226 2 1 Late; ",
    },
    // Other buses have no transport protocol, and neither have frames with an 11-bit identifier.
    Case {
        kind: Kind::Can,
        lines: &[(0, ANNOUNCED), (0, FIRST), (0, SECOND)],
        records: "0v0 1000000 unmatched 200A0002FFCAFE00; \
                  1v0 1050000 unmatched 0111223344556677; \
                  2v0 1100000 unmatched 028899AAFFFFFFFF; ",
    },
    Case {
        kind: Kind::Lin,
        lines: &[(0, ANNOUNCED), (0, FIRST), (0, SECOND)],
        records: "0v0 1000000 unmatched 200A0002FFCAFE00; \
                  1v0 1050000 unmatched 0111223344556677; \
                  2v0 1100000 unmatched 028899AAFFFFFFFF; ",
    },
    Case {
        kind: Kind::J1939,
        lines: &[(0, ANNOUNCED), (0, "(1.050000) can0 300#0111223344556677")],
        records: "0v0 1000000 unmatched 200A0002FFCAFE00; \
                  1v0 1050000 unmatched 0111223344556677; ",
    },
];
