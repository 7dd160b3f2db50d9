//! Frames of one bus and what they mean.

use super::*;

const EMPTY: File<'static> = ("a.log", b"");

const LOG_1234: File<'static> = ("a.log", b"(0000000001.000000) can0 100#1234\n");

const LOG_0FFE: File<'static> = ("a.log", b"(0000000001.000000) can0 100#0FFE\n");

const LOG_ONES: File<'static> = ("a.log", b"(0000000001.000000) can0 100#FFFFFFFFFFFFFFFF\n");

const LOG_THREE: File<'static> = ("a.log", b"(0000000001.000000) can0 100#010203\n");

/// A database of one message and one signal.
const BIG_ENDIAN: File<'static> = (
    "a.dbc",
    b"VERSION \"\"\nBO_ 256 Engine: 8 ECU\n SG_ X : 7|16@0+ (1,0) [0|0] \"\" Vector__XXX\n",
);

const SIGNED: File<'static> = (
    "a.dbc",
    b"VERSION \"\"\nBO_ 256 Engine: 8 ECU\n SG_ X : 3|12@0- (1,0) [0|0] \"\" Vector__XXX\n",
);

const WIDE_SIGNED: File<'static> = (
    "a.dbc",
    b"VERSION \"\"\nBO_ 256 Engine: 8 ECU\n SG_ X : 0|64@1- (1,0) [0|0] \"\" Vector__XXX\n",
);

const WIDE: File<'static> = (
    "a.dbc",
    b"VERSION \"\"\nBO_ 256 Engine: 8 ECU\n SG_ X : 0|64@1+ (4611686018427387903,0) [0|0] \"\" Vector__XXX\n",
);

const SMALL_STEPS: File<'static> = (
    "a.dbc",
    b"VERSION \"\"\nBO_ 256 Engine: 8 ECU\n SG_ X : 0|16@1+ (1E-005,-40) [0|0] \"\" Vector__XXX\n",
);

const PAST_THE_BYTES: File<'static> = (
    "a.dbc",
    b"VERSION \"\"\n\
      BO_ 256 Engine: 8 ECU\n\
      \x20SG_ A : 0|8@1+ (1,0) [0|0] \"\" Vector__XXX\n\
      \x20SG_ B : 16|16@1+ (1,0) [0|0] \"\" Vector__XXX\n\
      \x20SG_ C : 15|16@0+ (1,0) [0|0] \"\" Vector__XXX\n\
      \x20SG_ D : 23|16@0+ (1,0) [0|0] \"\" Vector__XXX\n",
);

const ORDERS: &[Decoded] = &[
    (&[CAN, SPEED, FRAME], SPEED_TEXT),
    (&[CAN, SPEED, EMPTY], b"end A 0\n"),
    (
        &[CAN, BIG_ENDIAN, LOG_1234],
        b"start A 0\nm A 0 0 1000000 Engine\ns X 4660 4660 \"\"\nend A 1\n",
    ),
    (
        &[CAN, SIGNED, LOG_0FFE],
        b"start A 0\nm A 0 0 1000000 Engine\ns X -2 -2 \"\"\nend A 1\n",
    ),
    (
        &[CAN, WIDE_SIGNED, LOG_ONES],
        b"start A 0\nm A 0 0 1000000 Engine\ns X -1 -1 \"\"\nend A 1\n",
    ),
    (
        &[CAN, WIDE, LOG_ONES],
        b"start A 0\n\
          m A 0 0 1000000 Engine\n\
          s X 18446744073709551615 85070591730234615842785221765805113345 \"\"\n\
          end A 1\n",
    ),
    (
        &[
            CAN,
            SMALL_STEPS,
            ("a.log", b"(0000000001.000000) can0 100#3930\n"),
        ],
        b"start A 0\nm A 0 0 1000000 Engine\ns X 12345 -39.87655 \"\"\nend A 1\n",
    ),
    (
        &[CAN, PAST_THE_BYTES, LOG_THREE],
        b"start A 0\nm A 0 0 1000000 Engine\ns A 1 1 \"\"\ns C 515 515 \"\"\nend A 1\n",
    ),
];

#[test]
fn raw_values_of_both_orders_are_scaled(rt: HostRuntime) -> Result<(), Fail> {
    each_decodes(&rt, rt.alloc(), ORDERS)?;
    Ok(())
}

/// Bench files with numbers of a server.
const NUMBERS: &[Decoded] = &[
    (
        &[
            ("bench.txt", b"bus A can a.log a.dbc\nwords 31\n"),
            SPEED,
            FRAME,
        ],
        SPEED_TEXT,
    ),
    (
        &[
            ("bench.txt", b"bus A can a.log\nversions 0\nwords 65\n"),
            FRAME,
        ],
        b"start A 0\nu A 0 0 1000000 100#A00F000000000000\nend A 1\n",
    ),
];

#[test]
fn numbers_of_a_server_have_no_effect(rt: HostRuntime) -> Result<(), Fail> {
    each_decodes(&rt, rt.alloc(), NUMBERS)?;
    Ok(())
}

/// Two multiplexors, one under the other.
const MUX: File<'static> = (
    "a.dbc",
    b"VERSION \"\"\n\
      BO_ 512 Mux: 8 ECU\n\
      \x20SG_ Top M : 0|8@1+ (1,0) [0|0] \"\" Vector__XXX\n\
      \x20SG_ Mid m1M : 8|8@1+ (1,0) [0|0] \"\" Vector__XXX\n\
      \x20SG_ Low m2 : 16|8@1+ (1,0) [0|0] \"\" Vector__XXX\n\
      SG_MUL_VAL_ 512 Mid Top 1-1;\n\
      SG_MUL_VAL_ 512 Low Mid 2-3;\n",
);

const MULTIPLEXED: &[Decoded] = &[
    (
        &[
            CAN,
            MUX,
            ("a.log", b"(0000000001.000000) can0 200#000205\n"),
        ],
        b"start A 0\nm A 0 0 1000000 Mux\ns Top 0 0 \"\"\nend A 1\n",
    ),
    (
        &[
            CAN,
            MUX,
            ("a.log", b"(0000000001.000000) can0 200#010305\n"),
        ],
        b"start A 0\nm A 0 0 1000000 Mux\ns Top 1 1 \"\"\ns Mid 3 3 \"\"\ns Low 5 5 \"\"\nend A 1\n",
    ),
];

#[test]
fn a_signal_is_active_where_its_parents_are(rt: HostRuntime) -> Result<(), Fail> {
    each_decodes(&rt, rt.alloc(), MULTIPLEXED)?;
    Ok(())
}

/// A bus without a database.
const BARE: File<'static> = ("bench.txt", b"bus A can a.log\n");

/// A frame of CAN FD, a remote frame, an error frame, and 600 bytes that are no line of a log.
const KINDS: File<'static> = (
    "a.log",
    b"(1.000000) can0 123##1AABB\n(1.000001) can0 123#R\n(1.000002) can0 20000004#0000000000000000\n\
aaaaaaaaaaaaaaaaaaaaaaaaaaaaaaaaaaaaaaaaaaaaaaaaaaaaaaaaaaaaaaaaaaaaaaaaaaaaaaaaaaaaaaaaaaaaaaaaaaaa\
aaaaaaaaaaaaaaaaaaaaaaaaaaaaaaaaaaaaaaaaaaaaaaaaaaaaaaaaaaaaaaaaaaaaaaaaaaaaaaaaaaaaaaaaaaaaaaaaaaaa\
aaaaaaaaaaaaaaaaaaaaaaaaaaaaaaaaaaaaaaaaaaaaaaaaaaaaaaaaaaaaaaaaaaaaaaaaaaaaaaaaaaaaaaaaaaaaaaaaaaaa\
aaaaaaaaaaaaaaaaaaaaaaaaaaaaaaaaaaaaaaaaaaaaaaaaaaaaaaaaaaaaaaaaaaaaaaaaaaaaaaaaaaaaaaaaaaaaaaaaaaaa\
aaaaaaaaaaaaaaaaaaaaaaaaaaaaaaaaaaaaaaaaaaaaaaaaaaaaaaaaaaaaaaaaaaaaaaaaaaaaaaaaaaaaaaaaaaaaaaaaaaaa\
aaaaaaaaaaaaaaaaaaaaaaaaaaaaaaaaaaaaaaaaaaaaaaaaaaaaaaaaaaaaaaaaaaaaaaaaaaaaaaaaaaaaaaaaaaaaaaaaaaaa\n",
);

#[test]
fn lines_of_each_kind_are_records(rt: HostRuntime) -> Result<(), Fail> {
    let row: Decoded = (
        &[BARE, KINDS],
        b"start A 0\n\
          u A 0 0 1000000 123#AABB\n\
          r A 1 0 1000001 123\n\
          e A 2 0 1000002 20000004\n\
          x A 3 0\n\
          end A 4\n",
    );
    each_decodes(&rt, rt.alloc(), &[row])?;
    Ok(())
}
