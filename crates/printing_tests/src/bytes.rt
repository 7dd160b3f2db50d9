//! Lines, numbers, classes of bytes, literals and fields of worked texts.

use byte_forms::{Class, Radix, after_literal, field_before, next_line, number_up_to, run};
use std::process::Abort;

/// The next line is this one, and the rest is given.
fn after_line<'a>(rt: &impl Abort, text: &'a [u8], line: &[u8]) -> &'a [u8] {
    match next_line(text) {
        Some((found, rest)) => {
            assert_eq!(rt; found, line);
            rest
        }
        None => {
            assert!(rt; false, "a line is there");
            text
        }
    }
}

#[test]
fn lines_end_at_line_feeds_and_at_the_end(rt: HostRuntime) {
    let rest = after_line(&rt, b"one\r\n\n two", b"one\r");
    let rest = after_line(&rt, rest, b"");
    let rest = after_line(&rt, rest, b" two");
    assert!(rt; next_line(rest).is_none());
    let rest = after_line(&rt, b"\n", b"");
    assert!(rt; next_line(rest).is_none());
}

/// Digits, the limit of their number, and the number where it is within the limit.
const NUMBERS: [(Radix, u64, &[u8], Option<u64>); 9] = [
    (
        Radix::Decimal,
        256,
        b"0000000000000000000000000000000000000000256",
        Some(256),
    ),
    (
        Radix::Decimal,
        255,
        b"0000000000000000000000000000000000000000256",
        None,
    ),
    (
        Radix::Decimal,
        u64::MAX,
        b"18446744073709551615",
        Some(u64::MAX),
    ),
    (Radix::Decimal, u64::MAX, b"18446744073709551616", None),
    (Radix::Decimal, 9, b"", None),
    (Radix::Decimal, 9, b"1a", None),
    (Radix::Hexadecimal, 0x7ff, b"7fF", Some(2047)),
    (Radix::Hexadecimal, 0x7ff, b"800", None),
    (Radix::Hexadecimal, 0x7ff, b"7g", None),
];

fn denote(rt: &impl Abort, rows: &[(Radix, u64, &[u8], Option<u64>)]) {
    for (radix, limit, text, number) in rows {
        assert_eq!(rt; number_up_to(*radix, *limit, text), *number);
    }
}

#[test]
fn numbers_are_judged_by_their_value(rt: HostRuntime) {
    denote(&rt, &NUMBERS);
}

/// A byte, and whether each class of this list has it: those for words and digits.
const BYTES: [(u8, [bool; 3]); 12] = [
    // word byte, decimal digit, hexadecimal digit
    (0x09, [false, false, false]),
    (b' ', [false, false, false]),
    (b'!', [false, false, false]),
    (b'"', [false, false, false]),
    (b'\\', [false, false, false]),
    (b'_', [true, false, false]),
    (b'0', [true, true, true]),
    (b'f', [true, false, true]),
    (b'G', [true, false, false]),
    (b'~', [false, false, false]),
    (0x7f, [false, false, false]),
    (0xc2, [false, false, false]),
];

/// The classes of this list that have the byte.
fn classes_of(byte: u8) -> [bool; 3] {
    [
        Class::WordByte.has(byte),
        Class::DecimalDigit.has(byte),
        Class::HexadecimalDigit.has(byte),
    ]
}

fn belong(rt: &impl Abort, rows: &[(u8, [bool; 3])]) {
    for (byte, classes) in rows {
        assert!(rt; classes_of(*byte) == *classes);
    }
}

#[test]
fn bytes_belong_to_their_classes(rt: HostRuntime) {
    belong(&rt, &BYTES);
}

#[test]
fn literals_are_taken_from_the_front(rt: HostRuntime) {
    assert!(rt; matches!(after_literal(b"BO_ ", b"BO_ 1"), Some(b"1")));
    assert!(rt; after_literal(b"BO_ ", b"BO_").is_none());
}

#[test]
fn fields_and_runs_are_taken_from_the_front(rt: HostRuntime) {
    assert!(rt;
        matches!(
            field_before(Class::DecimalDigit, b"|", b"12|3"),
            Some((b"12", b"3"))
        )
    );
    assert!(rt; field_before(Class::DecimalDigit, b"|", b"12 |3").is_none());
    assert!(rt; matches!(run(Class::DecimalDigit, b"12a3"), (b"12", b"a3")));
}
