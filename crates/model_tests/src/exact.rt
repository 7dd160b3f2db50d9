//! What no clause shows: that calls succeed with ample memory, and values worked out by another exact tool.
ghost use Rattle.exact_scale.specs.Limits.{IsRawValue};

use exact_scale::{Decimal, DecimalFault, Exact, GREATEST_RAW, LEAST_RAW_SIZE, Scale, Wide};
use std::process::Abort;
use std::test::Fail;

/// A text, and the numerator and the places of the decimal that it denotes.
const DECIMALS: &[(&str, i128, u32)] = &[
    ("0", 0, 0),
    ("7", 7, 0),
    ("42", 42, 0),
    ("007", 7, 0),
    ("+5", 5, 0),
    ("-5", -5, 0),
    ("-0", 0, 0),
    ("+0", 0, 0),
    ("0.5", 5, 1),
    (".5", 5, 1),
    ("5.", 5, 0),
    ("-.5", -5, 1),
    ("-0.5", -5, 1),
    ("+.5", 5, 1),
    ("1.50", 15, 1),
    ("1.0", 1, 0),
    ("0.25", 25, 2),
    ("0.125", 125, 3),
    ("00.00500", 5, 3),
    ("1e3", 1000, 0),
    ("1E3", 1000, 0),
    ("1e+3", 1000, 0),
    ("1e-3", 1, 3),
    ("1E-005", 1, 5),
    ("-40", -40, 0),
    ("12.5e1", 125, 0),
    ("12.5e-1", 125, 2),
    ("1200e-2", 12, 0),
    ("1250e-2", 125, 1),
    ("1.e5", 100000, 0),
    (".5e1", 5, 0),
    ("-1.e-1", -1, 1),
    ("123456789012345678e-18", 123456789012345678, 18),
    ("4611686018427387903", 4611686018427387903, 0),
    ("-4611686018427387903", -4611686018427387903, 0),
    ("4611686018427387903e-30", 4611686018427387903, 30),
    ("46116860184273879030e-1", 4611686018427387903, 0),
    ("0e99999999999", 0, 0),
    ("0e-99999999999", 0, 0),
    ("-0.000e5", 0, 0),
    ("1e18", 1000000000000000000, 0),
    ("4e18", 4000000000000000000, 0),
    ("100000000000000000000e-20", 1, 0),
    ("1e-30", 1, 30),
    ("100e-32", 1, 30),
    ("10e-31", 1, 30),
    ("0.000000000000000000000000000001", 1, 30),
    ("1e0000000000000000000000000000000000000003", 1000, 0),
    ("1e-0000000000000000000000000000000000000005", 1, 5),
    ("0.0", 0, 0),
    (".0", 0, 0),
    ("0.", 0, 0),
    ("0.000000000000000000000000000000000000000000", 0, 0),
    ("1000000000000000000", 1000000000000000000, 0),
    ("0.1e1", 1, 0),
    (
        "0.00000000000000000000000000000000000000000000000000000012e54",
        12,
        2,
    ),
    (
        "4000000000000000000000000000000000000000000000000000000e-36",
        4000000000000000000,
        0,
    ),
    ("9999999999999999.99", 999999999999999999, 2),
    ("-1.25E+2", -125, 0),
    ("8031.875", 8031875, 3),
    ("0.03125", 3125, 5),
    ("1e00", 1, 0),
    ("16777216", 16777216, 0),
];

/// Each text denotes this decimal.
fn reads(rt: &impl Abort, rows: &[(&str, i128, u32)]) {
    for (text, num, k) in rows {
        let decimal = Decimal { num: *num, k: *k };
        assert_eq!(rt; Decimal::read(text.as_bytes()), Ok(decimal), "{text}");
    }
}

#[test]
fn reads_what_a_text_denotes(rt: HostRuntime) {
    reads(&rt, DECIMALS);
}

/// Texts of decimals past the limits.
const TOO_WIDE: &[&str] = &[
    "4611686018427387904",
    "-4611686018427387904",
    "4611686018427387904e-30",
    "1e19",
    "5e18",
    "1e-31",
    "-1e-31",
    "1e99999999999999999999",
    "1e-99999999999999999999",
    "0.0000000000000000000000000000001",
    "3.14159265358979323846",
    "18446744073709551616",
    "36893488147419103233",
    "340282366920938463463374607431768211456",
    "1e18446744073709551617",
    "1e36893488147419103235",
    "1e-36893488147419103235",
    "1e340282366920938463463374607431768211459",
    "-1e-340282366920938463463374607431768211459",
    "1.5e-30",
    "46116860184273879.04e2",
];

/// Texts that are no decimals.
const OTHER_FORMS: &[&str] = &[
    "", "+", "-", ".", "+.", "e5", ".e5", "-.e1", "1e", "1E+", "1e-", "1e5.0", "1.2.3", "..1",
    "1..", "+-1", "--1", "1-", "1+1", " 1", "1 ", "1_000", "0x10", "1e5e5", "1f", "1,5", "inf",
    "NaN", "e", "1e 5", "+e1", "1.e", "1e+-1", "0x", "e1e", "1e1-",
];

/// Each text is refused for this fault.
fn refuses(rt: &impl Abort, texts: &[&str], fault: DecimalFault) {
    for text in texts {
        assert_eq!(rt; Decimal::read(text.as_bytes()), Err(fault), "{text}");
    }
}

#[test]
fn refuses_what_is_no_decimal_or_too_wide(rt: HostRuntime) {
    refuses(&rt, TOO_WIDE, DecimalFault::Wide);
    refuses(&rt, OTHER_FORMS, DecimalFault::Form);
}

/// A numerator, its places and the shortest text.
const TEXTS: &[(i128, u32, &str)] = &[
    (0, 0, "0"),
    (0, 5, "0"),
    (0, 4000, "0"),
    (1, 0, "1"),
    (-1, 0, "-1"),
    (5, 1, "0.5"),
    (-5, 1, "-0.5"),
    (-5, 3, "-0.005"),
    (10, 1, "1"),
    (100, 2, "1"),
    (1000, 2, "10"),
    (105, 2, "1.05"),
    (-105, 2, "-1.05"),
    (1005, 3, "1.005"),
    (1050, 3, "1.05"),
    (12345, 0, "12345"),
    (-3987655, 5, "-39.87655"),
    (10000, 1, "1000"),
    (100000, 2, "1000"),
    (100000, 2, "1000"),
    (621000, 3, "621"),
    (621, 0, "621"),
    (-10, 1, "-1"),
    (-1, 30, "-0.000000000000000000000000000001"),
    (1, 30, "0.000000000000000000000000000001"),
    (1000000000000000000000000000000, 30, "1"),
    (
        1000000000000000000000000000001,
        30,
        "1.000000000000000000000000000001",
    ),
    (
        999999999999999999999999999999,
        30,
        "0.999999999999999999999999999999",
    ),
    (-100000000000000000000000000000000000000, 38, "-1"),
    (100000000000000000000000000000000000000, 39, "0.1"),
    (123, 39, "0.000000000000000000000000000000000000123"),
    (123, 45, "0.000000000000000000000000000000000000000000123"),
    (
        -7,
        60,
        "-0.000000000000000000000000000000000000000000000000000000000007",
    ),
    (
        170141183460469231731687303715884105727,
        0,
        "170141183460469231731687303715884105727",
    ),
    (i128::MIN, 0, "-170141183460469231731687303715884105728"),
    (
        170141183460469231731687303715884105727,
        30,
        "170141183.460469231731687303715884105727",
    ),
    (i128::MIN, 30, "-170141183.460469231731687303715884105728"),
    (
        170141183460469231731687303715884105727,
        39,
        "0.170141183460469231731687303715884105727",
    ),
    (i128::MIN, 38, "-1.70141183460469231731687303715884105728"),
    (
        85070591730234615842785221765805113345,
        0,
        "85070591730234615842785221765805113345",
    ),
    (84052, 3, "84.052"),
    (20, 1, "2"),
    (4611686018427387903, 30, "0.000000000004611686018427387903"),
    (99, 2, "0.99"),
    (101, 2, "1.01"),
    (90000000000000000000000000000000000000, 37, "9"),
    (3, 40, "0.0000000000000000000000000000000000000003"),
    (7000000000000000000000000000000, 31, "0.7"),
    (-250, 2, "-2.5"),
];

/// Each fraction is appended as this text.
fn writes(rt: &(impl Abort + AllocGlobal), rows: &[(i128, u32, &str)]) -> Result<(), Fail> {
    for (num, k, text) in rows {
        let mut out = Vec::from_slice(rt.alloc(), b"= ")?;
        Exact { num: *num, k: *k }.append(&mut out)?;
        assert!(rt;
            out.strip_prefix(b"= ") == Some(text.as_bytes()),
            "{num} over 10^{k}"
        );
    }
    Ok(())
}

#[test]
fn writes_the_shortest_text(rt: HostRuntime) -> Result<(), Fail> {
    writes(&rt, TEXTS)
}

/// Scales a raw value and compares the text.
fn assert_scaled(
    rt: &(impl Abort + AllocGlobal),
    factor: &str,
    offset: &str,
    raw: i128,
    want: &str,
) -> Result<(), Fail>
    requires { IsRawValue raw }
{
    let scale = Scale::new(
        Decimal::read(factor.as_bytes())?,
        Decimal::read(offset.as_bytes())?,
    )?;
    let mut out = Vec::new(rt.alloc());
    scale.apply(raw).append(&mut out)?;
    assert_eq!(rt;
        out.as_slice(),
        want.as_bytes(),
        "{raw} * {factor} + {offset}"
    );
    Ok(())
}

/// A factor, an offset, a raw value and the text of the outcome.
const SCALED: [(&str, &str, i128, &str); 6] = [
    (
        "4611686018427387903",
        "0",
        18446744073709551615,
        "85070591730234615842785221765805113345",
    ),
    ("1E-005", "-40", 12345, "-39.87655"),
    ("0.25", "0", 4000, "1000"),
    ("0.125", "0", 4968, "621"),
    ("-1", "0.5", -9223372036854775808, "9223372036854775808.5"),
    ("1", "0", -2, "-2"),
];

/// Each raw value is within the limits, and comes out as this text.
fn scales(rt: &(impl Abort + AllocGlobal), rows: &[(&str, &str, i128, &str)]) -> Result<(), Fail> {
    for (factor, offset, raw, want) in rows {
        let least = -i128::from(LEAST_RAW_SIZE);
        assert!(rt; least <= *raw && *raw <= i128::from(GREATEST_RAW));
        assert_scaled(rt, factor, offset, *raw, want)?;
    }
    Ok(())
}

#[test]
fn scales_raw_values(rt: HostRuntime) -> Result<(), Fail> {
    scales(&rt, &SCALED)
}

#[test]
fn refuses_scales_too_wide_over_one_power(rt: HostRuntime) -> Result<(), Fail> {
    let least = Decimal::read(b"1e-30")?;
    assert_eq!(rt; Scale::new(least, Decimal::read(b"5")?), Err(Wide));
    assert_eq!(rt; Scale::new(Decimal::read(b"5")?, least), Err(Wide));
    Ok(())
}

#[test]
fn zero_is_over_each_power(rt: HostRuntime) -> Result<(), Fail> {
    let zero = Scale::new(Decimal::read(b"1e-30")?, Decimal::read(b"0")?)?;
    let least = Scale {
        factor: 1,
        offset: 0,
        k: 30,
    };
    assert_eq!(rt; zero, least);
    Ok(())
}

/// A text is read so.
fn judges(rt: &impl Abort, text: &[u8], answer: Result<Decimal, DecimalFault>) {
    assert_eq!(rt; Decimal::read(text), answer);
}

#[test]
fn judges_a_million_digits(rt: HostRuntime) -> Result<(), Fail> {
    let mut zeros = vec![in rt.alloc(); b'0'; 1_000_000]?;
    let nines = vec![in rt.alloc(); b'9'; 1_000_000]?;
    judges(&rt, &nines, Err(DecimalFault::Wide));
    judges(&rt, &zeros, Ok(Decimal { num: 0, k: 0 }));
    zeros.push(b'7')?;
    judges(&rt, &zeros, Ok(Decimal { num: 7, k: 0 }));
    zeros.extend_from_slice(b".5e-")?;
    zeros.extend_from_slice(&nines)?;
    judges(&rt, &zeros, Err(DecimalFault::Wide));
    zeros.push(b'x')?;
    judges(&rt, &zeros, Err(DecimalFault::Form));
    Ok(())
}
