//! The parts of a decimal text: its sign, the digits before and after the point, and the exponent.
ghost use Rattle.std.specs.Prelude.{◌≡◌, ◌<◌, IfSome, IfNone, length};
ghost use Rattle.exact_scale.specs.Digits.{AllDigits, number};
ghost use Rattle.exact_scale.specs.Parts.{SignSplit, DigitSplit, PointSplit, ExponentRead, NoExponent, SignedRead, NoSigned, HasParts, NoDigitFirst, capped};
ghost use Rattle.exact_scale.specs.Numeral.{IsDecimalText};

/// The exponent of a decimal text is kept up to this bound, above what the digits of any text can make up for.
const EXPONENT_BOUND: u128 = 1 << 100;

/// The parts of a decimal text.
#[derive(Clone, Copy)]
pub(crate) struct Parts<'a> {
    /// Whether a `-` is first.
    pub(crate) negative: bool,
    /// The digits before the point.
    pub(crate) whole: &'a [u8],
    /// The digits after the point.
    pub(crate) fraction: &'a [u8],
    /// The exponent.
    pub(crate) exponent: Exponent,
}

/// By how many places an exponent raises and lowers the value, each up to the bound; one of them is 0.
#[derive(Clone, Copy)]
pub(crate) struct Exponent {
    /// By how many places the value is raised.
    pub(crate) raised: u128,
    /// By how many places the value is lowered.
    pub(crate) lowered: u128,
}

impl<'a> Parts<'a> {
    /// The parts of a text, if it is of the form.
    pub(crate) fn split(text: &'a [u8]) -> Option<Parts<'a>>
        ensures some { IfSome result (λ parts. HasParts text.now parts.negative parts.whole.now
            parts.fraction.now parts.exponent.raised parts.exponent.lowered) }
        ensures none { IfNone result (¬ IsDecimalText text.now) }
    {
        let (negative, unsigned) = split_sign(text);
        let (whole, after) = split_digits(unsigned);
        let (fraction, tail) = split_point(after);
        if whole.is_empty() && fraction.is_empty() {
            return None;
        }
        match read_exponent(tail) {
            None => None,
            Some(exponent) => Some(Parts {
                negative,
                whole,
                fraction,
                exponent,
            }),
        }
    }
}

/// Whether a `-` is first, and what follows an optional sign.
fn split_sign(text: &[u8]) -> (bool, &[u8])
    ensures { SignSplit text.now result.0 result.1.now }
{
    match text {
        [b'-', rest @ ..] => (true, rest),
        [b'+', rest @ ..] => (false, rest),
        _ => (false, text),
    }
}

/// The digits in front, and what follows them.
fn split_digits(text: &[u8]) -> (&[u8], &[u8])
    ensures { DigitSplit text.now result.0.now result.1.now }
{
    for (i, byte) in text.iter().enumerate() {
        if !byte.is_ascii_digit() {
            return text.split_at(i);
        }
    }
    text.split_at(text.len())
}

/// The digits after a point, if one is first, and what follows them.
fn split_point(text: &[u8]) -> (&[u8], &[u8])
    requires { NoDigitFirst text.now }
    ensures { PointSplit text.now result.0.now result.1.now }
{
    match text {
        [b'.', after @ ..] => split_digits(after),
        _ => text.split_at(0),
    }
}

/// The exponent that a text is, where it is one or is empty.
fn read_exponent(text: &[u8]) -> Option<Exponent>
    ensures some { IfSome result (λ e. ExponentRead text.now e.raised e.lowered) }
    ensures none { IfNone result (NoExponent text.now) }
{
    match text {
        [] => Some(Exponent {
            raised: 0,
            lowered: 0,
        }),
        [b'e' | b'E', after @ ..] => read_signed(after),
        _ => None,
    }
}

/// The exponent of what follows the `e`: an optional sign and digits.
fn read_signed(text: &[u8]) -> Option<Exponent>
    ensures some { IfSome result (λ e. SignedRead text.now e.raised e.lowered) }
    ensures none { IfNone result (NoSigned text.now) }
{
    let (negative, unsigned) = split_sign(text);
    let (digits, rest) = split_digits(unsigned);
    if digits.is_empty() || !rest.is_empty() {
        return None;
    }
    let size = cap_number(digits);
    Some(if negative {
        Exponent {
            raised: 0,
            lowered: size,
        }
    } else {
        Exponent {
            raised: size,
            lowered: 0,
        }
    })
}

/// The number that digits denote, up to the bound.
fn cap_number(digits: &[u8]) -> u128
    requires { AllDigits digits.now }
    ensures { result ≡ capped (number digits.now) }
{
    let mut size: u128 = 0;
    for byte in digits {
        size = (size * 10 + u128::from(byte - b'0')).min(EXPONENT_BOUND);
    }
    size
}
