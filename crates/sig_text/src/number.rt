//! The length of the number at the front of a text. Each function answers 0 where the front is not what it reads.
ghost use Rattle.std.specs.Prelude.{◌≡◌, ◌≤◌, length};
ghost use Rattle.std.specs.List.{prefix_len};
ghost use Rattle.std.specs.Char.{is_ascii_digit, is_ascii_hexdigit};
ghost use Rattle.sig_text.specs.Prefixes.{IsLongestPrefix};
ghost use Rattle.sig_text.specs.Lexemes.{IsHexadecimal, IsFraction, IsPower, IsExponent, IsMantissa, IsDecimal, IsNumber};

/// The run of decimal digits.
fn digits_len(text: &[u8]) -> usize
    ensures run { result ≡ prefix_len is_ascii_digit text.now }
    ensures within { result ≤ length text.now }
{
    text.iter().take_while(|b| b.is_ascii_digit()).count()
}

/// The run of hexadecimal digits.
fn hexadecimal_digits_len(text: &[u8]) -> usize
    ensures run { result ≡ prefix_len is_ascii_hexdigit text.now }
    ensures within { result ≤ length text.now }
{
    text.iter().take_while(|b| b.is_ascii_hexdigit()).count()
}

/// `0x` or `0X` and hexadecimal digits.
fn hexadecimal_len(text: &[u8]) -> usize
    ensures { IsLongestPrefix IsHexadecimal text.now result }
{
    match text {
        [b'0', b'x' | b'X', digits @ ..] => match hexadecimal_digits_len(digits) {
            0 => 0,
            len => 2 + len,
        },
        _ => 0,
    }
}

/// A point and digits, possibly none.
fn fraction_len(text: &[u8]) -> usize
    ensures { IsLongestPrefix IsFraction text.now result }
{
    match text {
        [b'.', digits @ ..] => 1 + digits_len(digits),
        _ => 0,
    }
}

/// An optional `+` or `-`, and digits.
fn power_len(text: &[u8]) -> usize
    ensures { IsLongestPrefix IsPower text.now result }
{
    match text {
        [b'+' | b'-', digits @ ..] => match digits_len(digits) {
            0 => 0,
            len => 1 + len,
        },
        _ => digits_len(text),
    }
}

/// `e` or `E`, and the power of ten.
fn exponent_len(text: &[u8]) -> usize
    ensures { IsLongestPrefix IsExponent text.now result }
{
    match text {
        [b'e' | b'E', power @ ..] => match power_len(power) {
            0 => 0,
            len => 1 + len,
        },
        _ => 0,
    }
}

/// Digits, optionally a point and digits, possibly none; or a point and digits.
fn mantissa_len(text: &[u8]) -> usize
    ensures { IsLongestPrefix IsMantissa text.now result }
{
    let whole = digits_len(text);
    let fraction = fraction_len(&text[whole..]);
    // A point alone is no number.
    if whole == 0 && fraction < 2 {
        0
    } else {
        whole + fraction
    }
}

/// A mantissa, and an exponent where a whole one follows.
fn decimal_len(text: &[u8]) -> usize
    ensures { IsLongestPrefix IsDecimal text.now result }
{
    match mantissa_len(text) {
        0 => 0,
        mantissa => mantissa + exponent_len(&text[mantissa..]),
    }
}

/// A hexadecimal or a decimal number, whichever is longer: `0x1F` also begins with the decimal `0`.
pub(crate) fn number_len(text: &[u8]) -> usize
    ensures { IsLongestPrefix IsNumber text.now result }
{
    hexadecimal_len(text).max(decimal_len(text))
}
