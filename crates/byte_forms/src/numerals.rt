//! Numbers by their digits.

ghost use Rattle.std.specs.Prelude.{◌≡◌, ◌+◌, ◌*◌, ◌<◌, ◌≤◌, Some, None, IfSome, true, nat_le, if◌then◌else◌};
ghost use Rattle.std.specs.Char.{digit_value, is_ascii_hexdigit};
ghost use Rattle.byte_forms.specs.Numerals.{base_of, digit_class, number_up_to};

use crate::Class;

/// In which digits a number is written.
#[derive(Clone, Copy, Debug, PartialEq, Eq)]
pub enum Radix {
    Decimal,
    Hexadecimal,
}

fn base_of(radix: Radix) -> u64
    ensures { result ≡ base_of radix }
{
    match radix {
        Radix::Decimal => 10,
        Radix::Hexadecimal => 16,
    }
}

fn digit_class(radix: Radix) -> Class
    ensures { result ≡ digit_class radix }
{
    match radix {
        Radix::Decimal => Class::DecimalDigit,
        Radix::Hexadecimal => Class::HexadecimalDigit,
    }
}

/// What a digit of either case counts.
fn digit_value(digit: u8) -> u8
    requires { is_ascii_hexdigit digit ≡ true }
    ensures value { result ≡ digit_value digit }
    ensures below { result < 16 }
{
    match digit {
        b'0'..=b'9' => digit - b'0',
        b'A'..=b'F' => digit - b'A' + 10,
        _ => digit - b'a' + 10,
    }
}

/// The number with one digit more, where it is at most the limit.
fn with_digit(base: u64, value: u64, digit: u8, limit: u64) -> Option<u64>
    requires { is_ascii_hexdigit digit ≡ true }
    ensures { result ≡ (if nat_le (value * base + digit_value digit) limit then Some (value * base + digit_value digit) else None) }
{
    let shifted = value.checked_mul(base)?;
    let sum = shifted.checked_add(u64::from(digit_value(digit)))?;
    if sum <= limit { Some(sum) } else { None }
}

/// The number that the text denotes in digits, where it is at most the limit. Zeros at the front count
/// nothing, however many there are.
pub fn number_up_to(radix: Radix, limit: u64, text: &[u8]) -> Option<u64>
    ensures value { result ≡ number_up_to radix limit text.now }
    ensures within { IfSome result (λ n. n ≤ limit) }
{
    if text.is_empty() {
        return None;
    }
    let class = digit_class(radix);
    let mut value = 0;
    for digit in text {
        if !class.has(*digit) {
            return None;
        }
        value = with_digit(base_of(radix), value, *digit, limit)?;
    }
    Some(value)
}
