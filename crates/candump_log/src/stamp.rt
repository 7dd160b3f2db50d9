//! The time stamp of a line.
ghost use Rattle.std.specs.Prelude.{◌≡◌, ◌+◌, ◌*◌, ◌<◌, ◌≤◌, ◌^◌, length, IfSome};
ghost use Rattle.byte_forms.specs.Pieces.{value_view};
ghost use Rattle.candump_log.specs.LineOf.{digits_prefix, number_before, stamp_prefix};

use byte_forms::{
    a_number_is_that_of_its_digits, after_literal, pieces_are_what_a_text_begins_with,
};

/// The decimal digits at the front, where they are not more than `most`: how many, and their number.
#[inline(always)]
fn digits_prefix(most: usize, bytes: &[u8]) -> Option<(usize, u64)>
    requires { most ≤ 12 }
    ensures value { result ≡ digits_prefix most bytes.now }
    ensures within { IfSome result (λ digits. digits.0 ≤ length bytes.now) }
    ensures below { IfSome result (λ digits. digits.1 < 10 ^ 12) }
{
    a_number_is_that_of_its_digits();
    let mut value = 0u64;
    for (i, byte) in bytes.iter().enumerate() {
        if !byte.is_ascii_digit() {
            return Some((i, value));
        }
        if i == most {
            return None;
        }
        value = value * 10 + u64::from(*byte - b'0');
    }
    Some((bytes.len(), value))
}

/// The number of the digits before a literal, and the text after that.
#[tactic(auto, unfolding(crate::specs::LineOf::number_before))]
#[inline(always)]
fn number_before<'a>(
    least: usize,
    most: usize,
    literal: &[u8],
    bytes: &'a [u8],
) -> Option<(u64, &'a [u8])>
    requires { most ≤ 12 }
    ensures value { value_view result ≡ number_before least most literal.now bytes.now }
    ensures within { IfSome result (λ found. length found.1.now ≤ length bytes.now) }
    ensures below { IfSome result (λ found. found.0 < 10 ^ 12) }
{
    pieces_are_what_a_text_begins_with();
    let (count, value) = digits_prefix(most, bytes)?;
    let rest = after_literal(literal, &bytes[count..])?;
    if count < least {
        return None;
    }
    Some((value, rest))
}

/// The stamp at the front in microseconds, and the text after it.
#[tactic(auto, unfolding(crate::specs::LineOf::stamp_prefix))]
#[inline(always)]
pub(crate) fn stamp_prefix(bytes: &[u8]) -> Option<(u64, &[u8])>
    ensures value { value_view result ≡ stamp_prefix bytes.now }
    ensures within { IfSome result (λ found. length found.1.now ≤ length bytes.now) }
{
    pieces_are_what_a_text_begins_with();
    let opened = after_literal(b"(", bytes)?;
    let (seconds, rest) = number_before(1, 12, b".", opened)?;
    let (micros, rest) = number_before(6, 6, b")", rest)?;
    Some((seconds * 1_000_000 + micros, rest))
}
