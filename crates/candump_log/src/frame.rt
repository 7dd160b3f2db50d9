//! The frame of a line: its identifier, and what is behind the `#`.
ghost use Rattle.std.specs.Prelude.{◌≡◌, ◌≤◌, Some, true};
ghost use Rattle.byte_forms.specs.Pieces.{value_view};
ghost use Rattle.candump_log.specs.LineOf.{key_of, key_prefix, after_dot, next_byte, bytes_prefix};
ghost use Rattle.candump_log.specs.LineOf.{after_length, after_code, fd_prefix, classic_prefix, body_prefix};
ghost use Rattle.candump_log.specs.LineView.{pair_view};

use crate::digits::hexadecimal_byte;
use crate::payload::{CLASSIC_LIMIT, DATA_LIMIT, Payload};
use bench_model::Key;
use byte_forms::{Class, Radix, field_before, number_up_to};

/// The greatest identifier of 3 digits.
const STANDARD_LIMIT: u64 = 0x7ff;
/// The greatest identifier of 8 digits.
const EXTENDED_LIMIT: u64 = 0x3fff_ffff;

/// The identifier of these digits; that of an error frame has bit 29.
#[tactic(auto, unfolding(crate::specs::LineOf::key_of))]
#[inline(always)]
fn key_of(digits: &[u8]) -> Option<Key>
    ensures { result ≡ key_of digits.now }
{
    match digits.len() {
        3 => {
            let id = number_up_to(Radix::Hexadecimal, STANDARD_LIMIT, digits)?;
            Some(Key {
                extended: false,
                id: id as u32,
            })
        }
        8 => {
            let id = number_up_to(Radix::Hexadecimal, EXTENDED_LIMIT, digits)?;
            Some(Key {
                extended: true,
                id: id as u32,
            })
        }
        _ => None,
    }
}

/// The identifier before the `#`, and the text after that.
#[tactic(auto, unfolding(crate::specs::LineOf::key_prefix))]
#[inline(always)]
pub(crate) fn key_prefix(bytes: &[u8]) -> Option<(Key, &[u8])>
    ensures { value_view result ≡ key_prefix bytes.now }
{
    let (digits, rest) = field_before(Class::HexadecimalDigit, b"#", bytes)?;
    let key = key_of(digits)?;
    Some((key, rest))
}

/// The text after a dot, where one is here.
#[inline(always)]
fn after_dot(bytes: &[u8]) -> &[u8]
    ensures { result.now ≡ after_dot bytes.now }
{
    match bytes {
        [b'.', rest @ ..] => rest,
        _ => bytes,
    }
}

/// The byte at the front, before which a dot may be where it is not the first, and the text after it.
#[tactic(auto, unfolding(crate::specs::LineOf::next_byte))]
#[inline(always)]
fn next_byte(first: bool, bytes: &[u8]) -> Option<(u8, &[u8])>
    ensures { value_view result ≡ next_byte first bytes.now }
{
    if first {
        hexadecimal_byte(bytes)
    } else {
        hexadecimal_byte(after_dot(bytes))
    }
}

/// The bytes at the front, `limit` of them at most, and the text after them.
#[inline(always)]
fn bytes_prefix(limit: usize, bytes: &[u8]) -> (Payload, &[u8])
    requires { limit ≤ 64 }
    ensures { pair_view result ≡ bytes_prefix limit true bytes.now }
{
    let mut payload = Payload::new();
    let mut rest = bytes;
    for i in 0..limit {
        let Some((byte, after)) = next_byte(i == 0, rest) else {
            return (payload, rest);
        };
        payload.push(byte);
        rest = after;
    }
    (payload, rest)
}

/// The text after a length digit, where one is here.
#[inline(always)]
fn after_length(bytes: &[u8]) -> &[u8]
    ensures { result.now ≡ after_length bytes.now }
{
    match bytes {
        [b'0'..=b'8', rest @ ..] => rest,
        _ => bytes,
    }
}

/// The text after a length code, where one is here.
#[inline(always)]
fn after_code(bytes: &[u8]) -> &[u8]
    ensures { result.now ≡ after_code bytes.now }
{
    match bytes {
        [b'_', digit, rest @ ..] if digit.is_ascii_hexdigit() => rest,
        _ => bytes,
    }
}

/// The data of a CAN FD frame behind its second `#`, and the text after it.
#[inline(always)]
fn fd_prefix(bytes: &[u8]) -> Option<(Option<Payload>, &[u8])>
    ensures { value_view result ≡ fd_prefix bytes.now }
{
    let [flags, digits @ ..] = bytes else {
        return None;
    };
    if !flags.is_ascii_hexdigit() {
        return None;
    }
    let (payload, rest) = bytes_prefix(DATA_LIMIT, digits);
    Some((Some(payload), rest))
}

/// The data of a classic frame, and the text after it.
#[inline(always)]
fn classic_prefix(bytes: &[u8]) -> Option<(Option<Payload>, &[u8])>
    ensures { value_view result ≡ classic_prefix bytes.now }
{
    let (payload, rest) = bytes_prefix(CLASSIC_LIMIT, bytes);
    Some((Some(payload), after_code(rest)))
}

/// The data behind the first `#`, none of a remote frame, and the text after it.
#[tactic(auto, unfolding(crate::specs::LineOf::body_prefix))]
#[inline(always)]
pub(crate) fn body_prefix(bytes: &[u8]) -> Option<(Option<Payload>, &[u8])>
    ensures { value_view result ≡ body_prefix bytes.now }
{
    match bytes {
        [b'#', rest @ ..] => fd_prefix(rest),
        [b'R' | b'r', rest @ ..] => Some((None, after_code(after_length(rest)))),
        _ => classic_prefix(bytes),
    }
}
