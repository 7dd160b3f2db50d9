//! The raw value of a signal, bit by bit.

ghost use Rattle.std.specs.Prelude.{[], ◌∷◌, ◌≡◌, ◌+◌, ◌*◌, ◌-◌, ◌≤◌, ◌<◌, ◌^◌, true, false, pos, map, MatchOption, IfSome};
ghost use Rattle.bench_model.specs.Raw.{bit as bit_of, first_place as first_of, next_place as next_of, places_from, places, weight, is_within, number_of, raw_value};
ghost use Rattle.exact_scale.specs.Limits.{IsRawValue};
ghost use Rattle.bench_model.specs.Decodable.{IsDecodableSignal};

use crate::sizes::{LAST_START, MOST_BITS};
use crate::{Order, Signal};

/// Where a signal's most significant bit is.
fn first_place(order: Order, start: u32, size: u32) -> u32
    requires start { start ≤ LAST_START }
    requires some_bits { 1 ≤ size }
    requires size { size ≤ MOST_BITS }
    ensures place { result ≡ first_of order start size }
    ensures bound { result ≤ LAST_START + 63 }
{
    match order {
        Order::Intel => start + size - 1,
        Order::Motorola => start,
    }
}

/// Where the next less significant bit is.
fn next_place(order: Order, place: u32) -> u32
    requires { place + 15 < 2 ^ 32 }
    ensures place { result ≡ next_of order place }
    ensures bound { result ≤ place + 15 }
{
    match order {
        Order::Intel => place.saturating_sub(1),
        Order::Motorola => {
            if place % 8 == 0 {
                place + 15
            } else {
                place - 1
            }
        }
    }
}

/// The bit at a place of the bytes, 0 or 1; none where it lies past them.
fn bit_at(bytes: &[u8], place: u32) -> Option<u64>
    ensures { MatchOption result (is_within bytes.now (place ∷ []) ≡ false)
        (λ b. (is_within bytes.now (place ∷ []) ≡ true) × (b ≡ bit_of bytes.now place) × (b < 2)) }
{
    let byte = *bytes.get((place / 8) as usize)?;
    Some(u64::from((byte >> (place % 8)) & 1))
}

/// The bits of so many places from `first` on, as a number.
fn bits_from(order: Order, first: u32, size: u32, bytes: &[u8]) -> Option<u64>
    requires first { first ≤ LAST_START + 63 }
    requires size { size ≤ MOST_BITS }
    ensures { let bits = places_from order first size in MatchOption result (is_within bytes.now bits ≡ false)
        (λ n. (is_within bytes.now bits ≡ true) × (n ≡ weight (map (bit_of bytes.now) bits)) × (n < 2 ^ size)) }
{
    let mut place = first;
    let mut bits = 0u64;
    for _ in 0..size {
        let Some(bit) = bit_at(bytes, place) else {
            return None;
        };
        bits = bits * 2 + bit;
        place = next_place(order, place);
    }
    Some(bits)
}

/// The number `2^size`.
fn power_of_two(size: u32) -> i128
    requires { size ≤ MOST_BITS }
    ensures { result ≡ pos (2 ^ size) }
{
    1i128 << size
}

/// The number of these bits, the highest of which is `top`.
fn number(signed: bool, size: u32, top: u64, bits: u64) -> i128
    requires some_bits { 1 ≤ size }
    requires size { size ≤ MOST_BITS }
    requires top { top ≡ 1 → 2 ^ (size - 1) ≤ bits }
    ensures value { result ≡ number_of signed size top bits }
    ensures bound { IsRawValue result }
{
    if signed && top == 1 {
        i128::from(bits) - power_of_two(size)
    } else {
        i128::from(bits)
    }
}

/// The raw value of a signal in these bytes; none where one of its bits lies past them.
pub(crate) fn raw_of(signal: &Signal, bytes: &[u8]) -> Option<i128>
    requires { IsDecodableSignal signal.now }
    ensures value { result ≡ raw_value signal.now bytes.now }
    ensures bound { IfSome result IsRawValue }
{
    let first = first_place(signal.order, signal.start, signal.size);
    let Some(bits) = bits_from(signal.order, first, signal.size, bytes) else {
        return None;
    };
    let Some(top) = bit_at(bytes, first) else {
        return None;
    };
    Some(number(signal.signed, signal.size, top, bits))
}
