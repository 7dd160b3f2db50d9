//! The shortest decimal text of a fraction over a power of ten.
ghost use Rattle.std.specs.Prelude.{◌≡◌, ◌%◌, ◌*◌, ◌^◌, ◌+◌, ◌-◌, ◌/◌, ◌≤◌, ◌<◌, ◌⊎◌, ◌++◌, ◌↔◌, ℕ, ℤ, OnOk, OnErr};
ghost use Rattle.exact_scale.specs.Buffer.{Extends};
ghost use Rattle.exact_scale.specs.Fraction.{IsSame, decimal_fraction};
ghost use Rattle.exact_scale.specs.ShortestText.{decimal_text, IsShortestText, minus_of, point_text};

use crate::digits::{push_fraction, push_number};
use std::alloc::AllocError;

/// A `u128` has at most this many decimal digits, and a `u64` at most so many.
const MOST_DIGITS: u32 = 39;

const MOST_SMALL_DIGITS: u32 = 20;

/// The fraction `num / 10^k`.
#[derive(Clone, Copy, Debug, PartialEq, Eq)]
pub struct Exact {
    /// The numerator.
    pub num: i128,
    /// The number of places after the point, before trailing zeros are left out.
    pub k: u32,
}

impl Exact {
    /// Appends the shortest decimal: `-` where the value is negative, the whole part without
    /// leading zeros, then a point and the digits after it without trailing zeros where there are
    /// any. After an error `out` is as before.
    pub fn append(&self, out: &mut Vec<u8>) -> Result<(), AllocError>
        ensures ok { OnOk result (out.new.items ≡ out.old.items ++ decimal_text self.now.num self.now.k) }
        ensures err { OnErr result (out.new.items ≡ out.old.items) }

        // What that text is, in the subject's own words.
        ensures shortest { IsShortestText (decimal_text self.now.num self.now.k) self.now.num self.now.k }

        // Fractions have the same text exactly where their cross products are equal.
        ensures same { (n : ℤ) (k : ℕ) → (decimal_text n k ≡ decimal_text self.now.num self.now.k)
            ↔ IsSame (decimal_fraction n k) (decimal_fraction self.now.num self.now.k) }
    {
        let start = out.len();
        match self.write(out) {
            Ok(()) => Ok(()),
            Err(error) => {
                out.truncate(start);
                Err(error)
            }
        }
    }

    /// The same, but part of the text may be in `out` after an error.
    fn write(&self, out: &mut Vec<u8>) -> Result<(), AllocError>
        ensures ok { OnOk result (out.new.items ≡ out.old.items ++ decimal_text self.now.num self.now.k) }
        ensures grows { Extends out.old.items out.new.items }
    {
        push_minus(out, self.num)?;
        let (size, places) = without_last_zeros(self.num.unsigned_abs(), self.k);
        let (whole, rest) = at_point(size, places);
        push_number(out, whole)?;
        push_point(out, rest, places)
    }
}

/// Appends `-` where the number is negative.
fn push_minus(out: &mut Vec<u8>, number: i128) -> Result<(), AllocError>
    ensures ok { OnOk result (out.new.items ≡ out.old.items ++ minus_of number) }
    ensures grows { Extends out.old.items out.new.items }
{
    if number < 0 {
        out.push(b'-')?;
    }
    Ok(())
}

/// The same fraction `size / 10^places` without zeros at the end of its digits after the point.
fn without_last_zeros(size: u128, places: u32) -> (u128, u32)
    ensures shorter { result.1 ≤ places }
    ensures same { size ≡ result.0 * 10 ^ (places - result.1) }
    ensures last { (result.1 ≡ 0) ⊎ (0 < result.0 % 10) }
{
    match u64::try_from(size) {
        Ok(size) => {
            let (size, places) = small_without_last_zeros(size, places);
            (u128::from(size), places)
        }
        Err(_) if places > 0 && size % 10 == 0 => without_last_zeros(size / 10, places - 1),
        Err(_) => (size, places),
    }
}

/// The same of a size that fits 64 bits, which are faster to divide.
fn small_without_last_zeros(size: u64, places: u32) -> (u64, u32)
    ensures shorter { result.1 ≤ places }
    ensures same { size ≡ result.0 * 10 ^ (places - result.1) }
    ensures last { (result.1 ≡ 0) ⊎ (0 < result.0 % 10) }
{
    let mut size = size;
    let mut places = places;
    while places > 0 && size % 10 == 0 {
        size /= 10;
        places -= 1;
    }
    (size, places)
}

/// The whole part of `size / 10^places`, and the numerator of the rest.
fn at_point(size: u128, places: u32) -> (u128, u128)
    ensures whole { result.0 ≡ size / 10 ^ places }
    ensures rest { result.1 ≡ size % 10 ^ places }
{
    match u64::try_from(size) {
        Ok(size) => {
            let (whole, rest) = small_at_point(size, places);
            (u128::from(whole), u128::from(rest))
        }
        Err(_) if places < MOST_DIGITS => {
            let unit = 10u128.pow(places);
            (size / unit, size % unit)
        }
        Err(_) => (0, size),
    }
}

/// The same of a size that fits 64 bits.
fn small_at_point(size: u64, places: u32) -> (u64, u64)
    ensures whole { result.0 ≡ size / 10 ^ places }
    ensures rest { result.1 ≡ size % 10 ^ places }
{
    if places < MOST_SMALL_DIGITS {
        let unit = 10u64.pow(places);
        (size / unit, size % unit)
    } else {
        (0, size)
    }
}

/// Appends a point and the digits of `rest / 10^places`, of which the last is not 0, or nothing
/// where there is no place.
fn push_point(out: &mut Vec<u8>, rest: u128, places: u32) -> Result<(), AllocError>
    requires proper { rest < 10 ^ places }
    requires last { (places ≡ 0) ⊎ (0 < rest % 10) }
    ensures ok { OnOk result (out.new.items ≡ out.old.items ++ point_text places rest) }
    ensures grows { Extends out.old.items out.new.items }
{
    if places == 0 {
        return Ok(());
    }
    out.push(b'.')?;
    push_fraction(out, rest, places)
}
