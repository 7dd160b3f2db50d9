//! The digits of a decimal as a number without trailing zeros, kept up to a bound, and the count of
//! those zeros.
ghost use Rattle.std.specs.Prelude.{◌≡◌, ◌+◌, ◌*◌, ◌^◌, ◌≤◌, ◌<◌, ◌++◌, ℕ, IfSome, IfNone, length};
ghost use Rattle.exact_scale.specs.Digits.{AllDigits, number};
ghost use Rattle.exact_scale.specs.Limits.{most_places, numerator_limit};
ghost use Rattle.exact_scale.specs.Parts.{IsSignificand, IsLeastSize, LeastSizeTooWide, Moves};

/// Numerators are below this in size.
pub(crate) const NUMERATOR_LIMIT: u128 = 1 << 62;

/// Decimals have at most this many places.
const MOST_PLACES: u128 = 30;

/// A number without its trailing zeros, or the limit where it is as great or greater, and how many
/// zeros there are.
#[derive(Clone, Copy)]
pub(crate) struct Significand {
    pub(crate) size: u64,
    pub(crate) zeros: u128,
}

impl Significand {
    /// The digits before and after the point as one number.
    pub(crate) fn of(whole: &[u8], fraction: &[u8]) -> Significand
        requires whole { AllDigits whole.now }
        requires fraction { AllDigits fraction.now }
        ensures number { IsSignificand (number (whole.now ++ fraction.now)) result.size result.zeros }
        ensures zeros { result.zeros ≤ length whole.now + length fraction.now }
    {
        Significand { size: 0, zeros: 0 }
            .extend(whole)
            .extend(fraction)
    }

    /// The number with more digits behind it.
    fn extend(self, digits: &[u8]) -> Significand
        requires digits { AllDigits digits.now }
        requires zeros { self.zeros < 2 ^ 64 }
        ensures number { (n : ℕ) → IsSignificand n self.size self.zeros
            → IsSignificand (n * 10 ^ length digits.now + number digits.now) result.size result.zeros }
        ensures zeros { result.zeros ≤ self.zeros + length digits.now }
    {
        let mut significand = self;
        for byte in digits {
            significand = significand.push(byte - b'0');
        }
        significand
    }

    /// The number with one more digit behind it.
    fn push(self, digit: u8) -> Significand
        requires digit { digit < 10 }
        requires zeros { self.zeros < 2 ^ 127 }
        ensures number { (n : ℕ) → IsSignificand n self.size self.zeros
            → IsSignificand (n * 10 + digit) result.size result.zeros }
        ensures zeros { result.zeros ≤ self.zeros + 1 }
    {
        if digit != 0 {
            Significand {
                size: join(self, digit),
                zeros: 0,
            }
        } else if self.size != 0 {
            Significand {
                size: self.size,
                zeros: self.zeros + 1,
            }
        } else {
            self
        }
    }

    /// The number without its zeros moved up or down, if it is within the limits: a numerator, and
    /// how many places it has.
    pub(crate) fn shift(self, up: u128, down: u128) -> Option<(u64, u32)>
        ensures some { IfSome result (λ r. (short rise fall : ℕ) → Moves self.size up down short rise fall
            → IsLeastSize (short * 10 ^ rise) (10 ^ fall) r.0 r.1) }
        ensures narrow { IfSome result (λ r. (r.0 < numerator_limit) × (r.1 ≤ most_places)) }
        ensures none { IfNone result ((short rise fall : ℕ) → Moves self.size up down short rise fall
            → LeastSizeTooWide (short * 10 ^ rise) (10 ^ fall)) }
    {
        if self.size == 0 {
            return Some((0, 0));
        }
        if up > 18 || down > MOST_PLACES {
            return None;
        }
        let size = u128::from(self.size) * 10u128.pow(up as u32);
        if size >= NUMERATOR_LIMIT {
            return None;
        }
        Some((size as u64, down as u32))
    }
}

/// A significand with its zeros and one more digit behind it, up to the limit.
fn join(prefix: Significand, digit: u8) -> u64
    requires positive { 0 < digit }
    requires digit { digit < 10 }
    ensures { (n : ℕ) → IsSignificand n prefix.size prefix.zeros → IsSignificand (n * 10 + digit) result 0 }
{
    if prefix.zeros < 18 {
        let unit = 10u128.pow(prefix.zeros as u32 + 1);
        let size = u128::from(prefix.size) * unit + u128::from(digit);
        size.min(NUMERATOR_LIMIT) as u64
    } else {
        NUMERATOR_LIMIT as u64
    }
}
