//! A factor and an offset over one power of ten, and their use on a raw value.
ghost use Rattle.std.specs.Prelude.{◌≡◌, ◌^◌, ◌≤◌, ◌⊎◌, ◌↔◌, max, pos, ◌+ℤ◌, ◌*ℤ◌, unsigned_abs, IfOk, IsErr};
ghost use Rattle.exact_scale.specs.Fraction.{IsSame, decimal_fraction};
ghost use Rattle.exact_scale.specs.Limits.{most_places, numerator_limit, IsNarrow, IsScale, IsRawValue, numerator_over};

use crate::printing::Exact;
use crate::reading::Decimal;
use crate::significand::NUMERATOR_LIMIT;
use thiserror::Error;

/// The size of the least raw value that a signal may have: that of a signed one of 64 bits.
pub const LEAST_RAW_SIZE: u64 = 1 << 63;

/// The greatest raw value that a signal may have: that of an unsigned one of 64 bits.
pub const GREATEST_RAW: u64 = u64::MAX;

/// A factor and an offset over one power of ten: `factor / 10^k` and `offset / 10^k`.
#[derive(Clone, Copy, Debug, PartialEq, Eq)]
pub struct Scale {
    /// The numerator of the factor.
    pub factor: i128,
    /// The numerator of the offset.
    pub offset: i128,
    /// The number of places of both.
    pub k: u32,
}

/// A factor and an offset need a numerator of `2^62` or more over their common power of ten.
#[derive(Clone, Copy, Debug, PartialEq, Eq, Error)]
#[error("a scaling past the limits")]
pub struct Wide;

impl Scale {
    /// The scale of a factor and an offset, over the greater of their powers of ten.
    pub fn new(factor: Decimal, offset: Decimal) -> Result<Scale, Wide>
        requires factor_places { factor.k ≤ most_places }
        requires offset_places { offset.k ≤ most_places }

        ensures places { IfOk result (λ scale. scale.k ≡ max factor.k offset.k) }
        ensures factor { IfOk result (λ scale. scale.factor ≡ numerator_over scale.k factor.num factor.k) }
        ensures offset { IfOk result (λ scale. scale.offset ≡ numerator_over scale.k offset.num offset.k) }
        ensures narrow { IfOk result (λ scale. IsNarrow scale.factor × IsNarrow scale.offset) }
        ensures limits { IfOk result IsScale }

        // The factor and the offset are the fractions that they were.
        ensures same_factor { IfOk result (λ scale. IsSame (decimal_fraction scale.factor scale.k)
            (decimal_fraction factor.num factor.k)) }
        ensures same_offset { IfOk result (λ scale. IsSame (decimal_fraction scale.offset scale.k)
            (decimal_fraction offset.num offset.k)) }

        // Exactly where one of the numerators over the common power of ten is too wide.
        ensures wide { IsErr result ↔
            ((numerator_limit ≤ unsigned_abs (numerator_over (max factor.k offset.k) factor.num factor.k))
            ⊎ (numerator_limit ≤ unsigned_abs (numerator_over (max factor.k offset.k) offset.num offset.k))) }
    {
        let k = factor.k.max(offset.k);
        let factor = numerator_over(factor, k)?;
        let offset = numerator_over(offset, k)?;
        Ok(Scale { factor, offset, k })
    }

    /// The physical value of a raw value: `raw * factor + offset` over `10^k`, for a scale as `new` makes it.
    pub fn apply(&self, raw: i128) -> Exact
        requires scale { IsScale self.now }
        requires raw { IsRawValue raw }

        ensures value { result.num ≡ (raw *ℤ self.now.factor) +ℤ self.now.offset }
        ensures places { result.k ≡ self.now.k }
    {
        Exact {
            num: raw * self.factor + self.offset,
            k: self.k,
        }
    }
}

/// The numerator over `10^to` of a decimal with at most that many places.
fn numerator_over(decimal: Decimal, to: u32) -> Result<i128, Wide>
    requires places { decimal.k ≤ to }
    requires limit { to ≤ most_places }
    ensures value { IfOk result (λ n. n ≡ numerator_over to decimal.num decimal.k) }
    ensures narrow { IfOk result IsNarrow }
    ensures wide { IsErr result ↔ (numerator_limit ≤ unsigned_abs (numerator_over to decimal.num decimal.k)) }
{
    let unit = 10i128.pow(to - decimal.k);
    match decimal.num.checked_mul(unit) {
        Some(numerator) if numerator.unsigned_abs() < NUMERATOR_LIMIT => Ok(numerator),
        _ => Err(Wide),
    }
}
