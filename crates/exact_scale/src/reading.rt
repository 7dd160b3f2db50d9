//! Decimals out of a text.
ghost use Rattle.std.specs.Prelude.{◌≡◌, ◌↔◌, ◌^◌, ◌≤◌, IfOk, IfSome, IfNone, List, ℤ, ℕ, pos, neg_ℤ, if◌then◌else◌};
ghost use Rattle.exact_scale.specs.Digits.{AllDigits};
ghost use Rattle.exact_scale.specs.Limits.{most_places, IsNarrow, DenotesTooWide};
ghost use Rattle.exact_scale.specs.Parts.{HasParts};
ghost use Rattle.exact_scale.specs.Numeral.{IsDecimalText, Denotes};

use crate::parts::Parts;
use crate::significand::Significand;
use thiserror::Error;

/// The decimal `num / 10^k`.
#[derive(Clone, Copy, Debug, PartialEq, Eq)]
pub struct Decimal {
    /// The numerator.
    pub num: i128,
    /// The number of places after the point.
    pub k: u32,
}

/// Why a text is no decimal that can be kept.
#[derive(Clone, Copy, Debug, PartialEq, Eq, Error)]
pub enum DecimalFault {
    /// The text is not of the form.
    #[error("not a decimal number")]
    Form = 1,
    /// The number needs more than thirty places, or a numerator of `2^62` or more.
    #[error("a decimal number past the limits")]
    Wide = 2,
}

impl Decimal {
    /// The decimal that a text denotes: an optional sign, digits with at most one point and at least
    /// one digit, and optionally `e` or `E`, an optional sign and digits. `k` is the least number of
    /// places that the value takes.
    pub fn read(text: &[u8]) -> Result<Decimal, DecimalFault>
        ensures value { IfOk result (λ decimal. Denotes text.now decimal.num decimal.k) }
        ensures narrow { IfOk result (λ decimal. (decimal.k ≤ most_places) × IsNarrow decimal.num) }

        // A text denotes one decimal.
        ensures only { IfOk result (λ decimal. (n : ℤ) (k : ℕ) → Denotes text.now n k
            → (n ≡ decimal.num) × (k ≡ decimal.k)) }

        // Exactly where each fault comes.
        ensures form { (result ≡ Err DecimalFault.Form) ↔ (¬ IsDecimalText text.now) }
        ensures wide { (result ≡ Err DecimalFault.Wide) ↔ DenotesTooWide text.now }
    {
        match Parts::split(text) {
            None => Err(DecimalFault::Form),
            Some(parts) => match narrow(&parts) {
                None => Err(DecimalFault::Wide),
                Some(decimal) => Ok(decimal),
            },
        }
    }
}

/// The decimal of the parts, if it is within the limits.
fn narrow(parts: &Parts<'_>) -> Option<Decimal>
    requires whole { AllDigits parts.now.whole.now }
    requires fraction { AllDigits parts.now.fraction.now }
    requires raised { parts.now.exponent.raised ≤ 2 ^ 100 }
    requires lowered { parts.now.exponent.lowered ≤ 2 ^ 100 }
    ensures some { IfSome result (λ decimal. (text : List ℕ) → HasParts text parts.now.negative
        parts.now.whole.now parts.now.fraction.now parts.now.exponent.raised
        parts.now.exponent.lowered → Denotes text decimal.num decimal.k) }
    ensures narrow { IfSome result (λ decimal. (decimal.k ≤ most_places) × IsNarrow decimal.num) }
    ensures none { IfNone result ((text : List ℕ) → HasParts text parts.now.negative
        parts.now.whole.now parts.now.fraction.now parts.now.exponent.raised
        parts.now.exponent.lowered → DenotesTooWide text) }
{
    let significand = Significand::of(parts.whole, parts.fraction);
    let up = significand.zeros + parts.exponent.raised;
    let down = parts.fraction.len() as u128 + parts.exponent.lowered;
    match significand.shift(up.saturating_sub(down), down.saturating_sub(up)) {
        None => None,
        Some((size, k)) => Some(Decimal {
            num: with_sign(parts.negative, size),
            k,
        }),
    }
}

/// A numerator under its sign.
fn with_sign(negative: bool, size: u64) -> i128
    ensures { result ≡ (if negative then neg_ℤ (pos size) else pos size) }
{
    let size = i128::from(size);
    if negative { -size } else { size }
}
