//! The scale of a factor and an offset.

ghost use Rattle.std.specs.Prelude.{IfOk, IfErr};
ghost use Rattle.token_forms.specs.Numbers.{signed_text};
ghost use Rattle.token_forms.specs.Scaling.{IsScaling};
ghost use Rattle.token_forms.specs.Outcomes.{IsNoScale};

use crate::fault::NumberFault;
use crate::numbers::{SignedNumber, decimal_of};
use exact_scale::{Scale, decimal_is_unique};
use std::alloc::Global;

/// The scale of a factor and an offset, over the greater of their powers of ten.
pub fn scale_of(
    alloc: Global,
    bytes: &[u8],
    factor: SignedNumber,
    offset: SignedNumber,
) -> Result<Scale, NumberFault>
    ensures scale { IfOk result (IsScaling (signed_text bytes.now factor) (signed_text bytes.now offset)) }
    ensures wide { IfErr result (IsNoScale (signed_text bytes.now factor) (signed_text bytes.now offset)) }
{
    decimal_is_unique();
    let factor = decimal_of(alloc, bytes, factor)?;
    let offset = decimal_of(alloc, bytes, offset)?;
    match Scale::new(factor, offset) {
        Ok(scale) => Ok(scale),
        Err(_wide) => Err(NumberFault::Wide),
    }
}
