//! Decimal digits of a number, appended to a buffer.
ghost use Rattle.std.specs.Prelude.{◌≡◌, ◌^◌, ◌+◌, ◌≤◌, ◌<◌, ◌*◌, ◌++◌, OnOk};
ghost use Rattle.exact_scale.specs.Buffer.{Extends};
ghost use Rattle.exact_scale.specs.Digits.{decimal_digits, last_digits};

use itoa::Buffer;
use std::alloc::AllocError;

/// Appends a number's digits without leading zeros, and `0` for 0. Some of them may be in `out` after an error.
pub(crate) fn push_number(out: &mut Vec<u8>, number: u128) -> Result<(), AllocError>
    ensures ok { OnOk result (out.new.items ≡ out.old.items ++ decimal_digits number) }
    ensures grows { Extends out.old.items out.new.items }
{
    let mut digits = Buffer::new();
    out.extend_from_slice(digits.format(number).as_bytes())?;
    Ok(())
}

/// Appends the digits after the point of `rest / 10^places`, with zeros in front where `rest` has fewer digits.
pub(crate) fn push_fraction(out: &mut Vec<u8>, rest: u128, places: u32) -> Result<(), AllocError>
    requires positive { 0 < rest }
    requires proper { rest < 10 ^ places }
    ensures ok { OnOk result (out.new.items ≡ out.old.items ++ last_digits places rest) }
    ensures grows { Extends out.old.items out.new.items }
{
    let digits = rest.ilog10() + 1;
    for _zero in digits..places {
        out.push(b'0')?;
    }
    push_number(out, rest)
}
