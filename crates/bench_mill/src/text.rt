//! The text of the three numbers.

ghost use Rattle.std.specs.Prelude.{◌≡◌, ◌++◌, OnOk};
ghost use Rattle.bench_mill.specs.Totals.{number_line, totals_text};

use crate::Totals;
use itoa::Buffer;
use std::alloc::AllocError;

/// Appends a line with a number.
#[tactic(auto, unfolding(crate::specs::Totals::number_line))]
fn append_line(out: &mut Vec<u8>, name: &[u8], number: &str) -> Result<(), AllocError>
    ensures { OnOk result (out.new.items ≡ out.old.items ++ number_line name.now number.now) }
{
    out.extend_from_slice(name)?;
    out.extend_from_slice(number.as_bytes())?;
    out.extend_from_slice(b"\n")?;
    Ok(())
}

/// Appends the three lines.
pub fn append_totals(out: &mut Vec<u8>, totals: Totals) -> Result<(), AllocError>
    ensures { OnOk result (out.new.items ≡ out.old.items ++ totals_text totals) }
{
    let mut digits = Buffer::new();
    append_line(out, b"frames ", digits.format(totals.frames))?;
    append_line(out, b"signals ", digits.format(totals.signals))?;
    append_line(out, b"sum ", digits.format(totals.sum))?;
    Ok(())
}
