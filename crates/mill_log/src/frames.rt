//! The lines of frames.

ghost use Rattle.std.specs.Prelude.{◌≡◌, ◌++◌, ◌+◌, ◌<◌, ◌^◌, ℕ, OnOk, IfOk};
ghost use Rattle.std.specs.List.{flat_map};
ghost use Rattle.byte_forms.specs.Hexadecimal.{hex_digits};
ghost use Rattle.mill_log.specs.GeneratedLog.{number_after, number_at, low_bytes, line_prefix, line_body, line_of_frame, log_from};

use crate::digits::{last_six, last_ten, last_three_hex};
use byte_forms::hex_of_byte;
use std::alloc::AllocError;

/// The identifier of the first message.
pub const FIRST_ID: u32 = 256;

/// The microseconds between two frames.
const STEP: u64 = 100;

/// The number after another.
#[tactic(auto, using(crate::proofs::NumberLaws::number_step))]
fn number_after(x: u64) -> u64
    ensures { result ≡ number_after x }
{
    x.wrapping_mul(6_364_136_223_846_793_005)
        .wrapping_add(1_442_695_040_888_963_407)
}

/// Appends the lowest four bytes of a number, the lowest first.
fn push_four(out: &mut Vec<u8>, n: u64) -> Result<(), AllocError>
    ensures { OnOk result (out.new.items ≡ out.old.items ++ flat_map (hex_digits 2) (low_bytes 4 n)) }
{
    out.extend_from_slice(&hex_of_byte((n % 256) as u8))?;
    out.extend_from_slice(&hex_of_byte((n / 256 % 256) as u8))?;
    out.extend_from_slice(&hex_of_byte((n / 256 / 256 % 256) as u8))?;
    out.extend_from_slice(&hex_of_byte((n / 256 / 256 / 256 % 256) as u8))?;
    Ok(())
}

/// Appends all eight bytes of a number, the lowest first.
fn push_bytes(out: &mut Vec<u8>, x: u64) -> Result<(), AllocError>
    ensures { OnOk result (out.new.items ≡ out.old.items ++ flat_map (hex_digits 2) (low_bytes 8 x)) }
{
    push_four(out, x)?;
    push_four(out, x / 256 / 256 / 256 / 256)
}

/// Appends the line of frame `i` up to its identifier.
fn push_front(out: &mut Vec<u8>, i: u32) -> Result<(), AllocError>
    ensures { OnOk result (out.new.items ≡ out.old.items ++ line_prefix i) }
{
    let stamp = u64::from(i) * STEP;
    out.extend_from_slice(b"(")?;
    out.extend_from_slice(&last_ten(stamp / 1_000_000))?;
    out.extend_from_slice(b".")?;
    out.extend_from_slice(&last_six(stamp % 1_000_000))?;
    out.extend_from_slice(b") can0 ")?;
    Ok(())
}

/// Appends the identifier and the bytes that a number makes.
fn push_body(out: &mut Vec<u8>, x: u64) -> Result<(), AllocError>
    ensures { OnOk result (out.new.items ≡ out.old.items ++ line_body x) }
{
    out.extend_from_slice(&last_three_hex(FIRST_ID + (x / (1 << 58)) as u32))?;
    out.extend_from_slice(b"#")?;
    push_bytes(out, x)?;
    out.extend_from_slice(b"\n")?;
    Ok(())
}

/// Appends the line of frame `i`, which is made of a number.
#[tactic(auto, unfolding(crate::specs::GeneratedLog::line_of_frame))]
fn push_line(out: &mut Vec<u8>, i: u32, x: u64) -> Result<(), AllocError>
    ensures { OnOk result (out.new.items ≡ out.old.items ++ line_of_frame i x) }
{
    push_front(out, i)?;
    push_body(out, x)
}

/// Appends the lines of so many frames from frame `first` on, before which the generator's number is `x`, and answers
/// its number behind them; before frame 0 it is the seed.
pub fn push_frames(out: &mut Vec<u8>, first: u32, count: u32, x: u64) -> Result<u64, AllocError>
    requires { first + count < 2 ^ 32 }
    ensures lines { (seed : ℕ) → x ≡ number_at seed first →
        OnOk result (out.new.items ≡ out.old.items ++ log_from seed first count) }
    ensures next { (seed : ℕ) → x ≡ number_at seed first →
        IfOk result (λ next. next ≡ number_at seed (first + count)) }
{
    let mut number = x;
    for k in 0..count {
        number = number_after(number);
        push_line(out, first + k, number)?;
    }
    Ok(number)
}
