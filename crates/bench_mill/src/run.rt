//! The run over the log.

ghost use Rattle.std.specs.Prelude.{◌≡◌, ◌∷◌, [], OnOk, IfOk};
ghost use Rattle.byte_forms.specs.Lines.{all_lines};
ghost use Rattle.image_words.specs.Image.{Encodes};
ghost use Rattle.bench_mill.specs.GeneratedBench.{generated_bench};
ghost use Rattle.bench_mill.specs.Totals.{Adds, mill_totals};

use crate::Totals;
use crate::image::{generated_image, the_bench_is_valid};
use bench_model::Ask;
use byte_forms::next_line;
use candump_log::{LogLine, line};
use image_words::{ValueBuffer, walk, whole_list_fits};
use mill_log::{pieces_are_the_log, push_frames};
use std::alloc::{AllocError, Global};

/// How many frames a piece of the log has at most.
const PIECE: u32 = 512;

/// Adds what a line means to the totals.
fn add_line(
    image: &mut Vec<u64>,
    text: &[u8],
    value: &mut ValueBuffer,
    totals: &mut Totals,
) -> Result<(), AllocError>
    requires { Encodes image.old.items generated_bench }
    ensures same { image.new ≡ image.old }
    ensures added { OnOk result (Adds totals.old (text.now ∷ []) totals.new) }
{
    the_bench_is_valid();
    whole_list_fits();
    let LogLine::Frame { key, payload, .. } = line(text) else {
        return Ok(());
    };
    walk(image, 0, Ask::Frame { key }, payload.bytes(), value, totals)?;
    Ok(())
}

/// Adds what each line of a piece of the log means to the totals.
fn add_lines(
    image: &mut Vec<u64>,
    piece: &[u8],
    value: &mut ValueBuffer,
    totals: &mut Totals,
) -> Result<(), AllocError>
    requires { Encodes image.old.items generated_bench }
    ensures same { image.new ≡ image.old }
    ensures added { OnOk result (Adds totals.old (all_lines piece.now) totals.new) }
{
    let mut rest = piece;
    while let Some((text, after)) = next_line(rest) {
        add_line(image, text, value, totals)?;
        rest = after;
    }
    Ok(())
}

/// How many frames of the generated log of so many frames a message of the generated database matches, how many
/// signals they have, and the sum of their raw values. The log is made piece by piece.
pub fn mill(alloc: Global, frames: u32) -> Result<Totals, AllocError>
    ensures { IfOk result (λ totals. totals ≡ mill_totals frames) }
{
    pieces_are_the_log();
    let mut image = generated_image(alloc)?;
    let mut value = ValueBuffer::new(alloc);
    let mut piece = Vec::new(alloc);
    let mut totals = Totals::none();
    let mut number = u64::from(frames);
    let mut first = 0;
    while first < frames {
        let count = PIECE.min(frames - first);
        piece.clear();
        number = push_frames(&mut piece, first, count, number)?;
        add_lines(&mut image, &piece, &mut value, &mut totals)?;
        first += count;
    }
    Ok(totals)
}
