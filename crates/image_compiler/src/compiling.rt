//! The image of a bench.

ghost use Rattle.std.specs.Prelude.{◌≡◌, ◌≤◌, ◌++◌, All, length, IfOk, IfErr, OnOk};
ghost use Rattle.bench_model.specs.ValidBench.{IsValidBench};
ghost use Rattle.image_words.specs.Image.{Encodes};
ghost use Rattle.image_compiler.specs.Size.{image_size as size_of_image};
ghost use Rattle.image_compiler.specs.Layout.{layout};
ghost use Rattle.image_compiler.specs.Refusal.{IsRefusal};
ghost use Rattle.image_compiler.specs.Typed.{IsTypedBus};

use crate::CompileRefused;
use crate::parts::{table_size, write_table};
use crate::texts::sum;
use bench_model::{Bench, valid_keeps_rules};
use image_words::layout::{BUS_WORDS, HEADER_WORDS};
use std::alloc::{AllocError, Global};

/// How many words the image takes.
pub(crate) fn image_size(bench: &Bench) -> Result<u64, AllocError>
    ensures size { IfOk result (λ n. n ≡ size_of_image bench.now) }
    ensures typed { OnOk result (All IsTypedBus bench.now.buses) }
{
    let table = table_size(BUS_WORDS, bench.buses.items())?;
    sum(HEADER_WORDS as u64, table)
}

/// The image, which takes so many words.
pub(crate) fn write_image(alloc: Global, bench: &Bench, size: u64) -> Result<Vec<u64>, AllocError>
    requires { size ≡ size_of_image bench.now }
    ensures { IfOk result (λ image. image.items ≡ layout bench.now) }
{
    let buses = bench.buses.items();
    let mut image = Vec::with_capacity(alloc, size as usize)?;
    image.push(size)?;
    image.push(buses.len() as u64)?;
    write_table(alloc, &mut image, HEADER_WORDS as u64, BUS_WORDS, buses)?;
    Ok(image)
}

/// The image of a valid bench, as a list of words that encodes it and has at most `room` of them. It takes time linear
/// in the words, but for the sorting of the indexes.
pub fn compile(alloc: Global, bench: &Bench, room: usize) -> Result<Vec<u64>, CompileRefused>
    requires valid { IsValidBench bench.now }
    ensures encodes { IfOk result (λ image. Encodes image.items bench.now) }
    ensures size { IfOk result (λ image. length image.items ≡ size_of_image bench.now) }
    ensures room { IfOk result (λ image. length image.items ≤ room) }
    ensures refused { IfErr result (IsRefusal room (size_of_image bench.now)) }
{
    valid_keeps_rules();
    let need = image_size(bench)?;
    if need > room as u64 {
        return Err(CompileRefused::TooLarge { need });
    }
    let image = write_image(alloc, bench, need)?;
    Ok(image)
}
