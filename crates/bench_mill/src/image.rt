//! The generated database as a bench, and its image.

ghost use Rattle.std.specs.Prelude.{◌≡◌, IfOk};
ghost use Rattle.bench_model.specs.ValidBench.{IsValidBench};
ghost use Rattle.image_words.specs.Image.{Encodes};
ghost use Rattle.mill_database.specs.GeneratedDatabase.{generated_database};
ghost use Rattle.bench_mill.specs.GeneratedBench.{generated_bench};

use bench_model::{Bench, Bus, Kind, Text, Valid};
use dbc_grammar::{database_is_unique, read_dbc};
use image_compiler::compile;
use mill_database::{generated_text, the_generated_text_is_whole};
use multiplex_tree::List;
use std::alloc::{AllocError, Global};

/// The bench of the generated database is valid.
pub(crate) fn the_bench_is_valid()
    ensures { IsValidBench generated_bench }
{
    the_generated_text_is_whole();
}

/// The generated database, read from its text.
fn read_generated(alloc: Global) -> Result<Valid, AllocError>
    ensures { IfOk result (λ valid. valid.database ≡ generated_database) }
{
    the_generated_text_is_whole();
    database_is_unique();
    let text = generated_text(alloc)?;
    match read_dbc(alloc, &text) {
        Ok(valid) => Ok(valid),
        Err(_) => Err(AllocError),
    }
}

/// The bench of one bus with the generated database.
fn bench_of(alloc: Global, valid: Valid) -> Result<Bench, AllocError>
    requires { valid.database ≡ generated_database }
    ensures { IfOk result (λ bench. bench ≡ generated_bench) }
{
    let name = Text::of(alloc, b"can0")?;
    let mut buses = Vec::new(alloc);
    buses.push(Bus {
        name,
        kind: Kind::Can,
        database: valid.into_database(),
    })?;
    Ok(Bench {
        buses: List::of(buses),
    })
}

/// The image of that bench.
pub(crate) fn generated_image(alloc: Global) -> Result<Vec<u64>, AllocError>
    ensures { IfOk result (λ image. Encodes image.items generated_bench) }
{
    the_bench_is_valid();
    let valid = read_generated(alloc)?;
    let bench = bench_of(alloc, valid)?;
    match compile(alloc, &bench, usize::MAX) {
        Ok(image) => Ok(image),
        Err(_) => Err(AllocError),
    }
}
