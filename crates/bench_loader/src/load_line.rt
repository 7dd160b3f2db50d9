//! The line of a command.

ghost use Rattle.std.specs.Prelude.{◌≡◌};
ghost use Rattle.std.specs.List.{list_any};
ghost use Rattle.std.specs.Str.{bytes_eq};
ghost use Rattle.text_words.specs.Words.{words_of};
ghost use Rattle.bench_loader.specs.declared.load_line.Pair.{Pair};
ghost use Rattle.bench_loader.specs.LineView.{AddsPair, ReadsPairs, ReadsLoad};

use bench_file::{FileName, name_text};
use bench_model::Text;
use std::alloc::{AllocError, AllocFailed, Global};
use text_words::next_word;
use thiserror::Error;

/// How many bytes a command may have.
const LONGEST_COMMAND: usize = 8_192;
/// How many buses a command may name.
const MOST_PAIRS: usize = 16;

/// A bus, by the name that a command gives it, and the file of its new database.
#[derive(Debug, Drop)]
pub struct Pair {
    pub bus: Text,
    pub file: FileName,
}

/// Why a line names no pairs.
#[derive(Clone, Copy, Debug, PartialEq, Eq, Error)]
pub(crate) enum LineRefused {
    #[error("the line is no command")]
    Form,
    #[error("out of memory")]
    Memory,
}

impl From<AllocError> for LineRefused {
    ghost use Rattle.std.specs.Prelude.{◌≡◌};
    ghost use Rattle.bench_loader.specs.declared.load_line.LineRefused.TheVariants as refusals;

    ghost from_gives = { λ _ refused. refused ≡ refusals.Memory };

    fn from(_: AllocError) -> LineRefused {
        LineRefused::Memory
    }
}

impl<T: Drop> From<AllocFailed<T>> for LineRefused {
    ghost use Rattle.std.specs.Prelude.{◌≡◌};
    ghost use Rattle.bench_loader.specs.declared.load_line.LineRefused.TheVariants as refusals;

    ghost from_gives = { λ _ refused. refused ≡ refusals.Memory };

    fn from(_: AllocFailed<T>) -> LineRefused {
        LineRefused::Memory
    }
}

/// Whether one of the pairs has this bus.
fn names_bus(pairs: &[Pair], bus: &[u8]) -> bool
    ensures { result ≡ list_any (λ (p : Pair). bytes_eq p.bus bus.now) pairs.now }
{
    pairs.iter().any(|pair| pair.bus.bytes() == bus)
}

/// Puts a pair behind those before.
fn add_pair(
    alloc: Global,
    pairs: &mut Vec<Pair>,
    bus: &[u8],
    file: &[u8],
) -> Result<(), LineRefused>
    ensures { AddsPair pairs.old.items bus.now file.now pairs.new.items result }
{
    if pairs.len() >= MOST_PAIRS || names_bus(pairs, bus) {
        return Err(LineRefused::Form);
    }
    let Some(file) = name_text(file) else {
        return Err(LineRefused::Form);
    };
    pairs.push(Pair {
        bus: Text::of(alloc, bus)?,
        file: FileName::of(alloc, file)?,
    })?;
    Ok(())
}

/// The pairs of these words.
fn read_pairs(alloc: Global, words: &[u8]) -> Result<Vec<Pair>, LineRefused>
    ensures { ReadsPairs (words_of words.now) result }
{
    let mut pairs = Vec::new(alloc);
    let mut rest = words;
    while let Some((bus, behind)) = next_word(rest) {
        let Some((file, behind)) = next_word(behind) else {
            return Err(LineRefused::Form);
        };
        add_pair(alloc, &mut pairs, bus, file)?;
        rest = behind;
    }
    Ok(pairs)
}

/// The pairs that a command names.
pub(crate) fn read_load(alloc: Global, line: &[u8]) -> Result<Vec<Pair>, LineRefused>
    ensures { ReadsLoad line.now result }
{
    if line.len() > LONGEST_COMMAND {
        return Err(LineRefused::Form);
    }
    let Some((word, words)) = next_word(line) else {
        return Err(LineRefused::Form);
    };
    if word != b"LOAD".as_slice() {
        return Err(LineRefused::Form);
    }
    let pairs = read_pairs(alloc, words)?;
    if pairs.is_empty() {
        return Err(LineRefused::Form);
    }
    Ok(pairs)
}
