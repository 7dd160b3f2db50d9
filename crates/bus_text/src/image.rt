//! A bench with its image: what frames mean, decoded over the words.
ghost use Rattle.std.specs.Prelude.{◌≡◌, ◌<◌, ◌≤◌, length, IfOk, IfErr, OnOk};
ghost use Rattle.bench_model.specs.ValidBench.{IsValidBench};
ghost use Rattle.bench_model.specs.Meaning.{bench_meaning};
ghost use Rattle.image_words.specs.Visits.{IsGivenMatch};
ghost use Rattle.image_compiler.specs.Size.{image_size};
ghost use Rattle.image_compiler.specs.Refusal.{IsRefusal};

use bench_model::{Ask, Bench, Plain};
use image_compiler::{CompileRefused, compile};
use image_words::{ValueBuffer, Visit, decode, walk, whole_list_fits};
use std::alloc::{AllocError, Global};
use std::marker::Model;

/// A valid bench with the words that encode it. Contracts see the bench.
#[derive(Drop)]
pub struct BenchImage {
    alloc: Global,
    bench: Bench,
    words: Vec<u64>,
    /// What a walk over the words reads a signal's value into.
    value: ValueBuffer,
}

impl Model for BenchImage {
    ghost use Rattle.bench_model.specs.declared.database.Bench.{Bench};

    ghost Value = { Bench };

    ghost use Rattle.bus_text.specs.ImageView.{IsImage};

    ghost view = { λ image. image.bench };

    ghost invariant = { IsImage };
}

impl BenchImage {
    /// The bench with its image, where that takes at most `room` words.
    pub fn compile(alloc: Global, bench: Bench, room: usize) -> Result<BenchImage, CompileRefused>
        requires valid { IsValidBench bench }
        ensures bench { IfOk result (λ image. image ≡ bench) }
        ensures room { OnOk result (image_size bench ≤ room) }
        ensures refused { IfErr result (IsRefusal room (image_size bench)) }
    {
        let words = compile(alloc, &bench, room)?;
        Ok(BenchImage {
            alloc,
            bench,
            words,
            value: ValueBuffer::new(alloc),
        })
    }

    /// The bench that the words encode.
    pub fn bench(&self) -> &Bench
        ensures bench { result.now ≡ self.now }
        ensures valid { IsValidBench self.now }
    {
        &self.bench
    }

    /// Gives a visitor what bytes mean on the bus at a place, decoded over the words, and says whether a message matches.
    pub(crate) fn walk<V: Visit>(
        &mut self,
        bus: u32,
        ask: Ask,
        bytes: &[u8],
        visitor: &mut V,
    ) -> Result<bool, AllocError>
        requires bus { bus < length self.old.buses }
        ensures given { IfOk result (λ matched. IsGivenMatch V.names V.takes visitor.old
            (bench_meaning self.old bus ask bytes.now) matched visitor.new) }
        ensures bench { self.new ≡ self.old }
    {
        whole_list_fits();
        walk(&mut self.words, bus, ask, bytes, &mut self.value, visitor)
    }

    /// What bytes mean on the bus at a place, decoded over the words, as a value of its own.
    pub(crate) fn meaning(
        &mut self,
        bus: u32,
        ask: Ask,
        bytes: &[u8],
    ) -> Result<Option<Plain>, AllocError>
        requires bus { bus < length self.old.buses }
        ensures plain { IfOk result (λ plain. plain ≡ bench_meaning self.old bus ask bytes.now) }
        ensures bench { self.new ≡ self.old }
    {
        whole_list_fits();
        decode(self.alloc, &mut self.words, bus, ask, bytes)
    }
}
