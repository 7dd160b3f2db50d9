//! Who is given the meaning of a frame, part by part.

ghost use Rattle.std.specs.Prelude.{ℕ, List, OnOk};
ghost use Rattle.bench_model.specs.declared.reading.SignalValue.{SignalValue};
ghost use Rattle.image_words.specs.Buffers.{value_in};

use crate::ValueBuffer;
use std::alloc::AllocError;

/// What `walk` gives the meaning of a frame: the name of the message, and then the value of each signal in the
/// order of the file.
pub trait Visit {
    /// What the name of the message makes of it.
    ghost names: { Self → List ℕ → Self → Type 0 };

    /// What a signal's value makes of it.
    ghost takes: { Self → SignalValue → Self → Type 0 };

    /// Takes the name of the message.
    fn message(&mut self, name: &[u8]) -> Result<(), AllocError>
        ensures { OnOk result (names self.old name.now self.new) };

    /// Takes a signal's value, whose texts are in buffers that the next value is written over.
    fn signal(&mut self, value: &ValueBuffer) -> Result<(), AllocError>
        ensures { OnOk result (takes self.old (value_in value.now) self.new) };
}
