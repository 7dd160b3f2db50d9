//! The meaning of a frame as a value of its own.

ghost use Rattle.std.specs.Prelude.{◌≡◌, ◌<◌, [], IfOk};
ghost use Rattle.bench_model.specs.Meaning.{bench_meaning};
ghost use Rattle.image_words.specs.Knowledge.{SomeFits, Narrows, Holds};

use crate::walking::walk;
use crate::{ValueBuffer, Visit, Words};
use bench_model::{Ask, Plain, SignalValue, Text};
use multiplex_tree::List;
use std::alloc::{AllocError, Global};

/// Collects the meaning that it is given.
#[derive(Drop)]
pub(crate) struct Collected {
    alloc: Global,
    name: Text,
    signals: Vec<SignalValue>,
}

impl Collected {
    /// Nothing yet.
    fn new(alloc: Global) -> Result<Collected, AllocError>
        ensures { IfOk result (λ collected. collected.signals.items ≡ []) }
    {
        let name = Text::of(alloc, b"")?;
        Ok(Collected {
            alloc,
            name,
            signals: Vec::new(alloc),
        })
    }
}

impl Visit for Collected {
    ghost use Rattle.image_words.specs.Buffers.{collects_name, collects_value};

    ghost names = { collects_name };

    ghost takes = { collects_value };

    fn message(&mut self, name: &[u8]) -> Result<(), AllocError> {
        self.name = Text::of(self.alloc, name)?;
        Ok(())
    }

    fn signal(&mut self, value: &ValueBuffer) -> Result<(), AllocError> {
        let own = value.copy(self.alloc)?;
        self.signals.push(own)?;
        Ok(())
    }
}

/// What bytes mean on a bus, where a message of its database matches: the meaning under the bench of each
/// list that fits when it returns, so of words that were never read nothing is asked. `bus` is the bus's
/// place in the bench.
pub fn decode<W: Words>(
    alloc: Global,
    words: &mut W,
    bus: u32,
    ask: Ask,
    bytes: &[u8],
) -> Result<Option<Plain>, AllocError>
    requires some { SomeFits (W.knows words.old) }
    requires bus { bus < (W.knows words.old).buses }

    // Also after out of memory.
    ensures narrows { Narrows (W.knows words.old) (W.knows words.new) }
    ensures reads { W.reads words.old words.new }

    ensures plain { IfOk result (λ plain. Holds (W.knows words.new)
        (λ image bench. plain ≡ bench_meaning bench bus ask bytes.now)) }
{
    let mut value = ValueBuffer::new(alloc);
    let mut collected = Collected::new(alloc)?;
    let matched = walk(words, bus, ask, bytes, &mut value, &mut collected)?;
    if !matched {
        return Ok(None);
    }
    let Collected { name, signals, .. } = collected;
    Ok(Some(Plain {
        name,
        signals: List::of(signals),
    }))
}
