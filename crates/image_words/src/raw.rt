//! The raw value of one signal.

ghost use Rattle.std.specs.Prelude.{◌≡◌};
ghost use Rattle.bench_model.specs.declared.database.Signal.{Signal};
ghost use Rattle.bench_model.specs.Raw.{raw_value};
ghost use Rattle.image_words.specs.Image.{HasSignal, HasDecodable};
ghost use Rattle.image_words.specs.Knowledge.{SomeFits, Narrows, Holds};

use crate::Words;
use crate::rows::level_at;

/// The raw value of the signal whose row is at a place, in these bytes; none exactly where one of its
/// bits lies past them. It takes no memory.
pub fn raw_of<W: Words>(words: &mut W, row: usize, bytes: &[u8]) -> Option<i128>
    requires some { SomeFits (W.knows words.old) }
    requires signal { Holds (W.knows words.old) (λ image bench. (s : Signal) × HasDecodable image row s) }
    ensures narrows { Narrows (W.knows words.old) (W.knows words.new) }
    ensures reads { W.reads words.old words.new }
    ensures value { Holds (W.knows words.new)
        (λ image bench. (s : Signal) → HasSignal image row s → result ≡ raw_value s bytes.now) }
{
    level_at(words, row).shape.raw(bytes)
}
