//! Words of which some are known.

ghost use Rattle.std.specs.Prelude.{◌≡◌, ◌<◌};
ghost use Rattle.image_words.specs.Knowledge.{Knowledge, Learns, SomeFits};

/// A list of words that is learned word by word. While an image is read the words that were read are known,
/// and the list is one of those that have these words.
pub trait Words {
    /// What is known of the list.
    ghost knows: { Self → Knowledge };

    /// What a value may be after some words of it were read: all that reading leaves alone is the same.
    ghost reads: { Self → Self → Type 0 };

    /// How many words there are.
    fn len(&self) -> usize
        ensures { result ≡ (knows self.now).size };

    /// The word at a place.
    fn word(&mut self, at: usize) -> u64
        requires { at < (knows self.old).size }
        ensures learns { Learns (knows self.old) (knows self.new) at result }
        ensures fits { SomeFits (knows self.old) → SomeFits (knows self.new) }
        ensures reads { reads self.old self.new };

    ghost same: { (w : Self) → reads w w };

    ghost chain: { (a : Self) (b : Self) (c : Self) → reads a b → reads b c → reads a c };
}

/// All words of a vector are known. Its number of buses is its word 1, or 0 where it has none.
impl Words for Vec<u64> {
    ghost use Rattle.std.specs.Prelude.{refl};
    ghost use Rattle.std.proofs.Common.{◌∙◌};
    ghost use Rattle.image_words.specs.Whole.{all_of};

    ghost knows = { λ v. all_of v.items };

    ghost reads = { λ v w. w ≡ v };

    ghost same = { λ w. refl };

    ghost chain = { λ a b c first second. second ∙ first };

    fn len(&self) -> usize {
        self.as_slice().len()
    }

    fn word(&mut self, at: usize) -> u64 {
        self.as_slice()[at]
    }
}
