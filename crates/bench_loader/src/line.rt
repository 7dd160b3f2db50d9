//! Words, appended to a buffer.

ghost use Rattle.std.specs.Prelude.{◌∷◌, ◌≡◌, ◌++◌, [], OnOk};
ghost use Rattle.std.specs.Fmt.{decimal};
ghost use Rattle.text_words.specs.SpacedWords.{text_of_words};
ghost use Rattle.exact_scale.specs.Buffer.{Extends};

use itoa::Buffer;
use std::alloc::AllocError;
use text_words::append_word;

/// Appends a word and a number.
pub(crate) fn append_place(out: &mut Vec<u8>, word: &[u8], at: u64) -> Result<(), AllocError>
    ensures ok { OnOk result (out.new.items ≡ out.old.items ++ text_of_words (word.now ∷ decimal at ∷ [])) }
    ensures grows { Extends out.old.items out.new.items }
{
    let mut digits = Buffer::new();
    out.extend_from_slice(word)?;
    append_word(out, digits.format(at).as_bytes())
}
