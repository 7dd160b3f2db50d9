//! Words, appended to a buffer.

ghost use Rattle.std.specs.Prelude.{◌≡◌, ◌++◌, OnOk};
ghost use Rattle.exact_scale.specs.Buffer.{Extends};
ghost use Rattle.text_words.specs.SpacedWords.{behind_blank};

use std::alloc::AllocError;

/// Appends a blank and a word. After an error the blank may be in the buffer.
pub fn append_word(out: &mut Vec<u8>, word: &[u8]) -> Result<(), AllocError>
    ensures ok { OnOk result (out.new.items ≡ out.old.items ++ behind_blank word.now) }
    ensures grows { Extends out.old.items out.new.items }
{
    out.push(b' ')?;
    out.extend_from_slice(word)?;
    Ok(())
}
