//! Lines of words, appended to a buffer.

ghost use Rattle.std.specs.Prelude.{◌∷◌, ◌≡◌, ◌++◌, OnOk};
ghost use Rattle.text_words.specs.SpacedWords.{text_of_words};
ghost use Rattle.subscriber_text.specs.ItemText.{line_of};
ghost use Rattle.subscriber_text.specs.WantView.{texts};
ghost use Rattle.exact_scale.specs.Buffer.{Extends};

use std::alloc::AllocError;
use text_words::append_word;

/// Appends words, parted by single blanks.
pub(crate) fn append_words(
    out: &mut Vec<u8>,
    first: &[u8],
    words: &[&[u8]],
) -> Result<(), AllocError>
    ensures ok { OnOk result (out.new.items ≡ out.old.items ++ text_of_words (first.now ∷ texts words.now)) }
    ensures grows { Extends out.old.items out.new.items }
{
    out.extend_from_slice(first)?;
    for word in words {
        append_word(out, word)?;
    }
    Ok(())
}

/// Appends a line of words.
pub(crate) fn append_line(
    out: &mut Vec<u8>,
    first: &[u8],
    words: &[&[u8]],
) -> Result<(), AllocError>
    ensures ok { OnOk result (out.new.items ≡ out.old.items ++ line_of (first.now ∷ texts words.now)) }
    ensures grows { Extends out.old.items out.new.items }
{
    append_words(out, first, words)?;
    out.push(b'\n')?;
    Ok(())
}
