//! Texts of an image, eight bytes a word.

ghost use Rattle.std.specs.Prelude.{◌≡◌, ◌++◌, List, OnOk};
ghost use Rattle.image_words.specs.Knowledge.{SomeFits};
ghost use Rattle.image_words.specs.Reading.{Learned, EachHas, EachIs, TextAt};

use crate::Words;
use crate::layout::{LENGTH_SPAN, WORD_BYTES};
use std::alloc::AllocError;

/// Appends the text of a reference.
pub(crate) fn append_text<W: Words>(
    words: &mut W,
    reference: u64,
    buffer: &mut Vec<u8>,
) -> Result<(), AllocError>
    requires some { SomeFits (W.knows words.old) }
    requires text { EachHas (W.knows words.old) (TextAt reference) }
    ensures learned { Learned W.knows W.reads words.old words.new }
    ensures text { OnOk result (EachIs (W.knows words.new) (TextAt reference)
        (λ image text. buffer.new.items ≡ buffer.old.items ++ text)) }
{
    let _size = words.len();
    let place = (reference / LENGTH_SPAN) as usize;
    let length = (reference % LENGTH_SPAN) as usize;
    let before = buffer.len();
    for i in 0..length.div_ceil(WORD_BYTES) {
        let word = words.word(place + i);
        buffer.extend_from_slice(&word.to_le_bytes())?;
    }
    buffer.truncate(before + length);
    Ok(())
}
