//! Blanks, and the words between them.
ghost use Rattle.std.specs.Prelude.{◌≡◌, ◌≤◌, length, IfSome};
ghost use Rattle.std.specs.List.{prefix_len};
ghost use Rattle.byte_forms.specs.Pieces.{text_view};
ghost use Rattle.candump_log.specs.Line.{is_blank};
ghost use Rattle.candump_log.specs.LineOf.{after_blanks, after_word, is_tail};

use byte_forms::{Class, run};

/// How many blanks are at the front.
#[inline(always)]
fn blank_len(bytes: &[u8]) -> usize
    ensures value { result ≡ prefix_len is_blank bytes.now }
    ensures within { result ≤ length bytes.now }
{
    for (i, byte) in bytes.iter().enumerate() {
        if Class::NonBlank.has(*byte) {
            return i;
        }
    }
    bytes.len()
}

/// The text after the blanks at the front, where there is one.
#[tactic(auto, unfolding(crate::specs::LineOf::after_blanks))]
#[inline(always)]
pub(crate) fn after_blanks(bytes: &[u8]) -> Option<&[u8]>
    ensures value { text_view result ≡ after_blanks bytes.now }
    ensures within { IfSome result (λ rest. length rest.now ≤ length bytes.now) }
{
    let count = blank_len(bytes);
    if count == 0 {
        return None;
    }
    Some(&bytes[count..])
}

/// The text after the word at the front, where there is one.
#[tactic(auto, unfolding(crate::specs::LineOf::after_word))]
#[inline(always)]
pub(crate) fn after_word(bytes: &[u8]) -> Option<&[u8]>
    ensures value { text_view result ≡ after_word bytes.now }
    ensures within { IfSome result (λ rest. length rest.now ≤ length bytes.now) }
{
    let (word, rest) = run(Class::NonBlank, bytes);
    if word.is_empty() {
        return None;
    }
    Some(rest)
}

/// Whether nothing is here, or a blank first.
#[inline(always)]
pub(crate) fn is_tail(bytes: &[u8]) -> bool
    ensures { result ≡ is_tail bytes.now }
{
    match bytes {
        [] => true,
        [first, ..] => !Class::NonBlank.has(*first),
    }
}
