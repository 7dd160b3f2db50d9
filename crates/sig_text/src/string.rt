//! Where a string at the front of a text ends.
ghost use Rattle.std.specs.Prelude.{◌≡◌, ℕ, ◌≤◌, length, slice_index, take, IfSome, IfNone};
ghost use Rattle.sig_text.specs.Bytes.{quote};
ghost use Rattle.sig_text.specs.Lexemes.{IsString};

/// The length of the string that the quote at the front opens.
pub(crate) fn string_len(text: &[u8]) -> Option<usize>
    requires { slice_index text.now 0 ≡ quote }
    ensures within { IfSome result (λ len. len ≤ length text.now) }
    ensures found { IfSome result (λ len. IsString (take len text.now)) }
    ensures none { IfNone result ((len : ℕ) → len ≤ length text.now → ¬ IsString (take len text.now)) }
{
    for place in 1..text.len() {
        // A backslash takes the quote behind it into the content, whatever is before the backslash.
        if text[place] == b'"' && text[place - 1] != b'\\' {
            return Some(place + 1);
        }
    }
    None
}
