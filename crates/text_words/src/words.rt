//! The words of a line.

ghost use Rattle.std.specs.Prelude.{◌≡◌, ◌<◌, ◌≤◌, ℕ, ◌∷◌, [], length, slice_index, not, MatchOption};
ghost use Rattle.text_words.specs.Words.{is_blank, words_of};

/// Whether a byte parts words.
fn is_blank(byte: u8) -> bool
    ensures { result ≡ is_blank byte }
{
    byte == b' ' || byte == b'\t'
}

/// How many bytes are before the first that is a blank, or that is none.
fn run_len(blank: bool, bytes: &[u8]) -> usize
    ensures within { result ≤ length bytes.now }
    ensures run { (k : ℕ) → k < result → is_blank (slice_index bytes.now k) ≡ blank }
    ensures end { result < length bytes.now → is_blank (slice_index bytes.now result) ≡ not blank }
{
    for (i, byte) in bytes.iter().enumerate() {
        if is_blank(*byte) != blank {
            return i;
        }
    }
    bytes.len()
}

/// The first word, and what is behind it.
pub fn next_word(line: &[u8]) -> Option<(&[u8], &[u8])>
    ensures { MatchOption result (words_of line.now ≡ []) (λ split. words_of line.now
        ≡ split.0.now ∷ words_of split.1.now) }
{
    let blanks = run_len(true, line);
    let text = &line[blanks..];
    if text.is_empty() {
        return None;
    }
    let end = run_len(false, text);
    Some((&text[..end], &text[end..]))
}
