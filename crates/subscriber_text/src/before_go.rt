//! What a subscriber sends before it is sent anything.

ghost use Rattle.std.specs.Prelude.{◌≡◌, ◌≤◌, ◌&&◌, ◌||◌, ℕ, nat_lt, length};
ghost use Rattle.subscriber_text.specs.WantLines.{line_words};
ghost use Rattle.subscriber_text.specs.Parts.{fed_lines};
ghost use Rattle.subscriber_text.specs.BeforeGo.{before_go_limit, is_go_alone, counts_last, without_go, asking_of, wants_before_go};

use byte_forms::next_line;
use text_words::{next_word, without_return};

/// The most bytes up to the end of the line `GO`, that line with its line feed among them.
pub const BEFORE_GO_LIMIT: usize = 65_536;

/// What the first bytes of a subscriber say: lines of wants, and behind them the line `GO`.
#[derive(Clone, Copy, Debug, PartialEq, Eq)]
pub enum Asking {
    /// The line `GO` is there, behind so many bytes of wants.
    Go { wants: usize },
    /// More bytes are to come.
    Open,
    /// The input ended without that line.
    Gone,
    /// As many bytes as may come were sent without it; the last of them is in this line, from 1.
    Long { n: u64 },
}

/// Whether a line, without its line feed, has `GO` as its only word.
fn is_go(line: &[u8]) -> bool
    ensures { result ≡ is_go_alone (line_words line.now) }
{
    match next_word(without_return(line)) {
        Some((b"GO", words)) => next_word(words).is_none(),
        Some(_) | None => false,
    }
}

/// Whether a last line without its line feed counts.
fn counts_last(bytes: &[u8], ended: bool) -> bool
    ensures { result ≡ counts_last bytes.now ended }
{
    ended && bytes.len() < BEFORE_GO_LIMIT
}

/// Whether the first line of a text is `GO`: it has its line feed, or counts without.
fn begins_with_go(line: &[u8], text: &[u8], last: bool) -> bool
    ensures { result ≡ ((nat_lt (length line.now) (length text.now) || last)
        && is_go_alone (line_words line.now)) }
{
    (line.len() < text.len() || last) && is_go(line)
}

/// What the first bytes of an input say that have so many lines, none of them `GO`.
fn without_go(bytes: &[u8], ended: bool, lines: u64) -> Asking
    requires { lines ≡ length (fed_lines bytes.now) }
    ensures { result ≡ asking_of (without_go bytes.now ended) }
{
    if bytes.len() >= BEFORE_GO_LIMIT {
        return Asking::Long { n: lines };
    }
    if ended { Asking::Gone } else { Asking::Open }
}

/// What the first bytes of an input say, of which all were given where it has ended.
pub fn wants_before_go(bytes: &[u8], ended: bool) -> Asking
    requires { length bytes.now ≤ before_go_limit }
    ensures says { result ≡ wants_before_go bytes.now ended }
    ensures within { (n : ℕ) → result ≡ Asking.Go n → n ≤ length bytes.now }
{
    let last = counts_last(bytes, ended);
    let mut rest = bytes;
    let mut lines: u64 = 0;
    'lines: while let Some((line, after)) = next_line(rest) {
        if begins_with_go(line, rest, last) {
            return Asking::Go {
                wants: bytes.len() - rest.len(),
            };
        }
        lines += 1;
        rest = after;
    }
    without_go(bytes, ended, lines)
}
