//! What is between tokens: white space, the byte order mark and comments.
ghost use Rattle.std.specs.Prelude.{◌≡◌, ℕ, ◌<◌, ◌≤◌, length, slice_index, take, IfOk, IfErr, IfSome, IfNone, IsTrue};
ghost use Rattle.std.specs.List.{prefix_len};
ghost use Rattle.sig_text.specs.Bytes.{is_in_line};
ghost use Rattle.sig_text.specs.Blank.{IsBlank, IsBlockComment};
ghost use Rattle.sig_text.specs.Comments.{OpensBlockComment, BeginsBlockComment, BeginsComment, BeginsSpace};
ghost use Rattle.sig_text.specs.Tokens.{BeginsNoBlank, BeginsFault};

use crate::bytes::is_space;
use crate::fault::LexFault;

/// The comment at the front of a text.
pub(crate) enum Comment {
    /// Neither `//` nor `/*` is there.
    Absent,
    /// A comment with its end, of this length.
    Closed(usize),
    /// A `/*` without an end.
    Open,
}

/// The length of the line at the front, without its line feed.
fn line_len(text: &[u8]) -> usize
    ensures run { result ≡ prefix_len is_in_line text.now }
    ensures within { result ≤ length text.now }
{
    text.iter().take_while(|b| **b != b'\n').count()
}

/// The length of the comment that the `/*` at the front opens.
fn block_comment_len(text: &[u8]) -> Option<usize>
    requires { OpensBlockComment text.now }
    ensures found { IfSome result (λ len. BeginsBlockComment text.now len) }
    ensures none { IfNone result ((len : ℕ) → len ≤ length text.now → ¬ IsBlockComment (take len text.now)) }
{
    // The star of the end is not that of the `/*`.
    for place in 3..text.len() {
        if text[place] == b'/' && text[place - 1] == b'*' {
            return Some(place + 1);
        }
    }
    None
}

/// Reads the comment at the front: `//` up to a line feed or the end, or `/*` up to the next `*/`.
fn comment_at_start(text: &[u8]) -> Comment
    ensures { BeginsComment text.now result }
{
    match text {
        [b'/', b'/', ..] => Comment::Closed(line_len(text)),
        [b'/', b'*', ..] => match block_comment_len(text) {
            Some(len) => Comment::Closed(len),
            None => Comment::Open,
        },
        _ => Comment::Absent,
    }
}

/// The length of the white space at the front, one byte of it, or of the byte order mark; 0 where there is none.
fn space_len(text: &[u8], is_head: bool) -> usize
    ensures { BeginsSpace text.now is_head result }
{
    match text {
        [first, ..] if is_space(*first) => 1,
        [0xEF, 0xBB, 0xBF, ..] if is_head => 3,
        _ => 0,
    }
}

/// Where the blank ends that begins at this place of the text, if one does; the fault is a `/*` without an end.
pub(crate) fn blank_end(bytes: &[u8], at: usize, comments: bool) -> Result<Option<usize>, LexFault>
    requires { at < length bytes.now }
    ensures blank { IfOk result (λ found. IfSome found (λ end. IsBlank bytes.now comments at end)) }
    ensures none { IfOk result (λ found. IfNone found (BeginsNoBlank bytes.now comments at)) }
    ensures unclosed { IfErr result (λ fault. (fault ≡ LexFault.OpenComment at) × BeginsFault bytes.now comments fault) }
{
    let rest = &bytes[at..];
    if comments {
        match comment_at_start(rest) {
            Comment::Closed(len) => return Ok(Some(at + len)),
            Comment::Open => return Err(LexFault::OpenComment { at }),
            Comment::Absent => {}
        }
    }
    match space_len(rest, at == 0) {
        0 => Ok(None),
        len => Ok(Some(at + len)),
    }
}
