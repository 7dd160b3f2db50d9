//! What a line of a log says.
ghost use Rattle.std.specs.Prelude.{◌≡◌, ◌<◌, ◌≤◌, ◌↔◌, length, IsNone, IfSome};
ghost use Rattle.candump_log.specs.Line.{line_from, IsLine, IsInterface, KeepsLimits};
ghost use Rattle.candump_log.specs.LineOf.{parts_of, read_line, line_of, interface_of};

use crate::blanks::{after_blanks, after_word, is_tail};
use crate::frame::{body_prefix, key_prefix};
use crate::laws::one_line;
use crate::payload::Payload;
use crate::stamp::stamp_prefix;
use bench_model::Key;

/// The most bytes that a line may have.
pub(crate) const LINE_LIMIT: usize = 512;

/// The identifiers of error frames begin here: they have bit 29.
const ERROR_BIT: u32 = 0x2000_0000;

/// A line of a log. `micros` are microseconds since the log's epoch.
#[derive(Debug, Drop)]
pub enum LogLine {
    /// A classic or CAN FD frame with its data.
    Frame {
        micros: u64,
        key: Key,
        payload: Payload,
    },
    /// A remote frame.
    Remote {
        micros: u64,
        key: Key,
    },
    /// An error frame, with the whole number of its eight digits.
    Error {
        micros: u64,
        id: u32,
    },
    /// A line of no such form.
    Bad,
}

/// The bytes of a text from `at` up to `end`.
#[derive(Clone, Copy, Debug, PartialEq, Eq)]
pub struct Span {
    pub at: usize,
    pub end: usize,
}

/// The line with this stamp, identifier and data; a remote frame has none.
#[inline(always)]
fn line_from(micros: u64, key: Key, content: Option<Payload>) -> LogLine
    ensures { result ≡ line_from micros key content }
{
    if key.id >= ERROR_BIT {
        return LogLine::Error { micros, id: key.id };
    }
    match content {
        Some(payload) => LogLine::Frame {
            micros,
            key,
            payload,
        },
        None => LogLine::Remote { micros, key },
    }
}

/// The interface's place and the line, where the text is no bad line.
#[tactic(auto, unfolding(crate::specs::LineOf::parts_of))]
#[inline(always)]
fn parts_of(text: &[u8]) -> Option<(Span, LogLine)>
    ensures value { result ≡ parts_of text.now }
    ensures within { IfSome result (λ parts. (parts.0.at ≤ parts.0.end) × (parts.0.end ≤ length text.now)) }
{
    let (micros, rest) = stamp_prefix(text)?;
    let word = after_blanks(rest)?;
    let behind = after_word(word)?;
    let field = after_blanks(behind)?;
    let (key, body) = key_prefix(field)?;
    let (content, tail) = body_prefix(body)?;
    if !is_tail(tail) {
        return None;
    }
    let span = Span {
        at: text.len() - word.len(),
        end: text.len() - behind.len(),
    };
    Some((span, line_from(micros, key, content)))
}

/// The same of a text that may be too long.
#[tactic(auto, unfolding(crate::specs::LineOf::read_line))]
#[inline(always)]
pub(crate) fn read_line(text: &[u8]) -> Option<(Span, LogLine)>
    ensures value { result ≡ read_line text.now }
    ensures within { IfSome result (λ parts. (parts.0.at ≤ parts.0.end) × (parts.0.end ≤ length text.now)) }
{
    if text.len() > LINE_LIMIT {
        return None;
    }
    parts_of(text)
}

/// What a text says as a line of a log, without its line feed. It refuses nothing.
///
/// - `(1.000002) can0 123#A00F`: 3 digits are an 11-bit identifier; the bytes A0 0F at 1,000,002 microseconds.
/// - `(1.000000) can0 18FEF100#`: 8 digits are a 29-bit identifier; no bytes.
/// - `(1.000000) can0 123#11.22.33`: a dot may be between two bytes; the bytes 11 22 33.
/// - `(1.000000) can0 123#1122334455667788_9`: a length code behind the bytes says nothing more.
/// - `(1.000000) can0 123#R`: a remote frame.
/// - `(1.000000) can0 123#R7_f`: a remote frame, too; its length and its length code are passed over.
/// - `(1.000000) can0 123##1AABB`: a CAN FD frame; its flags 1 are passed over, the bytes are AA BB.
/// - `(1.000000) can0 20000004#0000000000000000`: bit 29 is an error frame's, here 0x20000004.
/// - `(1.000000) can0 123#01 T R`: further words behind a blank are passed over.
/// - `(1.000000) can0 800#01`: a bad line, as all others: 3 digits are at most 7FF.
#[tactic(auto, unfolding(crate::specs::LineOf::line_of))]
pub fn line(bytes: &[u8]) -> LogLine
    ensures value { result ≡ line_of bytes.now }
    ensures says { IsLine bytes.now result }
    ensures limits { KeepsLimits result }
{
    one_line();
    match read_line(bytes) {
        Some((_, line)) => line,
        None => LogLine::Bad,
    }
}

/// Where the interface's word is in a line, none of a bad line.
#[tactic(auto, unfolding(crate::specs::LineOf::interface_of))]
pub fn interface(bytes: &[u8]) -> Option<Span>
    ensures value { result ≡ interface_of bytes.now }
    ensures none { IsNone result ↔ IsLine bytes.now LogLine.Bad }
    ensures place { IfSome result (IsInterface bytes.now) }
    ensures within { IfSome result (λ span. (span.at < span.end) × (span.end ≤ length bytes.now)) }
{
    one_line();
    let (span, _) = read_line(bytes)?;
    Some(span)
}
