//! The lines of a text.

ghost use Rattle.std.specs.Prelude.{◌≡◌, ◌<◌, ◌↔◌, [], ◌∷◌, length, IsNone, IfSome};
ghost use Rattle.text_words.specs.TextLines.{text_lines, without_return};

use byte_forms::{Class, run};

/// A line without the carriage return at its end.
pub fn without_return(line: &[u8]) -> &[u8]
    ensures { result.now ≡ without_return line.now }
{
    let len = line.len();
    if len > 0 && line[len - 1] == b'\r' {
        &line[..len - 1]
    } else {
        line
    }
}

/// The first line of the text, without its line feed and a carriage return before that, and the text behind it. A
/// text that isn't empty has a line, and no line feed needs to be at its end.
pub fn next_text_line(bytes: &[u8]) -> Option<(&[u8], &[u8])>
    ensures none { IsNone result ↔ (bytes.now ≡ []) }
    ensures line { IfSome result (λ split. text_lines bytes.now ≡ split.0.now ∷ text_lines split.1.now) }
    ensures shorter { IfSome result (λ split. length split.1.now < length bytes.now) }
{
    if bytes.is_empty() {
        return None;
    }
    let (line, end) = run(Class::LineByte, bytes);
    match end {
        [] => Some((line, end)),
        [_, rest @ ..] => Some((without_return(line), rest)),
    }
}
