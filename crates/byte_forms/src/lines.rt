//! The lines of a text.

ghost use Rattle.std.specs.Prelude.{◌≡◌, ◌<◌, ◌↔◌, [], ◌∷◌, length, IsNone, IfSome};
ghost use Rattle.byte_forms.specs.Lines.{all_lines, IsCut};

use crate::{Class, run};

/// The first line of the text, without its line feed, and the text after that. A text that isn't
/// empty has a line, and no line feed needs to be at its end.
pub fn next_line(bytes: &[u8]) -> Option<(&[u8], &[u8])>
    ensures none { IsNone result ↔ (bytes.now ≡ []) }
    ensures line { IfSome result (λ split. all_lines bytes.now ≡ split.0.now ∷ all_lines split.1.now) }
    ensures cut { IfSome result (λ split. IsCut bytes.now split.0.now split.1.now) }
    ensures shorter { IfSome result (λ split. length split.1.now < length bytes.now) }
{
    if bytes.is_empty() {
        return None;
    }
    let (line, end) = run(Class::LineByte, bytes);
    match end {
        [] => Some((line, end)),
        [_, rest @ ..] => Some((line, rest)),
    }
}
