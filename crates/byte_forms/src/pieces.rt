//! Literals, and the fields between them.

ghost use Rattle.std.specs.Prelude.{◌≡◌};
ghost use Rattle.byte_forms.specs.Pieces.{after_literal, field_before, text_view, field_view};

use crate::{Class, run};

/// The text after the literal at its front.
pub fn after_literal<'a>(literal: &[u8], bytes: &'a [u8]) -> Option<&'a [u8]>
    ensures { text_view result ≡ after_literal literal.now bytes.now }
{
    bytes.strip_prefix(literal)
}

/// The longest run of the class at the front, and the text after the literal that follows it.
#[tactic(auto, unfolding(crate::specs::Pieces::field_before))]
pub fn field_before<'a>(
    class: Class,
    literal: &[u8],
    bytes: &'a [u8],
) -> Option<(&'a [u8], &'a [u8])>
    ensures { field_view result ≡ field_before class literal.now bytes.now }
{
    let (field, end) = run(class, bytes);
    let rest = after_literal(literal, end)?;
    Some((field, rest))
}
