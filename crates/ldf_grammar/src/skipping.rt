//! What is passed over: the rest of a header line, and sections that are not kept.

ghost use Rattle.std.specs.Prelude.{◌≡◌};
ghost use Rattle.token_forms.specs.Views.{rest_view};
ghost use Rattle.ldf_grammar.specs.Kinds.{mark_view};
ghost use Rattle.ldf_grammar.specs.StatementForms.{mark_of, after_line, after_section};

use sig_text::Token;
use token_forms::token_text;

/// What a token is where only braces and semicolons count.
#[derive(Clone, Copy, Debug, PartialEq, Eq)]
enum Mark {
    Opening,
    Closing,
    End,
    Other,
}

fn mark_of(text: &[u8]) -> Mark
    ensures { mark_view result ≡ mark_of text.now }
{
    if text == b"{".as_slice() {
        Mark::Opening
    } else if text == b"}".as_slice() {
        Mark::Closing
    } else if text == b";".as_slice() {
        Mark::End
    } else {
        Mark::Other
    }
}

/// The tokens after the first semicolon, where no brace is before it.
#[tactic(auto, unfolding(crate::specs::StatementForms::after_line))]
pub(crate) fn after_line<'a>(bytes: &[u8], tokens: &'a [Token]) -> Option<&'a [Token]>
    ensures { rest_view result ≡ after_line bytes.now tokens.now }
{
    let mut rest = tokens;
    while let [token, after @ ..] = rest {
        match mark_of(token_text(bytes, *token)) {
            Mark::End => return Some(after),
            Mark::Opening | Mark::Closing => return None,
            Mark::Other => rest = after,
        }
    }
    None
}

/// The tokens after the brace that closes a section whose opening brace was read.
#[tactic(auto, unfolding(crate::specs::StatementForms::after_section))]
pub(crate) fn after_section<'a>(bytes: &[u8], tokens: &'a [Token]) -> Option<&'a [Token]>
    ensures { rest_view result ≡ after_section bytes.now 0 tokens.now }
{
    let mut rest = tokens;
    let mut depth: usize = 0;
    while let [token, after @ ..] = rest {
        match mark_of(token_text(bytes, *token)) {
            Mark::Opening => depth += 1,
            Mark::Closing if depth == 0 => return Some(after),
            Mark::Closing => depth -= 1,
            Mark::End | Mark::Other => {}
        }
        rest = after;
    }
    None
}
