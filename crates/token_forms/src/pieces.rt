//! Words, signs, numbers and strings at the front of a list of tokens.

ghost use Rattle.std.specs.Prelude.{◌≡◌, slice_range};
ghost use Rattle.token_forms.specs.Pieces.{token_text, literal_at, word_at, number_at, string_at};
ghost use Rattle.token_forms.specs.Views.{rest_view, found_view};

use sig_text::{Token, TokenKind};

/// The bytes from one place to another, as far as they are there.
pub(crate) fn span(bytes: &[u8], at: usize, end: usize) -> &[u8]
    ensures { result.now ≡ slice_range bytes.now at end }
{
    let end = end.min(bytes.len());
    let at = at.min(end);
    &bytes[at..end]
}

/// The bytes of a token.
pub fn token_text(bytes: &[u8], token: Token) -> &[u8]
    ensures { result.now ≡ token_text bytes.now token }
{
    span(bytes, token.at, token.end)
}

/// The tokens after the one with exactly these bytes.
#[tactic(auto, unfolding(crate::specs::Pieces::literal_at))]
pub fn literal_at<'a>(bytes: &[u8], literal: &[u8], tokens: &'a [Token]) -> Option<&'a [Token]>
    ensures { rest_view result ≡ literal_at bytes.now literal.now tokens.now }
{
    match tokens {
        [token, rest @ ..] if token_text(bytes, *token) == literal => Some(rest),
        _ => None,
    }
}

/// The word at the front, and the tokens after it.
#[tactic(auto, unfolding(crate::specs::Pieces::word_at))]
pub fn word_at(tokens: &[Token]) -> Option<(Token, &[Token])>
    ensures { found_view result ≡ word_at tokens.now }
{
    let [token, rest @ ..] = tokens else {
        return None;
    };
    match token.kind {
        TokenKind::Word => Some((*token, rest)),
        TokenKind::Number | TokenKind::Str | TokenKind::Sign => None,
    }
}

/// The number at the front, and the tokens after it.
#[tactic(auto, unfolding(crate::specs::Pieces::number_at))]
pub fn number_at(tokens: &[Token]) -> Option<(Token, &[Token])>
    ensures { found_view result ≡ number_at tokens.now }
{
    let [token, rest @ ..] = tokens else {
        return None;
    };
    match token.kind {
        TokenKind::Number => Some((*token, rest)),
        TokenKind::Word | TokenKind::Str | TokenKind::Sign => None,
    }
}

/// The string at the front, and the tokens after it.
#[tactic(auto, unfolding(crate::specs::Pieces::string_at))]
pub fn string_at(tokens: &[Token]) -> Option<(Token, &[Token])>
    ensures { found_view result ≡ string_at tokens.now }
{
    let [token, rest @ ..] = tokens else {
        return None;
    };
    match token.kind {
        TokenKind::Str => Some((*token, rest)),
        TokenKind::Word | TokenKind::Number | TokenKind::Sign => None,
    }
}
