//! The token at the front of a text.
ghost use Rattle.std.specs.Prelude.{◌≡◌, ◌<◌, ◌≤◌, length, IfSome, IfNone};
ghost use Rattle.std.specs.List.{prefix_len};
ghost use Rattle.sig_text.specs.Bytes.{is_word_byte};
ghost use Rattle.sig_text.specs.Prefixes.{BeginsToken, BeginsNoToken};

use crate::bytes::{is_sign, is_word_byte, is_word_start};
use crate::number::number_len;
use crate::string::string_len;
use crate::token::TokenKind;

/// The length of the run of letters, digits and `_` at the front.
fn word_len(text: &[u8]) -> usize
    ensures run { result ≡ prefix_len is_word_byte text.now }
    ensures within { result ≤ length text.now }
{
    text.iter().take_while(|b| is_word_byte(**b)).count()
}

/// The kind and the length of the token at the front, the longest that there is.
pub(crate) fn token_at_start(text: &[u8]) -> Option<(TokenKind, usize)>
    requires { 0 < length text.now }
    ensures found { IfSome result (λ token. BeginsToken text.now token.0 token.1) }
    ensures none { IfNone result (BeginsNoToken text.now) }
{
    let first = text[0];
    if is_word_start(first) {
        return Some((TokenKind::Word, word_len(text)));
    }
    if first == b'"' {
        let len = string_len(text)?;
        return Some((TokenKind::Str, len));
    }
    match number_len(text) {
        0 if is_sign(first) => Some((TokenKind::Sign, 1)),
        0 => None,
        len => Some((TokenKind::Number, len)),
    }
}
