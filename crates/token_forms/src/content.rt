//! What a string token says.
ghost use Rattle.std.specs.Prelude.{◌≡◌, ◌<◌, ◌++◌, length, OnOk, IfOk};
ghost use Rattle.std.specs.List.{flat_map};
ghost use Rattle.sig_text.specs.Content.{is_escape, encoded, unescaped, between_quotes, content_of};

use crate::pieces::span;
use sig_text::Token;
use std::alloc::{AllocError, Global};

/// Puts one byte of the content behind the text: in UTF-8 text as it is, else as the character U+0000 to
/// U+00FF of its number.
fn push_byte(text: &mut Vec<u8>, byte: u8, utf8: bool) -> Result<(), AllocError>
    ensures { OnOk result (text.new.items ≡ text.old.items ++ encoded utf8 byte) }
{
    if utf8 {
        text.push(byte)?;
    } else {
        let mut buffer = [0; 2];
        text.extend_from_slice(char::from(byte).encode_utf8(&mut buffer).as_bytes())?;
    }
    Ok(())
}

/// Whether a backslash is at this place, directly before a quote.
fn is_escape(content: &[u8], place: usize) -> bool
    requires { place < length content.now }
    ensures { result ≡ is_escape content.now place }
{
    content[place] == b'\\' && content.get(place + 1) == Some(&b'"')
}

/// The content between the quotes in UTF-8.
fn content_between(alloc: Global, content: &[u8], utf8: bool) -> Result<Vec<u8>, AllocError>
    ensures { IfOk result (λ text. text.items ≡ flat_map (encoded utf8) (unescaped content.now)) }
{
    let mut text = Vec::new(alloc);
    for (place, byte) in content.iter().enumerate() {
        if !is_escape(content, place) {
            push_byte(&mut text, *byte, utf8)?;
        }
    }
    Ok(text)
}

/// The bytes between the quotes.
fn between_quotes(bytes: &[u8], token: Token) -> &[u8]
    ensures { result.now ≡ between_quotes bytes.now token }
{
    if token.at < token.end {
        span(bytes, token.at + 1, token.end - 1)
    } else {
        &[]
    }
}

/// The content of a string token in UTF-8, as `string_of` of `sig_text` gives it; the token may be any.
pub fn string_content(
    alloc: Global,
    bytes: &[u8],
    token: Token,
    utf8: bool,
) -> Result<Vec<u8>, AllocError>
    ensures { IfOk result (λ text. text.items ≡ content_of bytes.now token utf8) }
{
    content_between(alloc, between_quotes(bytes, token), utf8)
}
