//! What a string token says.
ghost use Rattle.std.specs.Prelude.{◌≡◌, ◌↔◌, ◌<◌, ◌++◌, length, OnOk, IfOk, IsTrue, IsUtf8};
ghost use Rattle.sig_text.specs.Content.{IsStringOf, is_escape, encoded, content_of};

use crate::token::Token;
use std::alloc::{AllocError, Global};

/// Puts one byte of the content behind the text: in UTF-8 text as it is, else as the character U+0000 to
/// U+00FF of its number.
fn push_byte(text: &mut Vec<u8>, byte: u8, utf8: bool) -> Result<(), AllocError>
    ensures { OnOk result (text.new.items ≡ text.old.items ++ encoded utf8 byte) }
{
    if utf8 {
        text.push(byte)?;
    } else {
        let mut buffer = [0; 2];
        text.extend_from_slice(char::from(byte).encode_utf8(&mut buffer).as_bytes())?;
    }
    Ok(())
}

/// Whether a backslash is at this place, directly before a quote.
fn is_escape(content: &[u8], place: usize) -> bool
    requires { place < length content.now }
    ensures { result ≡ is_escape content.now place }
{
    content[place] == b'\\' && content.get(place + 1) == Some(&b'"')
}

/// The content of a string token in UTF-8, where `utf8` says whether the whole of the bytes is UTF-8: of UTF-8
/// text the bytes between the quotes, else each byte as the character of its number. A backslash directly before
/// a quote is left out.
pub fn string_of(
    alloc: Global,
    bytes: &[u8],
    token: Token,
    utf8: bool,
) -> Result<Vec<u8>, AllocError>
    requires string { IsStringOf bytes.now token }
    requires whole { IsTrue utf8 ↔ IsUtf8 bytes.now }
    ensures content { IfOk result (λ text. text.items ≡ content_of bytes.now token utf8) }
    ensures utf8_text { IfOk result (λ text. IsUtf8 text.items) }
{
    let content = &bytes[token.at + 1..token.end - 1];
    let mut text = Vec::new(alloc);
    for (place, byte) in content.iter().enumerate() {
        if !is_escape(content, place) {
            push_byte(&mut text, *byte, utf8)?;
        }
    }
    Ok(text)
}
