//! The tokens of a whole text.
ghost use Rattle.std.specs.Prelude.{◌≡◌, ℕ, ◌<◌, Bool, List, length, ◌⊎◌, IfOk, IfErr, IfSome, IfNone, IsOkAnd, IsErrOf, All};
ghost use Rattle.sig_text.specs.Tokens.{IsToken, BeginsNoTokenAt, IsTokens, IsLexFault, IsFaultOrMemory};

use crate::blank::blank_end;
use crate::fault::LexFault;
use crate::scan::token_at_start;
use crate::token::Token;
use std::alloc::Global;

/// The token that begins at this place of the text, the longest that there is.
fn token_at(bytes: &[u8], at: usize) -> Option<Token>
    requires { at < length bytes.now }
    ensures found { IfSome result (λ token. (token.at ≡ at) × IsToken bytes.now token) }
    ensures none { IfNone result (BeginsNoTokenAt bytes.now at) }
{
    let (kind, len) = token_at_start(&bytes[at..])?;
    Some(Token {
        kind,
        at,
        end: at + len,
    })
}

/// Reads the text from its head to its end, or to its first fault.
fn read_tokens(alloc: Global, bytes: &[u8], comments: bool) -> Result<Vec<Token>, LexFault>
    ensures ok { IfOk result (λ list. IsTokens bytes.now comments list.items) }
    ensures fault { IfErr result (IsFaultOrMemory bytes.now comments) }
{
    let mut list = Vec::new(alloc);
    let mut at = 0;
    while at < bytes.len() {
        if let Some(end) = blank_end(bytes, at, comments)? {
            at = end;
        } else if let Some(token) = token_at(bytes, at) {
            list.push(token)?;
            at = token.end;
        } else if bytes[at] == b'"' {
            return Err(LexFault::OpenString { at });
        } else {
            return Err(LexFault::Byte { at });
        }
    }
    Ok(list)
}

/// The tokens of a text in order, or its first lexical fault. With `comments`, `//` up to a line feed or the
/// end and `/*` up to the next `*/` are blanks.
pub fn tokens(alloc: Global, bytes: &[u8], comments: bool) -> Result<Vec<Token>, LexFault>
    // What is answered is true of the text.
    ensures ok { IfOk result (λ list. IsTokens bytes.now comments list.items) }
    ensures each { IfOk result (λ list. All (IsToken bytes.now) list.items) }
    ensures fault { IfErr result (IsFaultOrMemory bytes.now comments) }

    // What is true of the text is answered, unless memory runs out.
    ensures every_list { (list : List Token) → IsTokens bytes.now comments list →
        IsOkAnd result (λ found. found.items ≡ list) ⊎ IsErrOf result LexFault.Memory }
    ensures every_fault { (fault : LexFault) → IsLexFault bytes.now comments fault →
        IsErrOf result fault ⊎ IsErrOf result LexFault.Memory }
{
    read_tokens(alloc, bytes, comments)
}
