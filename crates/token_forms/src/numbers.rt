//! Numbers out of tokens.

ghost use Rattle.std.specs.Prelude.{◌≡◌, ◌≤◌, ◌++◌, IfOk, IfErr, IfSome};
ghost use Rattle.exact_scale.specs.Numeral.{Denotes};
ghost use Rattle.exact_scale.specs.Limits.{most_places, IsNarrow, IsRawValue};
ghost use Rattle.token_forms.specs.Numbers.{whole_at, digits_at, is_hexadecimal, number_in, number_up_to_at, is_sign_token, after_sign, signed_at, signed_text, is_minus, whole_value};
ghost use Rattle.token_forms.specs.Views.{found_view};
ghost use Rattle.token_forms.specs.Outcomes.{IsNoDecimal};

use crate::fault::NumberFault;
use crate::pieces::{number_at, token_text};
use byte_forms::{Class, Radix, is_all, number_up_to};
use exact_scale::{Decimal, DecimalFault, GREATEST_RAW, LEAST_RAW_SIZE, decimal_is_unique};
use sig_text::Token;
use std::alloc::{AllocError, Global};

/// A number without `0x` behind an optional `+` or `-`.
#[derive(Clone, Copy, Debug, PartialEq, Eq)]
pub struct SignedNumber {
    pub sign: Option<Token>,
    pub number: Token,
}

/// A number of digits alone that is at most the limit.
#[tactic(auto, unfolding(crate::specs::Numbers::whole_at))]
pub fn whole_at<'a>(bytes: &[u8], limit: u64, tokens: &'a [Token]) -> Option<(u64, &'a [Token])>
    ensures value { found_view result ≡ whole_at bytes.now limit tokens.now }
    ensures within { IfSome result (λ found. found.0 ≤ limit) }
{
    let (token, rest) = number_at(tokens)?;
    let number = number_up_to(Radix::Decimal, limit, token_text(bytes, token))?;
    Some((number, rest))
}

/// A number of digits alone, of any size.
#[tactic(auto, unfolding(crate::specs::Numbers::digits_at))]
pub fn digits_at<'a>(bytes: &[u8], tokens: &'a [Token]) -> Option<(Token, &'a [Token])>
    ensures { found_view result ≡ digits_at bytes.now tokens.now }
{
    let (token, rest) = number_at(tokens)?;
    let digits = token_text(bytes, token);
    if !digits.is_empty() && is_all(Class::DecimalDigit, digits) {
        Some((token, rest))
    } else {
        None
    }
}

/// Whether `0x` or `0X` begins the text.
fn is_hexadecimal(text: &[u8]) -> bool
    ensures { result ≡ is_hexadecimal text.now }
{
    matches!(text, [b'0', b'x' | b'X', ..])
}

/// The number of digits alone, or of `0x` and hexadecimal digits.
fn number_in(limit: u64, text: &[u8]) -> Option<u64>
    ensures value { result ≡ number_in limit text.now }
    ensures within { IfSome result (λ n. n ≤ limit) }
{
    if is_hexadecimal(text) {
        number_up_to(Radix::Hexadecimal, limit, &text[2..])
    } else {
        number_up_to(Radix::Decimal, limit, text)
    }
}

/// A number of digits alone, or of `0x` and hexadecimal digits, that is at most the limit.
#[tactic(auto, unfolding(crate::specs::Numbers::number_up_to_at))]
pub fn number_up_to_at<'a>(
    bytes: &[u8],
    limit: u64,
    tokens: &'a [Token],
) -> Option<(u64, &'a [Token])>
    ensures value { found_view result ≡ number_up_to_at bytes.now limit tokens.now }
    ensures within { IfSome result (λ found. found.0 ≤ limit) }
{
    let (token, rest) = number_at(tokens)?;
    let number = number_in(limit, token_text(bytes, token))?;
    Some((number, rest))
}

/// Whether the token is `+` or `-`.
fn is_sign_token(bytes: &[u8], token: Token) -> bool
    ensures { result ≡ is_sign_token bytes.now token }
{
    token_text(bytes, token) == b"+".as_slice() || token_text(bytes, token) == b"-".as_slice()
}

/// The number behind a sign that was read, or that is not there.
fn after_sign<'a>(
    bytes: &[u8],
    sign: Option<Token>,
    tokens: &'a [Token],
) -> Option<(SignedNumber, &'a [Token])>
    ensures { found_view result ≡ after_sign bytes.now sign tokens.now }
{
    let (number, rest) = number_at(tokens)?;
    if is_hexadecimal(token_text(bytes, number)) {
        None
    } else {
        Some((SignedNumber { sign, number }, rest))
    }
}

/// A number without `0x` behind an optional `+` or `-`.
#[tactic(auto, unfolding(crate::specs::Numbers::signed_at))]
pub fn signed_at<'a>(bytes: &[u8], tokens: &'a [Token]) -> Option<(SignedNumber, &'a [Token])>
    ensures { found_view result ≡ signed_at bytes.now tokens.now }
{
    let [token, rest @ ..] = tokens else {
        return None;
    };
    if is_sign_token(bytes, *token) {
        after_sign(bytes, Some(*token), rest)
    } else {
        after_sign(bytes, None, tokens)
    }
}

/// The sign and the number in one text.
fn signed_text(alloc: Global, sign: &[u8], number: &[u8]) -> Result<Vec<u8>, AllocError>
    ensures { IfOk result (λ text. text.items ≡ sign.now ++ number.now) }
{
    let mut text = Vec::with_capacity(alloc, 24)?;
    text.extend_from_slice(sign)?;
    text.extend_from_slice(number)?;
    Ok(text)
}

/// The decimal that a text denotes.
fn decimal_in(text: &[u8]) -> Result<Decimal, NumberFault>
    ensures value { IfOk result (λ decimal. Denotes text.now decimal.num decimal.k) }
    ensures narrow { IfOk result (λ decimal. (decimal.k ≤ most_places) × IsNarrow decimal.num) }
    ensures wide { IfErr result (IsNoDecimal text.now) }
{
    decimal_is_unique();
    match Decimal::read(text) {
        Ok(decimal) => Ok(decimal),
        Err(DecimalFault::Form) => Err(NumberFault::Wide),
        Err(DecimalFault::Wide) => Err(NumberFault::Wide),
    }
}

/// The decimal that a signed number denotes.
pub fn decimal_of(alloc: Global, bytes: &[u8], number: SignedNumber) -> Result<Decimal, NumberFault>
    ensures value { IfOk result (λ decimal. Denotes (signed_text bytes.now number) decimal.num decimal.k) }
    ensures narrow { IfOk result (λ decimal. (decimal.k ≤ most_places) × IsNarrow decimal.num) }
    ensures wide { IfErr result (IsNoDecimal (signed_text bytes.now number)) }
{
    let digits = token_text(bytes, number.number);
    match number.sign {
        None => decimal_in(digits),
        Some(sign) => {
            let text = signed_text(alloc, token_text(bytes, sign), digits)?;
            decimal_in(&text)
        }
    }
}

/// Whether the sign is there and is `-`.
fn is_minus(bytes: &[u8], sign: Option<Token>) -> bool
    ensures { result ≡ is_minus bytes.now sign }
{
    match sign {
        Some(token) => token_text(bytes, token) == b"-".as_slice(),
        None => false,
    }
}

/// The whole number among the raw values of signals that digits with an optional sign denote.
#[tactic(auto, unfolding(crate::specs::Numbers::whole_value))]
pub fn whole_value(bytes: &[u8], number: SignedNumber) -> Option<i128>
    ensures value { result ≡ whole_value bytes.now number }
    ensures raw { IfSome result IsRawValue }
{
    let digits = token_text(bytes, number.number);
    if is_minus(bytes, number.sign) {
        let size = number_up_to(Radix::Decimal, LEAST_RAW_SIZE, digits)?;
        Some(-i128::from(size))
    } else {
        let size = number_up_to(Radix::Decimal, GREATEST_RAW, digits)?;
        Some(i128::from(size))
    }
}
