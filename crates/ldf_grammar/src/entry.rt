//! The entries of encodings, the encodings, and which signals have them.

ghost use Rattle.std.specs.Prelude.{◌≡◌};
ghost use Rattle.token_forms.specs.Views.{found_view};
ghost use Rattle.std.specs.Option.{option_map};
ghost use Rattle.ldf_grammar.specs.Sizes.{entry_kind};
ghost use Rattle.ldf_grammar.specs.Kinds.{kind_view};
ghost use Rattle.ldf_grammar.specs.LineForms.{last_string, next_number, next_signed, logical};
ghost use Rattle.ldf_grammar.specs.LineForms.{physical, entry, word_before, encoding, representation};

use crate::frames::next_number;
use crate::parts::{Part, Stop, parts_until};
use crate::statement::{Encoding, EncodingEntry, Representation};
use sig_text::Token;
use std::alloc::Global;
use token_forms::{SignedNumber, literal_at, signed_at, string_at, token_text, word_at};

/// What kind of entry a word begins.
#[derive(Clone, Copy, Debug, PartialEq, Eq)]
pub(crate) enum EntryKind {
    Logical,
    Physical,
    Plain,
}

/// The kind of entry that the word begins.
fn kind_of(word: &[u8]) -> Option<EntryKind>
    ensures { option_map kind_view result ≡ entry_kind word.now }
{
    if word == b"logical_value".as_slice() {
        Some(EntryKind::Logical)
    } else if word == b"physical_value".as_slice() {
        Some(EntryKind::Physical)
    } else if word == b"bcd_value".as_slice() || word == b"ascii_value".as_slice() {
        Some(EntryKind::Plain)
    } else {
        None
    }
}

/// The end of an entry: a semicolon, or a comma, a string and a semicolon.
#[tactic(auto, unfolding(crate::specs::LineForms::last_string, crate::specs::LineForms::string_end, crate::specs::LineForms::plain_end, crate::specs::Forms::either, crate::specs::Forms::followed_by, crate::specs::Forms::expect, crate::specs::Forms::say))]
fn last_string<'a>(bytes: &[u8], tokens: &'a [Token]) -> Option<(Option<Token>, &'a [Token])>
    ensures { found_view result ≡ last_string bytes.now tokens.now }
{
    let Some(rest) = literal_at(bytes, b",", tokens) else {
        let rest = literal_at(bytes, b";", tokens)?;
        return Some((None, rest));
    };
    let (string, rest) = string_at(rest)?;
    let rest = literal_at(bytes, b";", rest)?;
    Some((Some(string), rest))
}

/// A comma and a signed number.
#[tactic(auto, unfolding(crate::specs::LineForms::next_signed, crate::specs::Forms::followed_by, crate::specs::Forms::expect, crate::specs::Forms::say))]
fn next_signed<'a>(bytes: &[u8], tokens: &'a [Token]) -> Option<(SignedNumber, &'a [Token])>
    ensures { found_view result ≡ next_signed bytes.now tokens.now }
{
    let rest = literal_at(bytes, b",", tokens)?;
    signed_at(bytes, rest)
}

/// An entry for one raw value, behind its word.
#[tactic(auto, unfolding(crate::specs::LineForms::logical, crate::specs::Forms::followed_by, crate::specs::Forms::expect, crate::specs::Forms::say))]
fn logical<'a>(bytes: &[u8], tokens: &'a [Token]) -> Option<(EncodingEntry, &'a [Token])>
    ensures { found_view result ≡ logical bytes.now tokens.now }
{
    let (raw, rest) = next_number(bytes, tokens)?;
    let (text, rest) = last_string(bytes, rest)?;
    Some((EncodingEntry::Logical { raw, text }, rest))
}

/// An entry for a range of raw values, behind its word, which is at this place.
#[tactic(auto, unfolding(crate::specs::LineForms::physical, crate::specs::Forms::followed_by, crate::specs::Forms::expect, crate::specs::Forms::say))]
fn physical<'a>(
    bytes: &[u8],
    at: usize,
    tokens: &'a [Token],
) -> Option<(EncodingEntry, &'a [Token])>
    ensures { found_view result ≡ physical bytes.now at tokens.now }
{
    let (low, rest) = next_number(bytes, tokens)?;
    let (high, rest) = next_number(bytes, rest)?;
    let (scale, rest) = next_signed(bytes, rest)?;
    let (offset, rest) = next_signed(bytes, rest)?;
    let (unit, rest) = last_string(bytes, rest)?;
    Some((
        EncodingEntry::Physical {
            at,
            low,
            high,
            scale,
            offset,
            unit,
        },
        rest,
    ))
}

/// An entry.
#[tactic(auto, unfolding(crate::specs::LineForms::entry, crate::specs::LineForms::plain_end, crate::specs::Forms::followed_by, crate::specs::Forms::expect, crate::specs::Forms::say))]
fn entry<'a>(bytes: &[u8], tokens: &'a [Token]) -> Option<(EncodingEntry, &'a [Token])>
    ensures { found_view result ≡ entry bytes.now tokens.now }
{
    let (word, rest) = word_at(tokens)?;
    match kind_of(token_text(bytes, word))? {
        EntryKind::Logical => logical(bytes, rest),
        EntryKind::Physical => physical(bytes, word.at, rest),
        EntryKind::Plain => {
            let rest = literal_at(bytes, b";", rest)?;
            Some((EncodingEntry::Plain, rest))
        }
    }
}

impl Part for EncodingEntry {
    ghost form = { entry };

    fn read<'a>(
        _alloc: Global,
        bytes: &[u8],
        tokens: &'a [Token],
    ) -> Result<(EncodingEntry, &'a [Token]), Stop> {
        entry(bytes, tokens).ok_or(Stop::Form)
    }
}

/// A word and the literal behind it.
#[tactic(auto, unfolding(crate::specs::LineForms::word_before, crate::specs::Forms::followed_by, crate::specs::Forms::expect, crate::specs::Forms::say))]
fn word_before<'a>(
    bytes: &[u8],
    literal: &[u8],
    tokens: &'a [Token],
) -> Option<(Token, &'a [Token])>
    ensures { found_view result ≡ word_before bytes.now literal.now tokens.now }
{
    let (word, rest) = word_at(tokens)?;
    let rest = literal_at(bytes, literal, rest)?;
    Some((word, rest))
}

impl Part for Encoding {
    ghost form = { encoding };

    #[tactic(auto, unfolding(crate::specs::LineForms::encoding, crate::specs::Forms::demand, crate::specs::Forms::followed_by, crate::specs::Forms::expect, crate::specs::Forms::say))]
    fn read<'a>(
        alloc: Global,
        bytes: &[u8],
        tokens: &'a [Token],
    ) -> Result<(Encoding, &'a [Token]), Stop> {
        let (name, rest) = word_before(bytes, b"{", tokens).ok_or(Stop::Form)?;
        let (entries, rest) = parts_until::<EncodingEntry>(alloc, bytes, b"}", rest)?;
        Ok((Encoding { name, entries }, rest))
    }
}

impl Part for Representation {
    ghost form = { representation };

    #[tactic(auto, unfolding(crate::specs::LineForms::representation, crate::specs::Forms::demand, crate::specs::Forms::followed_by, crate::specs::Forms::expect, crate::specs::Forms::say))]
    fn read<'a>(
        alloc: Global,
        bytes: &[u8],
        tokens: &'a [Token],
    ) -> Result<(Representation, &'a [Token]), Stop> {
        let (encoding, rest) = word_before(bytes, b":", tokens).ok_or(Stop::Form)?;
        let (first, rest) = word_at(rest).ok_or(Stop::Form)?;
        let (others, rest) = parts_until::<Token>(alloc, bytes, b";", rest)?;
        Ok((
            Representation {
                encoding,
                first,
                others,
            },
            rest,
        ))
    }
}
