//! Texts as words, references to them, and sums of places. A sum that has no word is answered as out of memory, which no
//! image that fits in memory meets.

ghost use Rattle.std.specs.Prelude.{◌≡◌, ◌+◌, ◌*◌, ◌<◌, ◌++◌, length, take, drop, slice_index, OnOk, IfOk};
ghost use Rattle.std.specs.Int.{w64, cast_unsigned, from_le_bytes};
ghost use Rattle.bench_model.specs.Shifts.{AreBytes};
ghost use Rattle.image_words.specs.Layout.{padded};
ghost use Rattle.image_compiler.specs.Size.{text_size as size_of, optional_text_size as size_if_there};
ghost use Rattle.image_compiler.specs.Layout.{text_words, optional_text_words, reference as reference_of, optional_reference as reference_if_there};
ghost use Rattle.image_compiler.specs.Typed.{AreBytesIfThere};

use bench_model::Text;
use image_words::layout::{LENGTH_SPAN, WORD_BYTES};
use std::alloc::AllocError;

/// The sum, where it has a word.
pub(crate) fn sum(a: u64, b: u64) -> Result<u64, AllocError>
    ensures { IfOk result (λ n. n ≡ a + b) }
{
    match a.checked_add(b) {
        Some(n) => Ok(n),
        None => Err(AllocError),
    }
}

/// The place behind so many rows.
pub(crate) fn place_behind(place: u64, width: usize, rows: usize) -> Result<u64, AllocError>
    ensures { IfOk result (λ n. n ≡ place + width * rows) }
{
    match (width as u64).checked_mul(rows as u64) {
        Some(n) => sum(place, n),
        None => Err(AllocError),
    }
}

/// Words at the end.
pub(crate) fn append(out: &mut Vec<u64>, words: &[u64]) -> Result<(), AllocError>
    ensures { OnOk result (out.new.items ≡ out.old.items ++ words.now) }
{
    out.extend_from_slice(words)
}

/// The low 64 bits of a number that has 64 bits, or 63 and a sign.
pub(crate) fn low_word(number: i128) -> Result<u64, AllocError>
    ensures { IfOk result (λ word. word ≡ cast_unsigned w64 number) }
{
    if number < 0 {
        match i64::try_from(number) {
            Ok(signed) => Ok(signed.cast_unsigned()),
            Err(_) => Err(AllocError),
        }
    } else {
        match u64::try_from(number) {
            Ok(word) => Ok(word),
            Err(_) => Err(AllocError),
        }
    }
}

/// How many words so many bytes take.
fn bytes_size(bytes: &[u8]) -> u64
    ensures size { result ≡ size_of bytes.now }
    ensures typed { AreBytes bytes.now }
{
    bytes.len().div_ceil(WORD_BYTES) as u64
}

/// How many words a text takes.
pub(crate) fn text_size(text: &Text) -> u64
    ensures size { result ≡ size_of text.now }
    ensures typed { AreBytes text.now }
{
    bytes_size(text.bytes())
}

/// The same of a text that may be missing.
pub(crate) fn optional_text_size(text: &Option<Text>) -> u64
    ensures size { result ≡ size_if_there text.now }
    ensures typed { AreBytesIfThere text.now }
{
    match text {
        None => 0,
        Some(text) => text_size(text),
    }
}

/// The reference to a text at a place.
pub(crate) fn reference(place: u64, text: &Text) -> Result<u64, AllocError>
    ensures { IfOk result (λ n. n ≡ reference_of place text.now) }
{
    match place.checked_mul(LENGTH_SPAN) {
        Some(n) => sum(n, text.bytes().len() as u64),
        None => Err(AllocError),
    }
}

/// The same of a text that may be missing, to which the reference is 0.
pub(crate) fn optional_reference(place: u64, text: &Option<Text>) -> Result<u64, AllocError>
    ensures { IfOk result (λ n. n ≡ reference_if_there place text.now) }
{
    match text {
        None => Ok(0),
        Some(text) => reference(place, text),
    }
}

/// The byte at a place, or 0 past the end.
fn byte_at(bytes: &[u8], at: usize) -> u8
    ensures { result ≡ slice_index bytes.now at }
{
    if at < bytes.len() { bytes[at] } else { 0 }
}

/// The eight bytes from a place on as a word, with zeros past the end.
fn word_at(bytes: &[u8], at: usize) -> u64
    requires { at < length bytes.now }
    ensures { result ≡ from_le_bytes w64 (take 8 (drop at (padded bytes.now))) }
{
    u64::from_le_bytes([
        byte_at(bytes, at),
        byte_at(bytes, at + 1),
        byte_at(bytes, at + 2),
        byte_at(bytes, at + 3),
        byte_at(bytes, at + 4),
        byte_at(bytes, at + 5),
        byte_at(bytes, at + 6),
        byte_at(bytes, at + 7),
    ])
}

/// The bytes of a text, eight a word.
fn write_bytes(out: &mut Vec<u64>, bytes: &[u8]) -> Result<(), AllocError>
    ensures { OnOk result (out.new.items ≡ out.old.items ++ text_words bytes.now) }
{
    for i in 0..bytes.len().div_ceil(WORD_BYTES) {
        out.push(word_at(bytes, WORD_BYTES * i))?;
    }
    Ok(())
}

/// A text.
pub(crate) fn write_text(out: &mut Vec<u64>, text: &Text) -> Result<(), AllocError>
    ensures { OnOk result (out.new.items ≡ out.old.items ++ text_words text.now) }
{
    write_bytes(out, text.bytes())
}

/// A text that may be missing.
pub(crate) fn write_optional_text(out: &mut Vec<u64>, text: &Option<Text>) -> Result<(), AllocError>
    ensures { OnOk result (out.new.items ≡ out.old.items ++ optional_text_words text.now) }
{
    match text {
        None => Ok(()),
        Some(text) => write_text(out, text),
    }
}
