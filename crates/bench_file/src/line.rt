//! What a line of a bench file says.

ghost use Rattle.std.specs.Prelude.{◌≡◌, ◌≤◌, length, true};
ghost use Rattle.text_words.specs.Words.{words_of};
ghost use Rattle.bench_file.specs.LineMeaning.{longest_line, is_bus_name, is_file_name, kind_of, bus_of, bus_line, has_leading_zero, number_line, words_meaning, meaning_of};
ghost use Rattle.bench_file.specs.ReadingView.{line_view, text_view, name_view};

use crate::Setting;
use crate::setting::{greatest, least, setting_of};
use bench_model::Kind;
use byte_forms::{Class, Radix, is_all, number_up_to};
use std::str;
use text_words::next_word;

/// How many bytes a line may have.
const LONGEST_LINE: usize = 1_024;
/// How many bytes the name of a bus may have.
const LONGEST_BUS_NAME: usize = 32;
/// How many bytes the name of a file may have.
const LONGEST_FILE_NAME: usize = 255;

/// A bus as its line names it.
#[derive(Clone, Copy)]
pub(crate) struct NamedBus<'a> {
    pub name: &'a [u8],
    pub kind: Kind,
    pub log: &'a str,
    pub database: Option<&'a str>,
}

/// What a line says.
#[derive(Clone, Copy)]
pub(crate) enum ReadLine<'a> {
    PassedOver,
    Bus { bus: NamedBus<'a> },
    Number { setting: Setting, number: u32 },
}

/// Whether it is the name of a bus.
fn is_bus_name(name: &[u8]) -> bool
    ensures { result ≡ is_bus_name name.now }
{
    1 <= name.len() && name.len() <= LONGEST_BUS_NAME && is_all(Class::WordByte, name)
}

/// The text of a file's name, where the bytes are one: 1 to 255 bytes of UTF-8.
pub fn name_text(name: &[u8]) -> Option<&str>
    ensures { text_view result ≡ name_view name.now }
{
    if name.is_empty() || name.len() > LONGEST_FILE_NAME {
        return None;
    }
    str::from_utf8(name).ok()
}

/// The kind of bus that a word names.
fn kind_of(word: &[u8]) -> Option<Kind>
    ensures { result ≡ kind_of word.now }
{
    match word {
        b"can" => Some(Kind::Can),
        b"j1939" => Some(Kind::J1939),
        b"lin" => Some(Kind::Lin),
        _ => None,
    }
}

/// The bus that words name.
fn bus_of<'a>(
    name: &'a [u8],
    kind: &[u8],
    log: &'a [u8],
    database: Option<&'a [u8]>,
) -> Option<ReadLine<'a>>
    ensures { line_view result ≡ bus_of name.now (kind_of kind.now) log.now (text_view database.entry) }
{
    let kind = kind_of(kind)?;
    let log = name_text(log)?;
    let database = match database {
        Some(database) => Some(name_text(database)?),
        None => None,
    };
    if !is_bus_name(name) {
        return None;
    }
    Some(ReadLine::Bus {
        bus: NamedBus {
            name,
            kind,
            log,
            database,
        },
    })
}

/// What words behind `bus` say.
fn bus_line(words: &[u8]) -> Option<ReadLine<'_>>
    ensures { line_view result ≡ bus_line (words_of words.now) }
{
    let (name, words) = next_word(words)?;
    let (kind, words) = next_word(words)?;
    let (log, words) = next_word(words)?;
    let Some((database, words)) = next_word(words) else {
        return bus_of(name, kind, log, None);
    };
    match next_word(words) {
        None => bus_of(name, kind, log, Some(database)),
        Some(_) => None,
    }
}

/// Whether a zero is before other digits.
fn has_leading_zero(digits: &[u8]) -> bool
    ensures { result ≡ has_leading_zero digits.now }
{
    match digits {
        [b'0', rest @ ..] => !rest.is_empty(),
        _ => false,
    }
}

/// What words behind the word of a number say.
fn number_line(setting: Setting, words: &[u8]) -> Option<ReadLine<'_>>
    ensures { line_view result ≡ number_line (Some setting) (words_of words.now) }
{
    let (digits, words) = next_word(words)?;
    if next_word(words).is_some() || has_leading_zero(digits) {
        return None;
    }
    let number = number_up_to(Radix::Decimal, u64::from(greatest(setting)), digits)? as u32;
    if number < least(setting) {
        return None;
    }
    Some(ReadLine::Number { setting, number })
}

/// What the words of a line say.
fn words_meaning(line: &[u8]) -> Option<ReadLine<'_>>
    ensures { line_view result ≡ words_meaning (words_of line.now) }
{
    match next_word(line) {
        None => Some(ReadLine::PassedOver),
        Some((b"bus", words)) => bus_line(words),
        Some((word, words)) => number_line(setting_of(word)?, words),
    }
}

/// What a line says, or none where it is of another form.
pub(crate) fn meaning_of(line: &[u8]) -> Option<ReadLine<'_>>
    ensures { line_view result ≡ meaning_of line.now }
{
    if line.len() > LONGEST_LINE {
        return None;
    }
    match line {
        [b'#', ..] => Some(ReadLine::PassedOver),
        _ => words_meaning(line),
    }
}
