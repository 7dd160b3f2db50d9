//! Reading wants.

ghost use Rattle.std.specs.Prelude.{◌≡◌, position, [], ◌∷◌, ◌++◌, OnOk, ◌⊎◌, ◌+◌, ◌<◌, ◌^◌, ℕ, List, length, Ok, Err, IfOk, IfErr};
ghost use Rattle.std.specs.Str.{bytes_eq};
ghost use Rattle.byte_forms.specs.Lines.{all_lines};
ghost use Rattle.text_words.specs.Words.{words_of};
ghost use Rattle.subscriber_text.specs.WantLines.{format_of, format_number, want_at, want_of, want_named, want_line, lines_wants, in_format, asked};
ghost use Rattle.subscriber_text.specs.WantView.{wants_view, name_of, name_view};
ghost use Rattle.subscriber_text.specs.LineView.{line_view};

use crate::want::NamedWant;
use crate::{Wants, WantsFault};
use bench_model::Text;
use byte_forms::next_line;
use std::alloc::{AllocError, Global};
use text_words::{next_word, without_return};

/// What a line says that is to be a want.
#[derive(Clone, Copy)]
pub(crate) enum WantLine<'a> {
    Want {
        bus: usize,
        message: Option<&'a [u8]>,
        signal: Option<&'a [u8]>,
    },
    /// A want of a bus that is not there.
    OfNoBus,
    OtherForm,
}

/// The place of the first bus of this name.
fn place_of(names: &[Text], bus: &[u8]) -> Option<usize>
    ensures { result ≡ position (λ name. bytes_eq name bus.now) names.now }
{
    for (i, name) in names.iter().enumerate() {
        if name.bytes() == bus {
            return Some(i);
        }
    }
    None
}

/// The want of the bus of this name.
fn want_of<'a>(
    names: &[Text],
    bus: &[u8],
    message: Option<&'a [u8]>,
    signal: Option<&'a [u8]>,
) -> WantLine<'a>
    ensures { line_view result ≡ want_of names.now bus.now (name_of message.entry) (name_of signal.entry) }
{
    match place_of(names, bus) {
        Some(bus) => WantLine::Want {
            bus,
            message,
            signal,
        },
        None => WantLine::OfNoBus,
    }
}

/// The want that words behind `WANT` name.
fn want_named<'a>(names: &[Text], words: &'a [u8]) -> WantLine<'a>
    ensures { line_view result ≡ want_named names.now (words_of words.now) }
{
    let Some((bus, words)) = next_word(words) else {
        return WantLine::OtherForm;
    };
    let Some((message, words)) = next_word(words) else {
        return want_of(names, bus, None, None);
    };
    let Some((signal, words)) = next_word(words) else {
        return want_of(names, bus, Some(message), None);
    };
    match next_word(words) {
        None => want_of(names, bus, Some(message), Some(signal)),
        Some(_) => WantLine::OtherForm,
    }
}

/// What a line says that is to be a want.
fn want_line<'a>(names: &[Text], line: &'a [u8]) -> WantLine<'a>
    ensures { line_view result ≡ want_line names.now (words_of line.now) }
{
    match next_word(line) {
        Some((b"WANT", words)) => want_named(names, words),
        Some(_) | None => WantLine::OtherForm,
    }
}

/// The format that a line names.
fn format_of(line: &[u8]) -> Option<u32>
    ensures { result ≡ format_of (words_of line.now) }
{
    let (word, words) = next_word(line)?;
    let (number, end) = next_word(words)?;
    match (word, next_word(end)) {
        (b"FORMAT", None) => format_number(number),
        _ => None,
    }
}

/// The number of a format.
fn format_number(word: &[u8]) -> Option<u32>
    ensures { result ≡ format_number word.now }
{
    match word {
        b"1" => Some(1),
        b"2" => Some(2),
        _ => None,
    }
}

/// What a text begins with: its format, how many lines name it, and the text behind them.
#[derive(Clone, Copy)]
struct Begun<'a> {
    format: u32,
    lines: u64,
    rest: &'a [u8],
}

/// The format of a text of wants.
fn begin(text: &[u8]) -> Begun<'_>
    ensures asked { (names : List (List ℕ)) → asked names text.now
        ≡ in_format result.format names (lines_wants names (result.lines + 1) (all_lines result.rest.now)) }
    ensures short { result.lines + length result.rest.now < 2 ^ 64 }
{
    let unnamed = Begun {
        format: 2,
        lines: 0,
        rest: text,
    };
    let Some((line, rest)) = next_line(text) else {
        return unnamed;
    };
    match format_of(without_return(line)) {
        None => unnamed,
        Some(format) => Begun {
            format,
            lines: 1,
            rest,
        },
    }
}

/// An own copy of a name, or none.
fn own_name(alloc: Global, name: Option<&[u8]>) -> Result<Option<Vec<u8>>, AllocError>
    ensures { IfOk result (λ own. name_view own ≡ name_of name.entry) }
{
    match name {
        None => Ok(None),
        Some(bytes) => Ok(Some(Vec::from_slice(alloc, bytes)?)),
    }
}

/// Appends a want.
fn push_want(
    alloc: Global,
    wants: &mut Vec<NamedWant>,
    bus: usize,
    message: Option<&[u8]>,
    signal: Option<&[u8]>,
) -> Result<(), AllocError>
    ensures { OnOk result (wants_view wants.new.items ≡ wants_view wants.old.items
        ++ record { bus = bus; message = name_of message.entry; signal = name_of signal.entry } ∷ []) }
{
    wants.push(NamedWant {
        bus,
        message: own_name(alloc, message)?,
        signal: own_name(alloc, signal)?,
    })?;
    Ok(())
}

/// The wants of the lines of a text that is behind so many lines.
fn read_lines(
    alloc: Global,
    names: &[Text],
    text: &[u8],
    lines: u64,
) -> Result<Vec<NamedWant>, WantsFault>
    requires { lines + length text.now < 2 ^ 64 }
    ensures ok { IfOk result (λ wants. lines_wants names.now (lines + 1) (all_lines text.now)
        ≡ Ok (wants_view wants.items)) }
    ensures fault { IfErr result (λ fault. (fault ≡ WantsFault.Memory) ⊎ (lines_wants names.now
        (lines + 1) (all_lines text.now) ≡ Err fault)) }
{
    let mut wants = Vec::new(alloc);
    let mut rest = text;
    let mut lines = lines;
    while let Some((line, after)) = next_line(rest) {
        match want_line(names, without_return(line)) {
            WantLine::Want {
                bus,
                message,
                signal,
            } => push_want(alloc, &mut wants, bus, message, signal)?,
            WantLine::OfNoBus => return Err(WantsFault::UnknownBus { n: lines + 1 }),
            WantLine::OtherForm => return Err(WantsFault::Line { n: lines + 1 }),
        }
        lines += 1;
        rest = after;
    }
    Ok(wants)
}

impl Wants {
    /// The wants that a text asks for, of buses of these names.
    pub fn read(alloc: Global, buses: &[Text], text: &[u8]) -> Result<Wants, WantsFault>
        ensures ok { IfOk result (λ wants. asked buses.now text.now ≡ Ok wants) }
        ensures fault { IfErr result (λ fault. (fault ≡ WantsFault.Memory) ⊎ (asked buses.now text.now
            ≡ Err fault)) }
    {
        let begun = begin(text);
        let wants = read_lines(alloc, buses, begun.rest, begun.lines)?;
        Ok(Wants::of(alloc, begun.format, buses, wants)?)
    }
}
