//! The command that words name.

ghost use Rattle.std.specs.Prelude.{[], ◌∷◌, ◌≡◌, None, Some, map, string_bytes};
ghost use Rattle.tool_words.specs.Operands.{is_option, is_dashes, operands, only_operand};
ghost use Rattle.tool_words.specs.Commands.{frame_count, command_of, is_ldf_name};
ghost use Rattle.tool_words.specs.WordView.{words_of, word_view, command_view};

use byte_forms::{Radix, number_up_to};

/// The most frames that are generated.
const MOST_FRAMES: u64 = 1_000_000;

/// A command of the tool.
#[derive(Clone, Copy, Debug, PartialEq, Eq)]
pub enum Command<'a> {
    /// `decode BENCH`: decodes the logs of a bench file.
    Decode { bench: &'a str },
    /// `check FILE`: reads a database.
    Check { file: &'a str },
    /// `mill N`: decodes so many generated frames.
    Mill { frames: u32 },
}

/// Whether a word is an option: it begins with `-` and is more than that.
fn is_option(word: &str) -> bool
    ensures { result ≡ is_option word.now }
{
    match word.as_bytes() {
        [b'-', rest @ ..] => !rest.is_empty(),
        _ => false,
    }
}

/// Whether a word is `--`.
fn is_dashes(word: &str) -> bool
    ensures { result ≡ is_dashes word.now }
{
    word == "--"
}

/// The operand of one word.
fn single(word: &str) -> Option<&str>
    ensures { word_view result ≡ only_operand (operands (word.now ∷ [])) }
{
    if is_dashes(word) || is_option(word) {
        None
    } else {
        Some(word)
    }
}

/// The operand of two words, one of which is `--`.
fn either<'a>(first: &'a str, second: &'a str) -> Option<&'a str>
    ensures { word_view result ≡ only_operand (operands (first.now ∷ second.now ∷ [])) }
{
    if is_dashes(first) {
        return Some(second);
    }
    if is_dashes(second) && !is_option(first) {
        Some(first)
    } else {
        None
    }
}

/// The only operand among these words.
fn operand(words: &[String]) -> Option<&str>
    ensures { word_view result ≡ only_operand (operands (words_of words.now)) }
{
    match words {
        [] => None,
        [word] => single(word.as_str()),
        [first, second] => either(first.as_str(), second.as_str()),
        [_, _, _, ..] => None,
    }
}

/// The number of frames that a word of digits says, from 1 to the limit.
fn frame_count(word: &str) -> Option<u32>
    ensures { result ≡ frame_count word.now }
{
    let count = number_up_to(Radix::Decimal, MOST_FRAMES, word.as_bytes())?;
    if count == 0 { None } else { Some(count as u32) }
}

/// The command that words name, or none where they are not taken.
pub fn command_of(words: &[String]) -> Option<Command<'_>>
    ensures { command_view result ≡ command_of (words_of words.now) }
{
    let [command, rest @ ..] = words else {
        return None;
    };
    match command.as_str() {
        "decode" => Some(Command::Decode {
            bench: operand(rest)?,
        }),
        "check" => Some(Command::Check {
            file: operand(rest)?,
        }),
        "mill" => Some(Command::Mill {
            frames: frame_count(operand(rest)?)?,
        }),
        _ => None,
    }
}

/// Whether a name ends in `.ldf`, in any ASCII case.
pub fn is_ldf_name(name: &str) -> bool
    ensures { result ≡ is_ldf_name name.now }
{
    let bytes = name.as_bytes();
    bytes[bytes.len().saturating_sub(4)..].eq_ignore_ascii_case(b".ldf")
}
