//! The lines of `Signals` and the frames of `Frames`.

ghost use Rattle.std.specs.Prelude.{◌≡◌, IfSome};
ghost use Rattle.token_forms.specs.Views.{found_view};
ghost use Rattle.ldf_grammar.specs.Sizes.{is_size};
ghost use Rattle.ldf_grammar.specs.LineForms.{next_word, next_number, initial_value, signal_size};
ghost use Rattle.ldf_grammar.specs.LineForms.{signal_line, frame_signal, frame_id, frame_length, frame};
ghost use Rattle.ldf_grammar.specs.Gives.{Gives};

use crate::parts::{Part, Stop, parts_until};
use crate::statement::{Frame, FrameSignal, SignalLine};
use bench_model::{LAST_START, MOST_BITS};
use sig_text::Token;
use std::alloc::Global;
use token_forms::{literal_at, number_up_to_at, word_at};

/// The greatest number of an LDF.
const MOST: u64 = 9_223_372_036_854_775_807;
/// The last frame identifier.
const LAST_ID: u64 = 63;
/// The most bytes of a frame.
const MOST_BYTES: u64 = 8;

/// A further word of a list: `,` and a word.
impl Part for Token {
    ghost form = { next_word };

    fn read<'a>(
        _alloc: Global,
        bytes: &[u8],
        tokens: &'a [Token],
    ) -> Result<(Token, &'a [Token]), Stop> {
        next_word(bytes, tokens).ok_or(Stop::Form)
    }
}

/// `,` and a word.
#[tactic(auto, unfolding(crate::specs::LineForms::next_word, crate::specs::Forms::followed_by, crate::specs::Forms::expect, crate::specs::Forms::say))]
fn next_word<'a>(bytes: &[u8], tokens: &'a [Token]) -> Option<(Token, &'a [Token])>
    ensures { found_view result ≡ next_word bytes.now tokens.now }
{
    let rest = literal_at(bytes, b",", tokens)?;
    word_at(rest)
}

/// A further number of a list: `,` and a number.
impl Part for u64 {
    ghost form = { next_number };

    fn read<'a>(
        _alloc: Global,
        bytes: &[u8],
        tokens: &'a [Token],
    ) -> Result<(u64, &'a [Token]), Stop> {
        next_number(bytes, tokens).ok_or(Stop::Form)
    }
}

/// `,` and a number.
#[tactic(auto, unfolding(crate::specs::LineForms::next_number, crate::specs::Forms::followed_by, crate::specs::Forms::expect, crate::specs::Forms::say))]
pub(crate) fn next_number<'a>(bytes: &[u8], tokens: &'a [Token]) -> Option<(u64, &'a [Token])>
    ensures { found_view result ≡ next_number bytes.now tokens.now }
{
    let rest = literal_at(bytes, b",", tokens)?;
    number_up_to_at(bytes, MOST, rest)
}

/// The initial value of a signal. Whether it is in braces, as that of a byte array.
#[tactic(auto, unfolding(crate::specs::LineForms::initial_value, crate::specs::LineForms::array_value, crate::specs::LineForms::number_value, crate::specs::Forms::either, crate::specs::Forms::followed_by, crate::specs::Forms::expect, crate::specs::Forms::say))]
fn initial_value<'a>(
    alloc: Global,
    bytes: &[u8],
    tokens: &'a [Token],
) -> Result<(bool, &'a [Token]), Stop>
    ensures { Gives result (initial_value bytes.now tokens.now) }
{
    let Some(rest) = literal_at(bytes, b"{", tokens) else {
        let (_value, rest) = number_up_to_at(bytes, MOST, tokens).ok_or(Stop::Form)?;
        return Ok((false, rest));
    };
    let (_first, rest) = number_up_to_at(bytes, MOST, rest).ok_or(Stop::Form)?;
    let (_others, rest) = parts_until::<u64>(alloc, bytes, b"}", rest)?;
    Ok((true, rest))
}

/// Whether a signal may have this size: a number 1 to 16 bits, a byte array 1 to 8 bytes.
fn is_size(size: u32, is_array: bool) -> bool
    ensures { result ≡ is_size size is_array }
{
    if is_array {
        size % 8 == 0 && 8 <= size && size <= 64
    } else {
        1 <= size && size <= 16
    }
}

/// The name and the size of a signal, up to the comma behind it.
#[tactic(auto, unfolding(crate::specs::LineForms::signal_size, crate::specs::Forms::followed_by, crate::specs::Forms::expect, crate::specs::Forms::say))]
fn signal_size<'a>(bytes: &[u8], tokens: &'a [Token]) -> Option<((Token, u32), &'a [Token])>
    ensures { found_view result ≡ signal_size bytes.now tokens.now }
{
    let (name, rest) = word_at(tokens)?;
    let rest = literal_at(bytes, b":", rest)?;
    let (size, rest) = number_up_to_at(bytes, u64::from(MOST_BITS), rest)?;
    let rest = literal_at(bytes, b",", rest)?;
    Some(((name, size as u32), rest))
}

/// The node that publishes a signal, behind a comma.
impl Part for SignalLine {
    ghost form = { signal_line };

    #[tactic(auto, unfolding(crate::specs::LineForms::signal_line, crate::specs::Forms::demand, crate::specs::Forms::followed_by, crate::specs::Forms::expect, crate::specs::Forms::say))]
    fn read<'a>(
        alloc: Global,
        bytes: &[u8],
        tokens: &'a [Token],
    ) -> Result<(SignalLine, &'a [Token]), Stop> {
        let ((name, size), rest) = signal_size(bytes, tokens).ok_or(Stop::Form)?;
        let (is_array, rest) = initial_value(alloc, bytes, rest)?;
        if !is_size(size, is_array) {
            return Err(Stop::Form);
        }
        let (_publisher, rest) = next_word(bytes, rest).ok_or(Stop::Form)?;
        let (_subscribers, rest) = parts_until::<Token>(alloc, bytes, b";", rest)?;
        Ok((
            SignalLine {
                name,
                size,
                is_array,
            },
            rest,
        ))
    }
}

/// A signal of a frame: its name, a comma, its place and a semicolon.
#[tactic(auto, unfolding(crate::specs::LineForms::frame_signal, crate::specs::Forms::followed_by, crate::specs::Forms::expect, crate::specs::Forms::say))]
fn frame_signal<'a>(bytes: &[u8], tokens: &'a [Token]) -> Option<(FrameSignal, &'a [Token])>
    ensures { found_view result ≡ frame_signal bytes.now tokens.now }
{
    let (name, rest) = word_at(tokens)?;
    let rest = literal_at(bytes, b",", rest)?;
    let (offset, rest) = number_up_to_at(bytes, u64::from(LAST_START), rest)?;
    let rest = literal_at(bytes, b";", rest)?;
    Some((
        FrameSignal {
            name,
            offset: offset as u32,
        },
        rest,
    ))
}

impl Part for FrameSignal {
    ghost form = { frame_signal };

    fn read<'a>(
        _alloc: Global,
        bytes: &[u8],
        tokens: &'a [Token],
    ) -> Result<(FrameSignal, &'a [Token]), Stop> {
        frame_signal(bytes, tokens).ok_or(Stop::Form)
    }
}

/// The name and the identifier of a frame, up to the comma behind it.
#[tactic(auto, unfolding(crate::specs::LineForms::frame_id, crate::specs::Forms::followed_by, crate::specs::Forms::expect, crate::specs::Forms::say))]
fn frame_id<'a>(bytes: &[u8], tokens: &'a [Token]) -> Option<((Token, u32), &'a [Token])>
    ensures { found_view result ≡ frame_id bytes.now tokens.now }
{
    let (name, rest) = word_at(tokens)?;
    let rest = literal_at(bytes, b":", rest)?;
    let (id, rest) = number_up_to_at(bytes, LAST_ID, rest)?;
    let rest = literal_at(bytes, b",", rest)?;
    Some(((name, id as u32), rest))
}

/// The publisher of a frame, which is not kept, and the length, up to the opening brace.
#[tactic(auto, unfolding(crate::specs::LineForms::frame_length, crate::specs::Forms::followed_by, crate::specs::Forms::expect, crate::specs::Forms::say))]
fn frame_length<'a>(bytes: &[u8], tokens: &'a [Token]) -> Option<(u32, &'a [Token])>
    ensures { found_view result ≡ frame_length bytes.now tokens.now }
{
    let (_publisher, rest) = word_at(tokens)?;
    let rest = literal_at(bytes, b",", rest)?;
    let (length, rest) = number_up_to_at(bytes, MOST_BYTES, rest)?;
    let rest = literal_at(bytes, b"{", rest)?;
    Some((length as u32, rest))
}

impl Part for Frame {
    ghost form = { frame };

    #[tactic(auto, unfolding(crate::specs::LineForms::frame, crate::specs::Forms::demand, crate::specs::Forms::followed_by, crate::specs::Forms::expect, crate::specs::Forms::say))]
    fn read<'a>(
        alloc: Global,
        bytes: &[u8],
        tokens: &'a [Token],
    ) -> Result<(Frame, &'a [Token]), Stop> {
        let ((name, id), rest) = frame_id(bytes, tokens).ok_or(Stop::Form)?;
        let (length, rest) = frame_length(bytes, rest).ok_or(Stop::Form)?;
        let (signals, rest) = parts_until::<FrameSignal>(alloc, bytes, b"}", rest)?;
        Ok((
            Frame {
                name,
                id,
                length,
                signals,
            },
            rest,
        ))
    }
}
