//! The statements of an LDF, as far as they are kept. Names and strings are tokens of the text.

use multiplex_tree::List;
use sig_text::Token;
use token_forms::SignedNumber;

/// A line of a section `Signals`.
#[derive(Clone, Copy, Debug, PartialEq, Eq)]
pub struct SignalLine {
    pub name: Token,
    /// How many bits it has.
    pub size: u32,
    /// Whether it is a byte array: its initial value is in braces.
    pub is_array: bool,
}

/// A signal of a frame, and the place of its first bit.
#[derive(Clone, Copy, Debug, PartialEq, Eq)]
pub struct FrameSignal {
    pub name: Token,
    pub offset: u32,
}

/// A frame of a section `Frames`.
#[derive(Debug, Drop)]
pub struct Frame {
    pub name: Token,
    /// The frame identifier, 0 to 63.
    pub id: u32,
    /// The length in bytes.
    pub length: u32,
    pub signals: List<FrameSignal>,
}

/// An entry of an encoding.
#[derive(Debug, Drop)]
pub enum EncodingEntry {
    /// `logical_value`, for one raw value.
    Logical {
        raw: u64,
        text: Option<Token>,
    },
    /// `physical_value`, for the raw values from `low` to `high`.
    Physical {
        /// The place of the word `physical_value`.
        at: usize,
        low: u64,
        high: u64,
        scale: SignedNumber,
        offset: SignedNumber,
        unit: Option<Token>,
    },
    /// `bcd_value` or `ascii_value`.
    Plain,
}

/// An encoding of a section `Signal_encoding_types`.
#[derive(Debug, Drop)]
pub struct Encoding {
    pub name: Token,
    pub entries: List<EncodingEntry>,
}

/// A line of the section `Signal_representation`: which signals have an encoding. It names at least one.
#[derive(Debug, Drop)]
pub struct Representation {
    pub encoding: Token,
    pub first: Token,
    pub others: List<Token>,
}

/// A statement after the first one. Header lines and the sections that are not kept are `PassedOver`.
#[derive(Debug, Drop)]
pub enum Statement {
    Signals { lines: List<SignalLine> },
    Frames { frames: List<Frame> },
    Encodings { encodings: List<Encoding> },
    Representations { lines: List<Representation> },
    PassedOver,
}
