//! What the statements of a DBC file say. Words and texts are tokens of the file.

use bench_model::Order;
use multiplex_tree::{List, Mark, Range};
use sig_text::Token;
use token_forms::SignedNumber;

/// Where a signal's bits are, and how they count.
#[derive(Clone, Copy, Debug, PartialEq, Eq)]
pub struct Place {
    pub start: u32,
    pub size: u32,
    pub order: Order,
    pub signed: bool,
}

/// A factor and an offset, as they are written.
#[derive(Clone, Copy, Debug, PartialEq, Eq)]
pub struct Scaling {
    pub factor: SignedNumber,
    pub offset: SignedNumber,
}

/// A signal (`SG_`).
#[derive(Clone, Copy, Debug, PartialEq, Eq)]
pub struct SignalForm {
    /// The place of its `SG_` in the file.
    pub at: usize,
    pub name: Token,
    pub mark: Mark,
    pub place: Place,
    pub scaling: Scaling,
    pub unit: Token,
}

/// The head of a message (`BO_`).
#[derive(Clone, Copy, Debug, PartialEq, Eq)]
pub struct Heading {
    /// The identifier, with bit 31 set where it is of 29 bits.
    pub id: u32,
    pub name: Token,
    pub byte_count: u32,
}

/// A message, and the signals directly below it.
#[derive(Debug, Drop)]
pub struct MessageForm {
    pub heading: Heading,
    pub signals: List<SignalForm>,
}

/// A value text: a number and its text.
#[derive(Clone, Copy, Debug, PartialEq, Eq)]
pub struct ValueText {
    pub number: SignedNumber,
    pub text: Token,
}

/// What a note says of a signal.
#[derive(Debug, Drop)]
pub enum Says {
    /// Value texts (`VAL_`).
    Texts(List<ValueText>),
    /// The value type (`SIG_VALTYPE_`): 1 and 2 are floating point.
    Type(u32),
    /// Extended multiplexing (`SG_MUL_VAL_`): the multiplexor, and for which of its raw values.
    Below(Token, List<Range>),
}

/// A statement about a signal, which it names by its message's identifier and its own name.
#[derive(Debug, Drop)]
pub struct Note {
    pub id: u32,
    pub signal: Token,
    pub says: Says,
}

/// A statement.
#[derive(Debug, Drop)]
pub enum Statement {
    /// One of which nothing is kept.
    Unkept,
    Message(MessageForm),
    Noted(Note),
}
