//! The numbers of an image's layout, which is this project's own: words of its rows, kinds, and what one word
//! holds beside something else.

/// Words of the header: the image's length, and the number of buses.
pub const HEADER_WORDS: usize = 2;

/// Words of a bus's row.
pub const BUS_WORDS: usize = 7;

/// Words of a message's row.
pub const MESSAGE_WORDS: usize = 5;

/// Words of a signal's row.
pub const SIGNAL_WORDS: usize = 12;

/// Words of a range's row.
pub const RANGE_WORDS: usize = 2;

/// Words of a label's row.
pub const LABEL_WORDS: usize = 3;

/// Words of an entry's row.
pub const ENTRY_WORDS: usize = 7;

/// Bytes of a text in one word.
pub const WORD_BYTES: usize = 8;

/// A reference to a text is its place times this, and its length, which has 16 bits.
pub const LENGTH_SPAN: u64 = 65_536;

/// An entry of an index is a number times this, and the position of its message: twice the most messages.
pub const POSITION_SPAN: u64 = 131_072;

/// What the number of an extended key has more than its identifier, which has 32 bits.
pub const EXTENDED_FROM: u64 = 1 << 32;

/// In the shape of a signal its start has 16 bits; behind them is its size.
pub const SIZE_WEIGHT: u64 = 1 << 16;

/// The size has eight bits.
pub const SIZE_SPAN: u64 = 1 << 8;

/// Behind the size is whether the signal is big-endian.
pub const ORDER_WEIGHT: u64 = 1 << 24;

/// And behind that whether it is signed.
pub const SIGN_WEIGHT: u64 = 1 << 25;

/// The kinds of buses.
pub const CAN_BUS: u64 = 0;

pub const J1939_BUS: u64 = 1;

pub const LIN_BUS: u64 = 2;

/// The kinds of codings.
pub const SCALED: u64 = 0;

pub const LISTED: u64 = 1;

/// The kinds of entries.
pub const LOGICAL: u64 = 0;

pub const PHYSICAL: u64 = 1;

pub const PLAIN: u64 = 2;
