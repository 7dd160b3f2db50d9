//! A token: its kind and where it is.

/// The kind of a token.
#[derive(Clone, Copy, Debug, PartialEq, Eq)]
pub enum TokenKind {
    /// A letter or `_`, then letters, digits and `_`, all ASCII.
    Word,
    /// `0x1F`, `12`, `1.`, `.5`, `1.5e-3`; a sign before it is a token of its own.
    Number,
    /// A quote, the content and a quote.
    Str,
    /// One of the bytes `: ; , | @ + - ( ) [ ] { } = .`
    Sign,
}

/// A token of a text: the bytes from `at` up to `end`, counted from 0 and `end` excluded.
#[derive(Clone, Copy, Debug, PartialEq, Eq)]
pub struct Token {
    pub kind: TokenKind,
    pub at: usize,
    pub end: usize,
}
