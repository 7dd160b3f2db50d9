//! Classes of bytes, and the runs of them.

ghost use Rattle.std.specs.Prelude.{◌≡◌};

/// A class of bytes.
#[derive(Clone, Copy, Debug, PartialEq, Eq)]
pub enum Class {
    /// What is no blank of a candump log: no space, tab or carriage return.
    NonBlank,
    /// What is no line feed.
    LineByte,
    /// A byte of a name: a letter, a digit or `_`.
    WordByte,
    DecimalDigit,
    /// A hexadecimal digit of either case.
    HexadecimalDigit,
}

impl Class {
    ghost use Rattle.byte_forms.specs.Classes.{is_in};

    /// Whether the byte is of this class.
    pub fn has(self, byte: u8) -> bool
        ensures { result ≡ is_in self byte }
    {
        match self {
            Class::NonBlank => !(byte == b' ' || byte == b'\t' || byte == b'\r'),
            Class::LineByte => byte != b'\n',
            Class::WordByte => byte.is_ascii_alphanumeric() || byte == b'_',
            Class::DecimalDigit => byte.is_ascii_digit(),
            Class::HexadecimalDigit => byte.is_ascii_hexdigit(),
        }
    }
}
