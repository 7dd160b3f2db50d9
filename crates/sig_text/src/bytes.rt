//! The classes of bytes in DBC and LDF text.
ghost use Rattle.std.specs.Prelude.{◌≡◌};
ghost use Rattle.sig_text.specs.Bytes.{is_space, is_word_start, is_word_byte, is_sign};

/// Tab, line feed, vertical tab, form feed, carriage return or space.
pub(crate) fn is_space(byte: u8) -> bool
    ensures { result ≡ is_space byte }
{
    matches!(byte, 0x09..=0x0D | b' ')
}

/// What a word begins with.
pub(crate) fn is_word_start(byte: u8) -> bool
    ensures { result ≡ is_word_start byte }
{
    byte.is_ascii_alphabetic() || byte == b'_'
}

/// What a word goes on with.
pub(crate) fn is_word_byte(byte: u8) -> bool
    ensures { result ≡ is_word_byte byte }
{
    byte.is_ascii_alphanumeric() || byte == b'_'
}

/// The marks of the DBC and LDF grammars.
pub(crate) fn is_sign(byte: u8) -> bool
    ensures { result ≡ is_sign byte }
{
    b":;,|@+-()[]{}=.".contains(&byte)
}
