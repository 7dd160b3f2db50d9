//! Bytes in hexadecimal digits and inside quotation marks, appended to a buffer.

ghost use Rattle.std.specs.Prelude.{◌≡◌, false, ◌++◌, OnOk};
ghost use Rattle.subscriber_text.specs.ItemText.{hex_bytes, quoted_byte, quoted};
ghost use Rattle.subscriber_text.specs.Plain.{is_plain, escaped};
ghost use Rattle.exact_scale.specs.Buffer.{Extends};

use byte_forms::hex_of_byte;
use std::alloc::AllocError;

/// Appends two hexadecimal digits a byte.
pub(crate) fn append_hex(out: &mut Vec<u8>, bytes: &[u8]) -> Result<(), AllocError>
    ensures ok { OnOk result (out.new.items ≡ out.old.items ++ hex_bytes bytes.now) }
    ensures grows { Extends out.old.items out.new.items }
{
    for byte in bytes {
        out.extend_from_slice(&hex_of_byte(*byte))?;
    }
    Ok(())
}

/// Whether a byte is written unchanged inside quotation marks.
fn is_plain(byte: u8) -> bool
    ensures { result ≡ is_plain byte }
{
    !(byte == b'"' || byte == b'\\' || byte < 0x20 || byte == 0x7f)
}

/// Appends a byte that is not plain.
fn append_escape(out: &mut Vec<u8>, byte: u8) -> Result<(), AllocError>
    requires { is_plain byte ≡ false }
    ensures ok { OnOk result (out.new.items ≡ out.old.items ++ quoted_byte byte) }
    ensures grows { Extends out.old.items out.new.items }
{
    if byte == b'"' || byte == b'\\' {
        out.extend_from_slice(&[b'\\', byte])?;
    } else {
        let [high, low] = hex_of_byte(byte);
        out.extend_from_slice(&[b'\\', b'x', high, low])?;
    }
    Ok(())
}

/// Appends the bytes of a text as they are inside quotation marks, a run of plain bytes at a time.
fn append_escaped(out: &mut Vec<u8>, text: &[u8]) -> Result<(), AllocError>
    ensures ok { OnOk result (out.new.items ≡ out.old.items ++ escaped text.now) }
    ensures grows { Extends out.old.items out.new.items }
{
    let mut start = 0;
    for (i, byte) in text.iter().enumerate() {
        if !is_plain(*byte) {
            out.extend_from_slice(&text[start..i])?;
            append_escape(out, *byte)?;
            start = i + 1;
        }
    }
    out.extend_from_slice(&text[start..])?;
    Ok(())
}

/// Appends a text in quotation marks.
pub(crate) fn append_quoted(out: &mut Vec<u8>, text: &[u8]) -> Result<(), AllocError>
    ensures ok { OnOk result (out.new.items ≡ out.old.items ++ quoted text.now) }
    ensures grows { Extends out.old.items out.new.items }
{
    out.push(b'"')?;
    append_escaped(out, text)?;
    out.push(b'"')?;
    Ok(())
}
