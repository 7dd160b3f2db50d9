//! Each reader over one text.

use sig_text::tokens;
use std::test::*;
use token_forms::{
    decimal_of, digits_at, literal_at, number_at, number_up_to_at, signed_at, string_at,
    string_content, token_text, whole_at, whole_value, word_at,
};

#[test]
fn forms_are_read_one_after_another(rt: HostRuntime) -> Result<(), Fail> {
    let alloc = rt.alloc();
    let bytes = b"SG_ Speed : 007 0x1F - 2.50 \"a \\\" b\" 12.5".as_slice();
    let list = tokens(alloc, bytes, false)
        .ok()
        .ok_or("the text has tokens")?;
    let rest = literal_at(bytes, b"SG_", &list).ok_or("the word is there")?;
    let (name, rest) = word_at(rest).ok_or("a name follows")?;
    assert_eq!(rt; token_text(bytes, name), b"Speed".as_slice());
    let rest = literal_at(bytes, b":", rest).ok_or("a colon follows")?;
    assert!(rt; digits_at(bytes, rest).is_some());
    let (number, rest) = whole_at(bytes, 7, rest).ok_or("7 follows")?;
    assert_eq!(rt; number, 7);
    assert!(rt; signed_at(bytes, rest).is_none());
    let (number, rest) = number_up_to_at(bytes, 31, rest).ok_or("31 follows")?;
    assert_eq!(rt; number, 31);
    let (signed, rest) = signed_at(bytes, rest).ok_or("-2.5 follows")?;
    let decimal = decimal_of(alloc, bytes, signed)
        .ok()
        .ok_or("-2.5 is a decimal")?;
    assert_eq!(rt; decimal.num, -25);
    assert_eq!(rt; decimal.k, 1);
    assert!(rt; whole_value(bytes, signed).is_none());
    let (text, rest) = string_at(rest).ok_or("a string follows")?;
    let content = string_content(alloc, bytes, text, true)?;
    assert_eq!(rt; content.as_slice(), b"a \" b".as_slice());
    assert!(rt; number_at(rest).is_some());
    Ok(())
}
