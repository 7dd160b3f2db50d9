use sig_text::{LexFault, Token, TokenKind, string_of, tokens};
use std::alloc::Global;
use std::process::Abort;
use std::test::Fail;

/// Appends a token, behind a comma where one is before it.
fn push_token(alloc: Global, text: &mut String, token: Token) -> Result<(), Fail> {
    if !text.is_empty() {
        text.push_str(", ")?;
    }
    let Token { kind, at, end } = token;
    text.push_str(format!(in alloc; "{kind:?} {at}-{end}")?.as_str())?;
    Ok(())
}

/// The tokens in words.
fn words_of(alloc: Global, list: &[Token]) -> Result<String, Fail> {
    let mut text = String::new(alloc);
    for token in list {
        push_token(alloc, &mut text, *token)?;
    }
    Ok(text)
}

/// A fault, with the place where it is.
fn fault_at(alloc: Global, fault: &str, at: usize) -> Result<String, Fail> {
    Ok(format!(in alloc; "{fault} {at}")?)
}

/// The tokens, or the fault, in words.
fn shown(alloc: Global, reading: Result<Vec<Token>, LexFault>) -> Result<String, Fail> {
    match reading {
        Ok(list) => words_of(alloc, &list),
        Err(LexFault::OpenString { at }) => fault_at(alloc, "open string", at),
        Err(LexFault::OpenComment { at }) => fault_at(alloc, "open comment", at),
        Err(LexFault::Byte { at }) => fault_at(alloc, "byte", at),
        Err(LexFault::Memory) => Ok(String::from_str(alloc, "memory")?),
    }
}

/// Texts that read alike with and without comments.
const ALIKE: &[(&[u8], &str)] = &[
    // White space, and the byte order mark at the head alone.
    (b"", ""),
    (b" ", ""),
    (b"\t\n\x0b\x0c\r ", ""),
    (b"\x08", "byte 0"),
    (b"a\x00", "byte 1"),
    (b"\xef\xbb\xbf", ""),
    (b"\xef\xbb\xbfBO_ 1", "Word 3-6, Number 7-8"),
    (b" \xef\xbb\xbf", "byte 1"),
    (b"\xef\xbb\xbf\xef\xbb\xbf", "byte 3"),
    (b"\xef\xbb", "byte 0"),
    (b"a\xef\xbb\xbf", "byte 1"),
    // Words.
    (b"VERSION", "Word 0-7"),
    (b"_", "Word 0-1"),
    (b"a_1 B2", "Word 0-3, Word 4-6"),
    (b"Vector__XXX", "Word 0-11"),
    (b"m1M", "Word 0-3"),
    (b"1a", "Number 0-1, Word 1-2"),
    (b"a-b", "Word 0-1, Sign 1-2, Word 2-3"),
    (b"a.b", "Word 0-1, Sign 1-2, Word 2-3"),
    (b"caf\xc3\xa9", "byte 3"),
    // Numbers, each as long as possible.
    (b"0", "Number 0-1"),
    (b"007", "Number 0-3"),
    (b"12.5", "Number 0-4"),
    (b"1.", "Number 0-2"),
    (b".5", "Number 0-2"),
    (b".", "Sign 0-1"),
    (b"..5", "Sign 0-1, Number 1-3"),
    (b"1..2", "Number 0-2, Number 2-4"),
    (b"1.2.3", "Number 0-3, Number 3-5"),
    (b"1e5", "Number 0-3"),
    (b"1E-005", "Number 0-6"),
    (b"1.e+3", "Number 0-5"),
    (b".5e3", "Number 0-4"),
    (b"1e", "Number 0-1, Word 1-2"),
    (b"1e+", "Number 0-1, Word 1-2, Sign 2-3"),
    (b"1e+x", "Number 0-1, Word 1-2, Sign 2-3, Word 3-4"),
    (b".e5", "Sign 0-1, Word 1-3"),
    (b"-40", "Sign 0-1, Number 1-3"),
    (b"+1e-2-3", "Sign 0-1, Number 1-5, Sign 5-6, Number 6-7"),
    (b"0x1F", "Number 0-4"),
    (b"0XaBcG", "Number 0-5, Word 5-6"),
    (b"0x", "Number 0-1, Word 1-2"),
    (b"0x1e+5", "Number 0-4, Sign 4-5, Number 5-6"),
    (b"00x1", "Number 0-2, Word 2-4"),
    (b"1x2", "Number 0-1, Word 1-3"),
    (b"0x1.5", "Number 0-3, Number 3-5"),
    // Strings: a quote behind a backslash is content, whatever is before the backslash.
    (b"\"\"", "Str 0-2"),
    (b"\"rpm\"", "Str 0-5"),
    (b"\"a\nb\"", "Str 0-5"),
    (b"\"\\\"\"", "Str 0-4"),
    (b"\"\\\"", "open string 0"),
    (b"\"\\\\\"", "open string 0"),
    (b"\"\\\\\"\"", "Str 0-5"),
    (b"\"a\\b\"", "Str 0-5"),
    (b"\"", "open string 0"),
    (b"a \"b", "open string 2"),
    (b"\"a\"\"b\"", "Str 0-3, Str 3-6"),
    (b"\"//\" /", "byte 5"),
    (b"\"/*\"", "Str 0-4"),
    (b"\"\xb0C\"", "Str 0-4"),
    // Signs.
    (
        b":;,|@+-()[]{}=.",
        "Sign 0-1, Sign 1-2, Sign 2-3, Sign 3-4, Sign 4-5, Sign 5-6, Sign 6-7, Sign 7-8, Sign 8-9, \
         Sign 9-10, Sign 10-11, Sign 11-12, Sign 12-13, Sign 13-14, Sign 14-15",
    ),
    (
        b"(1,-40)",
        "Sign 0-1, Number 1-2, Sign 2-3, Sign 3-4, Number 4-6, Sign 6-7",
    ),
    (
        b"[0|1.5]",
        "Sign 0-1, Number 1-2, Sign 2-3, Number 3-6, Sign 6-7",
    ),
    (
        b"0|16@1+",
        "Number 0-1, Sign 1-2, Number 2-4, Sign 4-5, Number 5-6, Sign 6-7",
    ),
    (b"!", "byte 0"),
    (b"a\\", "byte 1"),
    (b"a'b", "byte 1"),
    (b"#", "byte 0"),
    // A slash that begins no comment.
    (b"/ /", "byte 0"),
    (b"/a", "byte 0"),
    (b"1/2", "byte 1"),
    (b"\" // ", "open string 0"),
    // The first fault of several.
    (b"a ! \"b", "byte 2"),
    (b"\"a /* !", "open string 0"),
    (b"1 $ 2 %", "byte 2"),
    // DBC and LDF text.
    (
        b"VERSION \"\"\n\nBO_ 256 E",
        "Word 0-7, Str 8-10, Word 12-15, Number 16-19, Word 20-21",
    ),
    (
        b"SG_ S : 7|8@0- (0.5,-40)",
        "Word 0-3, Word 4-5, Sign 6-7, Number 8-9, Sign 9-10, Number 10-11, Sign 11-12, \
         Number 12-13, Sign 13-14, Sign 15-16, Number 16-19, Sign 19-20, Sign 20-21, Number 21-23, Sign 23-24",
    ),
    (
        b"LIN_speed = 19.2 kbps;",
        "Word 0-9, Sign 10-11, Number 12-16, Word 17-21, Sign 21-22",
    ),
];

/// Texts with comments, read without them.
const WITHOUT_COMMENTS: &[(&[u8], &str)] = &[
    (b"//", "byte 0"),
    (b"a // b\nc", "byte 2"),
    (b"a//b", "byte 1"),
    (b"/**/", "byte 0"),
    (b"/* a */b", "byte 0"),
    (b"/*/", "byte 0"),
    (b"/*/ */1", "byte 0"),
    (b"/***/1", "byte 0"),
    (b"a/*b", "byte 1"),
    (b"/* \"*/ \"", "byte 0"),
    (b"\"/*\" /* x", "byte 5"),
    (b"//\xff\n1", "byte 0"),
    (b"/* // */ 2", "byte 0"),
    (b"// /*\n3", "byte 0"),
    (b"/*\n*/ /", "byte 0"),
    (b"/* ! \"", "byte 0"),
];

/// The same texts, read with comments.
const WITH_COMMENTS: &[(&[u8], &str)] = &[
    (b"//", ""),
    (b"a // b\nc", "Word 0-1, Word 7-8"),
    (b"a//b", "Word 0-1"),
    (b"/**/", ""),
    (b"/* a */b", "Word 7-8"),
    (b"/*/", "open comment 0"),
    (b"/*/ */1", "Number 6-7"),
    (b"/***/1", "Number 5-6"),
    (b"a/*b", "open comment 1"),
    (b"/* \"*/ \"", "open string 7"),
    (b"\"/*\" /* x", "open comment 5"),
    (b"//\xff\n1", "Number 4-5"),
    (b"/* // */ 2", "Number 9-10"),
    (b"// /*\n3", "Number 6-7"),
    (b"/*\n*/ /", "byte 6"),
    (b"/* ! \"", "open comment 0"),
];

/// Reads each text with and without comments, as its row says.
fn reads(
    rt: &impl Abort,
    alloc: Global,
    comments: bool,
    rows: &[(&[u8], &str)],
) -> Result<(), Fail> {
    for (text, want) in rows {
        let reading = shown(alloc, tokens(alloc, text, comments))?;
        assert_eq!(rt; reading.as_str(), *want);
    }
    Ok(())
}

#[test]
fn texts_without_comments_read_alike_with_and_without(rt: HostRuntime) -> Result<(), Fail> {
    for comments in [false, true] {
        reads(&rt, rt.alloc(), comments, ALIKE)?;
    }
    Ok(())
}

#[test]
fn comments_are_read_where_they_may_come(rt: HostRuntime) -> Result<(), Fail> {
    reads(&rt, rt.alloc(), false, WITHOUT_COMMENTS)?;
    reads(&rt, rt.alloc(), true, WITH_COMMENTS)
}

/// The content of the first string of a text with comments.
fn first_content(alloc: Global, bytes: &[u8]) -> Result<Vec<u8>, Fail> {
    let utf8 = std::str::from_utf8(bytes).is_ok();
    for token in &tokens(alloc, bytes, true)? {
        if token.kind == TokenKind::Str {
            return Ok(string_of(alloc, bytes, *token, utf8)?);
        }
    }
    Ok(Vec::new(alloc))
}

/// Texts, and the content of their first string in UTF-8.
const CONTENTS: &[(&[u8], &[u8])] = &[
    (b"\"\"", b""),
    (b"1 \"rpm\" x", b"rpm"),
    (b"\"a\nb\"", b"a\nb"),
    // A backslash before a quote is left out, and every other one stays.
    (b"\"a\\\"b\"", b"a\"b"),
    (b"\"\\x\"", b"\\x"),
    (b"\"\\\\x\"", b"\\\\x"),
    (b"\"\\\\\"\"", b"\\\""),
    (b"\"\\\"\\\"\"", b"\"\""),
    // UTF-8 text stays, behind a byte order mark too.
    (b"\"\xc2\xb0C\"", b"\xc2\xb0C"),
    (b"\xef\xbb\xbf\"\xe2\x82\xac\"", b"\xe2\x82\xac"),
    // In any other text each byte is the character of its number.
    (b"\"\xb0C\"", b"\xc2\xb0C"),
    (
        b"\"\x7f\x80\xbf\xc0\xff\"",
        b"\x7f\xc2\x80\xc2\xbf\xc3\x80\xc3\xbf",
    ),
    (b"\"\xff\\\"\"", b"\xc3\xbf\""),
    // One byte in a comment makes the whole text no UTF-8.
    (b"\"\xc2\xb0C\" // \xb0", b"\xc3\x82\xc2\xb0C"),
];

fn says(rt: &impl Abort, alloc: Global, rows: &[(&[u8], &[u8])]) -> Result<(), Fail> {
    for (text, want) in rows {
        let content = first_content(alloc, text)?;
        assert_eq!(rt; content.as_slice(), *want);
    }
    Ok(())
}

#[test]
fn contents_are_in_utf8(rt: HostRuntime) -> Result<(), Fail> {
    says(&rt, rt.alloc(), CONTENTS)
}
