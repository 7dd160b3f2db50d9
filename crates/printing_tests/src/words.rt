//! The worked forms of lines and words.

use std::alloc::Global;
use std::process::Abort;
use std::test::Fail;
use text_words::{next_text_line, next_word};

/// Appends the words of a line, each in `<` and `>`, and `|`.
fn append_words(out: &mut Vec<u8>, line: &[u8]) -> Result<(), Fail> {
    let mut words = line;
    for _ in 0..line.len() {
        let Some((word, behind)) = next_word(words) else {
            break;
        };
        out.push(b'<')?;
        out.extend_from_slice(word)?;
        out.push(b'>')?;
        words = behind;
    }
    out.push(b'|')?;
    Ok(())
}

/// The words of each line, one list after another with `|` between.
fn words_text(alloc: Global, text: &[u8]) -> Result<Vec<u8>, Fail> {
    let mut out = Vec::new(alloc);
    let mut rest = text;
    for _ in 0..text.len() {
        let Some((line, after)) = next_text_line(rest) else {
            break;
        };
        append_words(&mut out, line)?;
        rest = after;
    }
    Ok(out)
}

fn shows(rt: &impl Abort, alloc: Global, cases: &[(&[u8], &[u8])]) -> Result<(), Fail> {
    for (text, words) in cases {
        assert_eq!(rt; words_text(alloc, text)?.as_slice(), *words);
    }
    Ok(())
}

const LINES: [(&[u8], &[u8]); 9] = [
    (b"", b""),
    (b"a", b"<a>|"),
    (b"a\n", b"<a>|"),
    (b"a\r\nb", b"<a>|<b>|"),
    (b"a\r", b"<a\r>|"),
    (b"a\r\r\n", b"<a\r>|"),
    (b"\n\r\n\n", b"|||"),
    (b" \ta\t b  c ", b"<a><b><c>|"),
    (b"a\rb c\n\n", b"<a\rb><c>||"),
];

#[test]
fn lines_end_at_feeds_and_words_at_blanks(rt: HostRuntime) -> Result<(), Fail> {
    shows(&rt, rt.alloc(), &LINES)
}
