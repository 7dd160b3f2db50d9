//! A small image, written by hand from the layout.

ghost use Rattle.std.specs.Prelude.{◌≡◌, IfOk};

use bench_model::{Ask, Key};
use image_words::{ValueBuffer, Visit, decode, raw_of, walk};
use std::alloc::{AllocError, Global};
use std::test::*;

/// One bus with one message of identifier 5, and in it a big-endian signal of 16 bits from bit 7 on, whose
/// unit has nine bytes.
const IMAGE: [u64; 32] = [
    32,
    1,
    // the bus
    0,
    27 * 65_536 + 1,
    1,
    9,
    26,
    0,
    0,
    // the message
    5,
    28 * 65_536 + 1,
    8,
    1,
    14,
    // the signal
    29 * 65_536 + 1,
    7 + 16 * 65_536 + 16_777_216,
    0,
    0,
    0,
    0,
    0,
    0,
    1,
    0,
    0,
    30 * 65_536 + 9,
    // the index by keys
    5 * 131_072,
    // a, b, c, and "kilometre"
    97,
    98,
    99,
    0x7274_656D_6F6C_696B,
    101,
];

/// The image as a vector.
fn image(alloc: Global) -> Result<Vec<u64>, AllocError>
    ensures { IfOk result (λ words. words.items ≡ IMAGE) }
{
    Vec::from_slice(alloc, &IMAGE)
}

#[test]
fn a_frame_is_decoded_from_words(rt: HostRuntime) -> Result<(), Fail> {
    let alloc = rt.alloc();
    let mut words = image(alloc)?;
    let key = Key {
        extended: false,
        id: 5,
    };
    let decoded = decode(alloc, &mut words, 0, Ask::Frame { key }, b"\x12\x34")?;
    assert!(rt; decoded.is_some());
    if let Some(plain) = decoded {
        assert_eq!(rt; plain.name.bytes(), b"b".as_slice());
        for value in plain.signals.items() {
            assert_eq!(rt; value.name.bytes(), b"c".as_slice());
            assert_eq!(rt; value.raw, 4660);
            assert_eq!(rt; value.value.num, 4660);
            assert_eq!(rt; value.value.k, 0);
            assert!(rt; value.label.is_none());
            assert_eq!(rt; value.unit.bytes(), b"kilometre".as_slice());
        }
        assert_eq!(rt; plain.signals.items().len(), 1);
    }
    Ok(())
}

/// Writes the texts that it is given, and keeps the last raw value.
#[derive(Drop)]
struct Line {
    text: Vec<u8>,
    raw: i128,
}

impl Visit for Line {
    ghost names = { λ old name new. Unit {0} };

    ghost takes = { λ old value new. Unit {0} };

    fn message(&mut self, name: &[u8]) -> Result<(), AllocError> {
        self.text.extend_from_slice(name)
    }

    fn signal(&mut self, value: &ValueBuffer) -> Result<(), AllocError> {
        self.raw = value.raw;
        self.text.push(b' ')?;
        self.text.extend_from_slice(value.name.as_slice())?;
        self.text.push(b' ')?;
        self.text.extend_from_slice(value.unit.as_slice())
    }
}

#[test]
fn a_visitor_is_given_the_name_and_each_value(rt: HostRuntime) -> Result<(), Fail> {
    let alloc = rt.alloc();
    let mut words = image(alloc)?;
    let mut value = ValueBuffer::new(alloc);
    let mut line = Line {
        text: Vec::new(alloc),
        raw: 0,
    };
    let key = Key {
        extended: false,
        id: 5,
    };
    let ask = Ask::Frame { key };
    let matched = walk(&mut words, 0, ask, b"\x12\x34", &mut value, &mut line)?;
    assert!(rt; matched);
    assert_eq!(rt; line.text.as_slice(), b"b c kilometre".as_slice());
    assert_eq!(rt; line.raw, 4660);
    Ok(())
}

#[test]
fn a_raw_value_is_read_from_words(rt: HostRuntime) -> Result<(), Fail> {
    let mut words = image(rt.alloc())?;
    assert_eq!(rt; raw_of(&mut words, 14, b"\x12\x34"), Some(4660));
    Ok(())
}

#[test]
fn a_raw_value_past_the_bytes_is_absent(rt: HostRuntime) -> Result<(), Fail> {
    let mut words = image(rt.alloc())?;
    assert_eq!(rt; raw_of(&mut words, 14, b"\x12"), None);
    Ok(())
}
