//! Bytes joined to one number.

ghost use Rattle.std.specs.Prelude.{◌≡◌, ◌≤◌, ◌<◌, ◌^◌, length};
ghost use Rattle.bench_model.specs.Shifts.{little_endian as little, big_endian as big};

use bench_model::bytes_as_number;

/// What a byte counts.
const BYTE_SPAN: u128 = 256;

/// At most nine bytes as one number, the first byte the lowest.
pub(crate) fn little_endian(bytes: &[u8]) -> u128
    requires { length bytes.now ≤ 9 }
    ensures { result ≡ little bytes.now }
{
    bytes_as_number();
    let mut number = 0;
    let mut i = bytes.len();
    while i > 0 {
        i -= 1;
        number = number * BYTE_SPAN + u128::from(bytes[i]);
    }
    number
}

/// At most nine bytes as one number, the last byte the lowest.
pub(crate) fn big_endian(bytes: &[u8]) -> u128
    requires { length bytes.now ≤ 9 }
    ensures { result ≡ big bytes.now }
{
    bytes_as_number();
    let mut number = 0;
    for byte in bytes {
        number = number * BYTE_SPAN + u128::from(*byte);
    }
    number
}
