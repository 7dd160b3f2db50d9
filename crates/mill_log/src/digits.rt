//! Digits of numbers, a fixed number of them.

ghost use Rattle.std.specs.Prelude.{◌≡◌, ◌+◌, ◌<◌};
ghost use Rattle.byte_forms.specs.Hexadecimal.{hex_digits};
ghost use Rattle.exact_scale.specs.Digits.{last_digits};
ghost use Rattle.mill_log.specs.GeneratedLog.{padded};

use byte_forms::hex_of_number;

/// The digit of a number below 10.
fn digit(n: u64) -> u8
    requires { n < 10 }
    ensures { result ≡ 48 + n }
{
    b'0' + n as u8
}

/// The last four digits of a number.
fn last_four(n: u64) -> [u8; 4]
    ensures { result ≡ last_digits 4 n }
{
    [
        digit(n / 10 / 10 / 10 % 10),
        digit(n / 10 / 10 % 10),
        digit(n / 10 % 10),
        digit(n % 10),
    ]
}

/// The last six digits of a number.
#[tactic(auto, unfolding(crate::specs::GeneratedLog::padded))]
pub(crate) fn last_six(n: u64) -> [u8; 6]
    ensures { result ≡ padded 6 n }
{
    let [a, b, c, d] = last_four(n / 10 / 10);
    [a, b, c, d, digit(n / 10 % 10), digit(n % 10)]
}

/// The last ten digits of a number.
#[tactic(auto, unfolding(crate::specs::GeneratedLog::padded))]
pub(crate) fn last_ten(n: u64) -> [u8; 10]
    ensures { result ≡ padded 10 n }
{
    let [a, b, c, d] = last_four(n / 10 / 10 / 10 / 10 / 10 / 10);
    let [e, f, g, h, i, j] = last_six(n);
    [a, b, c, d, e, f, g, h, i, j]
}

/// The last three hexadecimal digits of a number.
#[tactic(auto, unfolding(byte_forms::specs::Hexadecimal::hex_digits))]
pub(crate) fn last_three_hex(n: u32) -> [u8; 3]
    ensures { result ≡ hex_digits 3 n }
{
    let [_, _, _, _, _, a, b, c] = hex_of_number(n);
    [a, b, c]
}
