//! Hexadecimal digits of a number, in upper case.

ghost use Rattle.std.specs.Prelude.{◌≡◌, ◌<◌};
ghost use Rattle.byte_forms.specs.Hexadecimal.{hex_digit, hex_digits};

/// The digit of a number below 16.
fn hex_digit(n: u8) -> u8
    requires { n < 16 }
    ensures { result ≡ hex_digit n }
{
    if n < 10 { b'0' + n } else { b'A' - 10 + n }
}

/// The two digits of a byte.
#[tactic(auto, unfolding(crate::specs::Hexadecimal::hex_digits))]
pub fn hex_of_byte(byte: u8) -> [u8; 2]
    ensures { result ≡ hex_digits 2 byte }
{
    [hex_digit(byte / 16 % 16), hex_digit(byte % 16)]
}

/// The last four digits of a number.
#[tactic(auto, unfolding(crate::specs::Hexadecimal::hex_digits))]
fn hex_of_half(n: u32) -> [u8; 4]
    ensures { result ≡ hex_digits 4 n }
{
    [
        hex_digit((n / 16 / 16 / 16 % 16) as u8),
        hex_digit((n / 16 / 16 % 16) as u8),
        hex_digit((n / 16 % 16) as u8),
        hex_digit((n % 16) as u8),
    ]
}

/// The eight digits of a number. The last so many of them are the number's last so many digits.
#[tactic(auto, unfolding(crate::specs::Hexadecimal::hex_digits))]
pub fn hex_of_number(n: u32) -> [u8; 8]
    ensures { result ≡ hex_digits 8 n }
{
    let [a, b, c, d] = hex_of_half(n / 16 / 16 / 16 / 16);
    let [e, f, g, h] = hex_of_half(n);
    [a, b, c, d, e, f, g, h]
}
