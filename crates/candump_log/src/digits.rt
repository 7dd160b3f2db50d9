//! Hexadecimal digits, two to a byte.
ghost use Rattle.std.specs.Prelude.{◌≡◌, if◌then◌else◌};
ghost use Rattle.std.specs.Char.{digit_value, is_ascii_hexdigit};
ghost use Rattle.byte_forms.specs.Numerals.{hexadecimal_byte};
ghost use Rattle.byte_forms.specs.Pieces.{value_view};

/// What each byte counts as a hexadecimal digit of either case, and 255 where it is none.
static DIGITS: [u8; 256] = [
    255, 255, 255, 255, 255, 255, 255, 255, 255, 255, 255, 255, 255, 255, 255, 255, 255, 255, 255,
    255, 255, 255, 255, 255, 255, 255, 255, 255, 255, 255, 255, 255, 255, 255, 255, 255, 255, 255,
    255, 255, 255, 255, 255, 255, 255, 255, 255, 255, 0, 1, 2, 3, 4, 5, 6, 7, 8, 9, 255, 255, 255,
    255, 255, 255, 255, 10, 11, 12, 13, 14, 15, 255, 255, 255, 255, 255, 255, 255, 255, 255, 255,
    255, 255, 255, 255, 255, 255, 255, 255, 255, 255, 255, 255, 255, 255, 255, 255, 10, 11, 12, 13,
    14, 15, 255, 255, 255, 255, 255, 255, 255, 255, 255, 255, 255, 255, 255, 255, 255, 255, 255,
    255, 255, 255, 255, 255, 255, 255, 255, 255, 255, 255, 255, 255, 255, 255, 255, 255, 255, 255,
    255, 255, 255, 255, 255, 255, 255, 255, 255, 255, 255, 255, 255, 255, 255, 255, 255, 255, 255,
    255, 255, 255, 255, 255, 255, 255, 255, 255, 255, 255, 255, 255, 255, 255, 255, 255, 255, 255,
    255, 255, 255, 255, 255, 255, 255, 255, 255, 255, 255, 255, 255, 255, 255, 255, 255, 255, 255,
    255, 255, 255, 255, 255, 255, 255, 255, 255, 255, 255, 255, 255, 255, 255, 255, 255, 255, 255,
    255, 255, 255, 255, 255, 255, 255, 255, 255, 255, 255, 255, 255, 255, 255, 255, 255, 255, 255,
    255, 255, 255, 255, 255, 255, 255, 255, 255, 255, 255, 255, 255, 255, 255, 255, 255, 255, 255,
    255, 255, 255,
];

/// What the byte counts as a digit. A look-up costs a third of the comparisons, since digits and letters come in no
/// order.
#[inline(always)]
fn digit_of(byte: u8) -> u8
    ensures { result ≡ (if is_ascii_hexdigit byte then digit_value byte else 255) }
{
    DIGITS[byte as usize]
}

/// The byte of the two digits at the front, and the text after them.
#[inline(always)]
#[tactic(auto, unfolding(byte_forms::specs::Numerals::hexadecimal_byte))]
pub(crate) fn hexadecimal_byte(bytes: &[u8]) -> Option<(u8, &[u8])>
    ensures { value_view result ≡ hexadecimal_byte bytes.now }
{
    let [high, low, rest @ ..] = bytes else {
        return None;
    };
    let (high, low) = (digit_of(*high), digit_of(*low));
    if (high < 16) & (low < 16) {
        Some((high * 16 + low, rest))
    } else {
        None
    }
}
