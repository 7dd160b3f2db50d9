//! The longest run of a class at the front of a text.

ghost use Rattle.std.specs.Prelude.{◌≡◌, ◌≤◌, ◌++◌, length, take_while};
ghost use Rattle.std.specs.List.{list_all, prefix_len};
ghost use Rattle.byte_forms.specs.Classes.{is_in, drop_while};

use crate::Class;

/// How many bytes of the class are at the front.
fn run_len(class: Class, bytes: &[u8]) -> usize
    ensures value { result ≡ prefix_len (is_in class) bytes.now }
    ensures within { result ≤ length bytes.now }
{
    for (i, byte) in bytes.iter().enumerate() {
        if !class.has(*byte) {
            return i;
        }
    }
    bytes.len()
}

/// The longest run of the class at the front, and the bytes after it.
pub fn run(class: Class, bytes: &[u8]) -> (&[u8], &[u8])
    ensures run { result.0.now ≡ take_while (is_in class) bytes.now }
    ensures rest { result.1.now ≡ drop_while (is_in class) bytes.now }
    ensures whole { bytes.now ≡ result.0.now ++ result.1.now }
{
    bytes.split_at(run_len(class, bytes))
}

/// Whether each byte is of the class.
pub fn is_all(class: Class, bytes: &[u8]) -> bool
    ensures { result ≡ list_all (is_in class) bytes.now }
{
    run_len(class, bytes) == bytes.len()
}
