//! The root of a chain, as the words write it.
ghost use Rattle.std.specs.Prelude.{◌≡◌, ◌<◌, true, Some};
ghost use Rattle.std.specs.List.{list_all};
ghost use Rattle.dg_base.specs.Hexadecimal.{hex_bytes, hex_value, is_hex_digit};
ghost use Rattle.dg_command.specs.Roots.{spells_root};

use crate::ranges::{ROOT_BYTES, ROOT_DIGITS};

/// Whether a text is a root: 64 hex digits of either case.
pub(crate) fn is_root(text: &[u8]) -> bool
    ensures { result ≡ spells_root text.now }
{
    text.len() == ROOT_DIGITS && has_hex_digits(text)
}

/// Whether each byte is a hex digit.
pub(crate) fn has_hex_digits(text: &[u8]) -> bool
    ensures { result ≡ list_all is_hex_digit text.now }
{
    text.iter().all(|digit| is_hex_digit(*digit))
}

fn is_hex_digit(digit: u8) -> bool
    ensures { result ≡ is_hex_digit digit }
{
    digit.is_ascii_hexdigit()
}

/// The 32 bytes of a root.
pub fn root_bytes(root: &[u8]) -> [u8; ROOT_BYTES]
    requires { spells_root root.now ≡ true }
    ensures { hex_bytes root.now ≡ Some result }
{
    let mut bytes = [0; ROOT_BYTES];
    for at in 0..ROOT_BYTES {
        bytes[at] = hex_value(root[2 * at]) * 16 + hex_value(root[2 * at + 1]);
    }
    bytes
}

/// The value of a hex digit.
fn hex_value(digit: u8) -> u8
    requires { is_hex_digit digit ≡ true }
    ensures value { hex_value digit ≡ Some result }
    ensures small { result < 16 }
{
    match digit {
        b'0'..=b'9' => digit - b'0',
        b'A'..=b'F' => digit - b'A' + 10,
        _ => digit - b'a' + 10,
    }
}
