//! Numbers as decimal digits.
ghost use Rattle.std.specs.Prelude.{◌≡◌, ℕ, ◌+◌, ◌^◌, ◌<◌, List, ◌++◌, Some, OnOk, OnErr, decimal};
ghost use Rattle.dg_base.specs.Numbers.{number_of, with_digit};

use itoa::Buffer;
use std::alloc::AllocError;

/// The number that `bytes` encode in decimal, without sign or leading zero, up to 4,294,967,295.
#[inline(always)]
pub fn parse_u32(bytes: &[u8]) -> Option<u32>
    ensures { result ≡ number_of bytes.now }
{
    if bytes.is_empty() {
        return None;
    }
    if bytes[0] == b'0' {
        return if bytes.len() == 1 { Some(0) } else { None };
    }
    let mut number = 0;
    for byte in bytes {
        number = with_digit(number, *byte)?;
    }
    Some(number)
}

// The number with one more digit after it.
fn with_digit(number: u32, byte: u8) -> Option<u32>
    ensures { result ≡ with_digit number byte }
{
    match byte {
        b'0'..=b'9' => number.checked_mul(10)?.checked_add(u32::from(byte - b'0')),
        _ => None,
    }
}

/// Appends the decimal digits of `n`. If memory runs out, `out` is unchanged.
pub fn push_u32(out: &mut Vec<u8>, n: u32) -> Result<(), AllocError>
    ensures ok { OnOk result (out.new.items ≡ out.old.items ++ decimal n) }
    ensures err { OnErr result (out.new.items ≡ out.old.items) }
{
    out.extend_from_slice(Buffer::new().format(n).as_bytes())
}

/// A number is read exactly if the bytes are those that print it, and it is below 2 ^ 32.
pub fn reads_what_is_printed()
    ensures reads { (bytes : List ℕ) (n : ℕ) → number_of bytes ≡ Some n → (bytes ≡ decimal n) × (n < 2 ^ 32) }
    ensures printed { (bytes : List ℕ) (n : ℕ) → bytes ≡ decimal n → n < 2 ^ 32 → number_of bytes ≡ Some n }
{}
