//! Bytes as hex digits, two for each byte.
ghost use Rattle.std.specs.Prelude.{◌≡◌, ℕ, ◌+◌, ◌*◌, ◌%◌, ◌<◌, ◌↔◌, List, ◌++◌, ◌⊎◌, length, Some, None, OnOk, OnErr, IfOk, All};
ghost use Rattle.std.specs.Prelude.{Any, true, false};
ghost use Rattle.std.specs.Bool.{OnTrue, OnFalse};
ghost use Rattle.dg_base.specs.Hexadecimal.{hex_bytes, hex_digit, hex_text, hex_value, is_hex_digit};

use std::alloc::{AllocError, Global};
use std::error::Error;
use std::fmt;

/// Why digits could not be read as bytes.
#[derive(Clone, Copy, PartialEq, Eq, Debug)]
pub enum HexFault {
    /// The number of digits is odd.
    Odd,
    /// A byte is not a hex digit.
    Digit,
    /// Memory ran out.
    Memory,
}

impl fmt::Display for HexFault {
    ghost use Rattle.std.specs.Prelude.{Some};
    ghost use Rattle.dg_base.specs.Faults.{hex_fault_text};

    ghost output = { λ fault. Some (hex_fault_text fault) };

    fn fmt<W: fmt::Write>(&self, f: &mut fmt::Formatter<W>) -> fmt::Result {
        match self {
            HexFault::Odd => f.write_str("an odd number of hex digits"),
            HexFault::Digit => f.write_str("a byte that is no hex digit"),
            HexFault::Memory => f.write_str("out of memory"),
        }
    }
}

impl Error for HexFault {}

impl From<AllocError> for HexFault {
    ghost use Rattle.std.specs.Prelude.{◌≡◌};
    ghost use Rattle.dg_base.specs.declared.hexadecimal.HexFault.{HexFault};

    ghost from_gives = { λ _ e. e ≡ HexFault.Memory };

    fn from(_error: AllocError) -> HexFault {
        HexFault::Memory
    }
}

// The lower case digits.
static DIGITS: [u8; 16] = *b"0123456789abcdef";

/// The bytes that pairs of hex digits of either case encode. The number of digits is checked first, so an odd
/// one is reported even if memory runs out.
pub fn parse_hex(alloc: Global, bytes: &[u8]) -> Result<Vec<u8>, HexFault>
    ensures ok { IfOk result (λ read. hex_bytes bytes.now ≡ Some read.items) }
    ensures odd { result ≡ Err HexFault.Odd ↔ (length bytes.now % 2 ≡ 1) }
    ensures digit { result ≡ Err HexFault.Digit → Any (λ c. is_hex_digit c ≡ false) bytes.now }
{
    if bytes.len() % 2 == 1 {
        return Err(HexFault::Odd);
    }
    let mut read = vec![in alloc; 0; bytes.len() / 2]?;
    if read_pairs(bytes, &mut read) {
        Ok(read)
    } else {
        Err(HexFault::Digit)
    }
}

// Whether a byte is a hex digit. This and the value are computed without branches and tables, so that many digits are
// read at once.
#[inline(always)]
fn is_digit(byte: u8) -> bool
    ensures { result ≡ is_hex_digit byte }
{
    let digit = (byte >= b'0') & (byte <= b'9');
    let upper = (byte >= b'A') & (byte <= b'F');
    let lower = (byte >= b'a') & (byte <= b'f');
    digit | upper | lower
}

// The value of a hex digit: its low four bits, plus 9 for a letter. Other bytes get some value too.
#[inline(always)]
fn value_of(digit: u8) -> u8
    ensures value { (v : ℕ) → hex_value digit ≡ Some v → result ≡ v }
    ensures small { result < 16 }
{
    (digit % 16 + 9 * (digit / 64)) % 16
}

// The lower case digit of a value.
#[inline]
fn digit_of(value: u8) -> u8
    requires { value < 16 }
    ensures { result ≡ hex_digit value }
{
    DIGITS[value as usize]
}

// Writes the bytes of pairs of digits, and returns whether all of them are digits. It continues after a byte that is not one.
fn read_pairs(digits: &[u8], into: &mut [u8]) -> bool
    requires { length digits.now ≡ 2 * length into.old }
    ensures read { OnTrue result (hex_bytes digits.now ≡ Some into.new) }
    ensures refused { OnFalse result (Any (λ c. is_hex_digit c ≡ false) digits.now) }
{
    let mut all = true;
    for at in 0..into.len() {
        let high = digits[2 * at];
        let low = digits[2 * at + 1];
        into[at] = value_of(high) * 16 + value_of(low);
        all &= is_digit(high) & is_digit(low);
    }
    all
}

/// Appends two lower case digits for each byte. If memory runs out, `out` is unchanged.
pub fn push_hex(out: &mut Vec<u8>, bytes: &[u8]) -> Result<(), AllocError>
    ensures ok { OnOk result (out.new.items ≡ out.old.items ++ hex_text bytes.now) }
    ensures err { OnErr result (out.new.items ≡ out.old.items) }
{
    let Some(length) = bytes.len().checked_mul(2) else {
        return Err(AllocError);
    };
    let start = out.len();
    let Some(end) = start.checked_add(length) else {
        return Err(AllocError);
    };
    out.resize(end, 0)?;
    write_pairs(bytes, &mut out[start..]);
    Ok(())
}

// Writes the two digits of each byte.
fn write_pairs(bytes: &[u8], into: &mut [u8])
    requires { length into.old ≡ 2 * length bytes.now }
    ensures { into.new ≡ hex_text bytes.now }
{
    for at in 0..bytes.len() {
        let byte = bytes[at];
        into[2 * at] = digit_of(byte / 16);
        into[2 * at + 1] = digit_of(byte % 16);
    }
}

/// The digits of bytes encode those bytes. Bytes are read exactly from an even number of digits.
pub fn hex_reads_back()
    ensures round { (bytes : List ℕ) → All (λ b. b < 256) bytes → hex_bytes (hex_text bytes) ≡ Some bytes }
    ensures digits { (text bytes : List ℕ) → hex_bytes text ≡ Some bytes
        → (length text ≡ 2 * length bytes) × All (λ c. is_hex_digit c ≡ true) text × All (λ b. b < 256) bytes }
    ensures refused { (text : List ℕ) → hex_bytes text ≡ None
        → (length text % 2 ≡ 1) ⊎ Any (λ c. is_hex_digit c ≡ false) text }
{}
