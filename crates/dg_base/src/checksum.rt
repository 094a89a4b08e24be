//! The checksum of pages and frames.
ghost use Rattle.std.specs.Prelude.{◌≡◌, ℕ, ◌+◌, ◌*◌, ◌^◌, ◌<◌, ◌≤◌, List, ◌++◌, length, drop, All, Bool, bit_xor};
ghost use Rattle.dg_base.specs.Crc.{crc_more, crc_of, generator, polynomial_of, product, shifted, with_byte};

use crate::checksum_tables::AFTER;

/// The checksum of `bytes` by the polynomial x^16 + x^12 + x^5 + 1, start 0, most significant bit
/// first, no final change.
#[inline(always)]
pub fn crc16(bytes: &[u8]) -> u16
    ensures { result ≡ crc_of bytes.now }
{
    crc16_more(0, bytes)
}

/// The checksum of bytes with the checksum `before`, followed by `bytes`.
#[inline(always)]
pub fn crc16_more(before: u16, bytes: &[u8]) -> u16
    ensures { result ≡ crc_more before bytes.now }
{
    let mut crc = before;
    let mut at = 0;
    while bytes.len() - at >= 16 {
        crc = with_sixteen(crc, bytes, at);
        at += 16;
    }
    with_last(crc, bytes, at)
}

// The checksum with the bytes from `at` on: eight at once while there are eight, and then the others.
#[inline(always)]
fn with_last(before: u16, bytes: &[u8], at: usize) -> u16
    requires { at ≤ length bytes.now }
    ensures { result ≡ crc_more before (drop at bytes.now) }
{
    if bytes.len() - at >= 8 {
        with_rest(with_eight(before, bytes, at), bytes, at + 8)
    } else {
        with_rest(before, bytes, at)
    }
}

// The checksum with the bytes from `at` on: four at once while there are four, and the others one at a time.
#[inline(always)]
fn with_rest(before: u16, bytes: &[u8], at: usize) -> u16
    requires { at ≤ length bytes.now }
    ensures { result ≡ crc_more before (drop at bytes.now) }
{
    if bytes.len() - at >= 4 {
        with_each(with_four(before, bytes, at), bytes, at + 4)
    } else {
        with_each(before, bytes, at)
    }
}

// The checksum with the bytes from `at` on, one at a time.
#[inline]
fn with_each(before: u16, bytes: &[u8], at: usize) -> u16
    requires { at ≤ length bytes.now }
    ensures { result ≡ crc_more before (drop at bytes.now) }
{
    let mut crc = before;
    for next in at..bytes.len() {
        crc = with_byte(crc, bytes[next]);
    }
    crc
}

// The checksum with one more byte.
#[inline]
fn with_byte(crc: u16, byte: u8) -> u16
    ensures { result ≡ with_byte crc byte }
{
    let high = (crc >> 8) as u8;
    after_1(high ^ byte) ^ (crc << 8)
}

// The checksum with the sixteen bytes at `at`, in two halves.
#[inline(always)]
fn with_sixteen(crc: u16, bytes: &[u8], at: usize) -> u16
    requires { at + 16 ≤ length bytes.now }
    ensures { crc_more result (drop (at + 16) bytes.now) ≡ crc_more crc (drop at bytes.now) }
{
    with_eight(with_eight(crc, bytes, at), bytes, at + 8)
}

// The checksum with the eight bytes at `at`: the register overlaps the first two.
#[inline]
fn with_eight(crc: u16, bytes: &[u8], at: usize) -> u16
    requires { at + 8 ≤ length bytes.now }
    ensures { crc_more result (drop (at + 8) bytes.now) ≡ crc_more crc (drop at bytes.now) }
{
    let high = (crc >> 8) as u8;
    let low = (crc % 256) as u8;
    let middle = after_6(bytes[at + 2]) ^ after_5(bytes[at + 3]) ^ after_4(bytes[at + 4]);
    let last = after_3(bytes[at + 5]) ^ after_2(bytes[at + 6]) ^ after_1(bytes[at + 7]);
    let first = after_8(high ^ bytes[at]) ^ after_7(low ^ bytes[at + 1]);
    (middle ^ last) ^ first
}

// The checksum with the four bytes at `at`: the register overlaps the first two.
#[inline]
fn with_four(crc: u16, bytes: &[u8], at: usize) -> u16
    requires { at + 4 ≤ length bytes.now }
    ensures { crc_more result (drop (at + 4) bytes.now) ≡ crc_more crc (drop at bytes.now) }
{
    let high = (crc >> 8) as u8;
    let low = (crc % 256) as u8;
    let last = after_2(bytes[at + 2]) ^ after_1(bytes[at + 3]);
    let first = after_4(high ^ bytes[at]) ^ after_3(low ^ bytes[at + 1]);
    last ^ first
}

// What a byte at the top of the register becomes once one byte, or more, are shifted out.
#[inline]
fn after_1(byte: u8) -> u16
    ensures { result ≡ shifted 8 (byte * 2 ^ 8) }
{
    AFTER[byte as usize]
}

#[inline]
fn after_2(byte: u8) -> u16
    ensures { result ≡ shifted 16 (byte * 2 ^ 8) }
{
    AFTER[256 + byte as usize]
}

#[inline]
fn after_3(byte: u8) -> u16
    ensures { result ≡ shifted 24 (byte * 2 ^ 8) }
{
    AFTER[512 + byte as usize]
}

#[inline]
fn after_4(byte: u8) -> u16
    ensures { result ≡ shifted 32 (byte * 2 ^ 8) }
{
    AFTER[768 + byte as usize]
}

#[inline]
fn after_5(byte: u8) -> u16
    ensures { result ≡ shifted 40 (byte * 2 ^ 8) }
{
    AFTER[1024 + byte as usize]
}

#[inline]
fn after_6(byte: u8) -> u16
    ensures { result ≡ shifted 48 (byte * 2 ^ 8) }
{
    AFTER[1280 + byte as usize]
}

#[inline]
fn after_7(byte: u8) -> u16
    ensures { result ≡ shifted 56 (byte * 2 ^ 8) }
{
    AFTER[1536 + byte as usize]
}

#[inline]
fn after_8(byte: u8) -> u16
    ensures { result ≡ shifted 64 (byte * 2 ^ 8) }
{
    AFTER[1792 + byte as usize]
}

/// The checksum is the remainder of the message, times x^16, by the generator. Over GF(2) the sum
/// of a polynomial and its remainder is the product of the quotient and the divisor.
///
/// The checksum of two parts is that of the second, continued from that of the first.
pub fn checksum_is_a_remainder()
    ensures remainder { (bytes : List ℕ) → All (λ b. b < 256) bytes → (quotient : List Bool)
        × (bit_xor (polynomial_of bytes * 2 ^ 16) (crc_of bytes) ≡ product quotient generator) }
    ensures degree { (bytes : List ℕ) → All (λ b. b < 256) bytes → crc_of bytes < 2 ^ 16 }
    ensures parts { (before : ℕ) (xs ys : List ℕ) → crc_more (crc_more before xs) ys ≡ crc_more before (xs ++ ys) }
{}
