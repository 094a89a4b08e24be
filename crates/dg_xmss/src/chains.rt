//! The digits of a message's digest, and the chains that they stand on (RFC 8391, 2.6 and 3.1).
ghost use Rattle.std.specs.Prelude.{◌≡◌, ◌-◌, ◌+◌, ◌<◌, ◌≤◌, ◌/◌, ◌%◌, length, slice_index};
ghost use Rattle.dg_xmss.specs.Wots.{base_w, wots_checksum, digits, message_digits, chains, wots_chain};
ghost use Rattle.dg_xmss.specs.Signatures.{chain_value, signature_size};
ghost use Rattle.dg_xmss.specs.Joining.{IsKeyed, IsLeaf, chain_end_of};

use crate::NODE_SIZE;
use crate::leaf::Leaf;
use crate::prf::Prf;

/// The digits of a digest: 64, two for each byte.
const MESSAGE_DIGITS: usize = 64;

/// The greatest digit, and the last value of a chain.
const LAST_DIGIT: u8 = 15;

/// Where the values of the chains begin in a signature: after its index and r.
const CHAINS_AT: usize = 36;

// What the two digits of a byte lack.
fn lacking(byte: u8) -> u16
    ensures value { result ≡ (15 - byte / 16) + (15 - byte % 16) }
    ensures most { result ≤ 30 }
{
    u16::from(LAST_DIGIT - byte / 16) + u16::from(LAST_DIGIT - byte % 16)
}

/// What the digits of a digest lack, altogether.
pub(crate) fn checksum(digest: &[u8; NODE_SIZE]) -> u16
    ensures value { result ≡ wots_checksum (base_w digest.now message_digits) }
    ensures most { result ≤ 960 }
{
    let mut sum = 0;
    for byte in digest {
        sum += lacking(*byte);
    }
    sum
}

// Digit i of a digest with its checksum.
fn digit(digest: &[u8; NODE_SIZE], checksum: u16, i: usize) -> u8
    requires known { i < chains }
    requires sum { checksum ≡ wots_checksum (base_w digest.now message_digits) }
    requires most { checksum ≤ 960 }
    ensures digit { result ≡ slice_index (digits digest.now) i }
    ensures most { result ≤ 15 }
{
    if i >= MESSAGE_DIGITS {
        return checksum_digit(checksum, i - MESSAGE_DIGITS);
    }
    digit_of(digest[i / 2], i)
}

// The upper digit of a byte, or its lower one.
fn digit_of(byte: u8, i: usize) -> u8
    ensures upper { i % 2 ≡ 0 → result ≡ byte / 16 }
    ensures lower { i % 2 ≡ 1 → result ≡ byte % 16 }
    ensures most { result ≤ 15 }
{
    if i % 2 == 0 { byte / 16 } else { byte % 16 }
}

// One of the three digits of a checksum.
fn checksum_digit(checksum: u16, i: usize) -> u8
    requires { checksum ≤ 960 }
    ensures first { i ≡ 0 → result ≡ checksum / 256 }
    ensures second { i ≡ 1 → result ≡ checksum / 16 % 16 }
    ensures third { 1 < i → result ≡ checksum % 16 }
    ensures most { result ≤ 15 }
{
    match i {
        0 => (checksum / 256) as u8,
        1 => (checksum / 16 % 16) as u8,
        _ => (checksum % 16) as u8,
    }
}

/// Walks a chain of a leaf from a digit to its end (RFC 8391, Algorithm 2, with start digit and 15 - digit steps).
pub fn walk(prf: &Prf, leaf: u16, number: u8, digit: u8, node: &mut [u8; NODE_SIZE])
    requires keyed { IsKeyed prf.now }
    requires digit { digit ≤ 15 }
    ensures { node.new ≡ wots_chain prf.now.seed.now leaf number node.old digit (15 - digit) }
{
    for hash in digit..LAST_DIGIT {
        *node = prf.step(leaf, number, hash, node);
    }
}

// Reads the value of chain i in a signature.
fn chain_value(signature: &[u8], i: usize, node: &mut [u8; NODE_SIZE])
    requires size { length signature.now ≡ signature_size }
    requires known { i < chains }
    ensures { node.new ≡ chain_value signature.now i }
{
    let at = CHAINS_AT + NODE_SIZE * i;
    node.copy_from_slice(&signature[at..at + NODE_SIZE]);
}

/// The end of chain i of a leaf, as its signature leads to it.
pub(crate) fn chain_end(leaf: &Leaf, i: u8, node: &mut [u8; NODE_SIZE])
    requires leaf { IsLeaf leaf.now }
    requires known { i < chains }
    ensures { node.new ≡ chain_end_of leaf.now i }
{
    chain_value(leaf.signature, usize::from(i), node);
    let digit = digit(leaf.digest, leaf.checksum, usize::from(i));
    walk(leaf.prf, leaf.index, i, digit, node);
}
