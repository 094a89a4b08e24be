//! Sets of small numbers, such as the packets of a page or the pages of an image.
//!
//! Contracts see a set as a finite set of numbers. It has one byte form, the one that frames and
//! headers carry: number n is bit 7 − (n mod 8) of byte n / 8.
#![tactic(auto)]

ghost use Rattle.std.specs.Prelude.{◌≡◌, ◌≢◌, ℕ, ◌+◌, ◌-◌, ◌*◌, ◌/◌, ◌%◌, ◌<◌, ◌≤◌, ◌↔◌, true, List, Some, length, IsNone};
ghost use Rattle.std.specs.Prelude.{IfSome, IsTrue, MatchOption, slice_index, bit_or};
ghost use Rattle.std.specs.FinSet as set;
ghost use Rattle.std.specs.Int.{bit_at};
ghost use Rattle.dg_bits.specs.Sets.{Numbers, below, AllBelow, IsLeast, least};
ghost use Rattle.dg_bits.specs.ByteForm.{is_marked, numbers_of, byte_form};

use std::marker::Model;

/// The bytes that a set takes in memory, whatever its size.
const WIDTH: usize = 9;

/// A set of numbers below `N`, which is 1 to 72.
#[derive(Clone, Copy, Debug)]
pub struct PageBits<const N: usize> {
    bytes: [u8; WIDTH],
}

impl<const N: usize> Model for PageBits<N> {
    ghost use Rattle.std.specs.Coded.{coded_ℕ};
    ghost use Rattle.std.specs.FinSet as set;
    ghost use Rattle.dg_bits.specs.Sets.{Numbers};

    ghost Value = { Numbers };

    ghost coded = { set.code coded_ℕ };

    ghost use Rattle.dg_bits.specs.ByteForm.{numbers_of, byte_form, IsPacked};
    ghost use Rattle.dg_bits.specs.ModelLaws.{byte_form-numbers_of};

    ghost view = { λ b. numbers_of b.bytes };

    ghost invariant = { λ b. IsPacked N b.bytes };

    ghost inverse = { λ s. record { bytes = byte_form 9 s } };

    ghost inverse_ok = { λ b h i. record { bytes = byte_form-numbers_of b.bytes 9 h.width (λ k _. h.bytes_fit k) i } };
}

impl<const N: usize> PartialEq for PageBits<N> {
    ghost use Rattle.dg_bits.specs.Sets.{are_same_sets};
    ghost use Rattle.dg_bits.specs.ModelLaws.{same_partial};

    ghost eq = { are_same_sets };

    ghost laws = { same_partial };

    fn eq(&self, other: &Self) -> bool {
        self.bytes == other.bytes
    }
}

impl<const N: usize> Eq for PageBits<N> {
    ghost use Rattle.dg_bits.specs.ModelLaws.{same_equivalence};

    ghost laws = { same_equivalence };
}

impl<const N: usize> PageBits<N> {
    /// The empty set.
    pub fn none() -> Self
        requires some_size { 1 ≤ N }
        requires fits { N ≤ 72 }
        ensures { result ≡ set.empty }
    {
        Self { bytes: [0; WIDTH] }
    }

    /// All numbers below `N`.
    pub fn all() -> Self
        requires some_size { 1 ≤ N }
        requires fits { N ≤ 72 }
        ensures { result ≡ below N }
    {
        let mut every = Self::none();
        for n in 0..N as u8 {
            every.set(n);
        }
        every
    }

    /// Puts a number below `N` into the set.
    pub fn set(&mut self, n: u8)
        requires { n < N }
        ensures { self.new ≡ set.insert self.old n }
    {
        let k = n as usize / 8;
        self.bytes[k] = with_bit(self.bytes[k], 7 - n % 8);
    }

    /// Takes a number below `N` out of the set, if it is there.
    pub fn clear(&mut self, n: u8)
        requires { n < N }
        ensures { self.new ≡ set.remove self.old n }
    {
        let k = n as usize / 8;
        self.bytes[k] = without_bit(self.bytes[k], 7 - n % 8);
    }

    /// Whether a number below `N` is in the set.
    pub fn has(&self, n: u8) -> bool
        requires { n < N }
        ensures value { result ≡ set.contains self.now n }
        ensures within { AllBelow N self.now }
    {
        is_set(&self.bytes, n as usize)
    }

    /// The least number of the set.
    pub fn first(&self) -> Option<u8>
        ensures value { result ≡ least self.now }
        ensures cases { MatchOption result (self.now ≡ set.empty) (λ n. IsLeast self.now n) }
        ensures within { AllBelow N self.now }
    {
        let bytes = &self.bytes;
        for k in 0..(N + 7) / 8 {
            let byte = bytes[k];
            if byte != 0 {
                let n = 8 * k as u8 + first_bit(byte);
                return Some(n);
            }
        }
        None
    }

    /// Adds the numbers of another set.
    pub fn union(&mut self, other: &Self)
        ensures { self.new ≡ set.union self.old other.now }
    {
        join(&mut self.bytes, &other.bytes);
    }

    /// How many numbers the set has.
    pub fn count(&self) -> u8
        ensures value { result ≡ set.len self.now }
        ensures within { AllBelow N self.now }
    {
        let bytes = &self.bytes;
        let mut members = 0;
        for k in 0..(N + 7) / 8 {
            members += bits_set(bytes[k]);
        }
        members
    }

    /// Whether the set is empty.
    pub fn is_empty(&self) -> bool
        ensures { IsTrue result ↔ (self.now ≡ set.empty) }
    {
        self.bytes == [0; WIDTH]
    }

    /// Writes the byte form, of (N + 7) / 8 bytes.
    pub fn to_bytes(&self, into: &mut [u8])
        requires { length into.old ≡ (N + 7) / 8 }
        ensures written { into.new ≡ byte_form ((N + 7) / 8) self.now }
        ensures reads_back { numbers_of into.new ≡ self.now }
        ensures within { AllBelow N self.now }
    {
        into.copy_from_slice(&self.bytes[..into.len()]);
    }

    /// Reads a byte form, of (N + 7) / 8 bytes. The result is `None` exactly if a bit at `N` or after it is set.
    pub fn from_bytes(bytes: &[u8]) -> Option<Self>
        requires some_size { 1 ≤ N }
        requires fits { N ≤ 72 }
        requires whole { length bytes.now ≡ (N + 7) / 8 }
        ensures past { IsNone result ↔ ((n : ℕ) × (N ≤ n) × (is_marked bytes.now n ≡ true)) }
        ensures read { IfSome result (λ s. s ≡ numbers_of bytes.now) }
    {
        for n in N..8 * bytes.len() {
            if is_set(bytes, n) {
                return None;
            }
        }
        let mut kept = [0; WIDTH];
        kept[..bytes.len()].copy_from_slice(bytes);
        Some(Self { bytes: kept })
    }
}

/// Bytes and sets of numbers correspond one to one: the bytes of a set of numbers that fit read back as that set, and a set
/// that was read from bytes is written as those bytes.
pub fn one_byte_form()
    ensures bits { (bytes : List ℕ) (n : ℕ) → set.contains (numbers_of bytes) n ≡ is_marked bytes n }
    ensures of_set { (width : ℕ) (s : Numbers) → AllBelow (8 * width) s
        → numbers_of (byte_form width s) ≡ s }
    ensures of_bytes { (bytes : List ℕ) → ((k : ℕ) → slice_index bytes k < 256)
        → byte_form (length bytes) (numbers_of bytes) ≡ bytes }
{}

/// Each set except the empty one has exactly one least number.
pub fn one_least_number()
    ensures some { (s : Numbers) → MatchOption (least s) (s ≡ set.empty) (IsLeast s) }
    ensures only { (s : Numbers) (n : ℕ) → IsLeast s n → least s ≡ Some n }
{}

// Whether the bit of number n is set in a byte form.
fn is_set(bytes: &[u8], n: usize) -> bool
    requires { n < 8 * length bytes.now }
    ensures { result ≡ is_marked bytes.now n }
{
    bytes[n / 8] >> (7 - n % 8) & 1 == 1
}

// How many bits are above the highest one that is set.
fn first_bit(byte: u8) -> u8
    requires { 0 < byte }
    ensures below { result < 8 }
    ensures here { bit_at byte (7 - result) ≡ 1 }
    ensures before { (i : ℕ) → i < result → bit_at byte (7 - i) ≡ 0 }
{
    byte.leading_zeros() as u8
}

// How many bits are set.
fn bits_set(byte: u8) -> u8
    ensures few { result ≤ 8 }
    ensures bits { result ≡ bit_at byte 7 + bit_at byte 6 + bit_at byte 5 + bit_at byte 4
        + bit_at byte 3 + bit_at byte 2 + bit_at byte 1 + bit_at byte 0 }
{
    byte.count_ones() as u8
}

// The byte with the bit at `position` set.
fn with_bit(byte: u8, position: u8) -> u8
    requires { position < 8 }
    ensures set { bit_at result position ≡ 1 }
    ensures others { (i : ℕ) → i < 8 → i ≢ position → bit_at result i ≡ bit_at byte i }
{
    byte | 1 << position
}

// The byte with the bit at `position` cleared.
fn without_bit(byte: u8, position: u8) -> u8
    requires { position < 8 }
    ensures cleared { bit_at result position ≡ 0 }
    ensures others { (i : ℕ) → i < 8 → i ≢ position → bit_at result i ≡ bit_at byte i }
{
    byte & !(1 << position)
}

// Adds the bits of other bytes.
fn join(bytes: &mut [u8; WIDTH], others: &[u8; WIDTH])
    ensures joined { (k : ℕ) → slice_index bytes.new k
        ≡ bit_or (slice_index bytes.old k) (slice_index others.now k) }
    ensures width { length bytes.new ≡ 9 }
{
    for k in 0..WIDTH {
        bytes[k] |= others[k];
    }
}
