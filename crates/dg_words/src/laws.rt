//! A law of the definitions. The function does nothing: its contract is the law.
ghost use Rattle.std.specs.Prelude.{◌≡◌, ◌↔◌, ◌*◌, ◌<◌, ℕ, length};
ghost use Rattle.dg_words.specs.Bits.{cleared_bits, bit_of};

/// In bytes whose first n bits are cleared, bit i is 0 exactly if i is below n.
pub fn a_bit_is_cleared_below_the_count()
    ensures bytes { (bytes n : ℕ) → length (cleared_bits bytes n) ≡ bytes }
    ensures bits { (bytes n i : ℕ) → i < 8 * bytes → (bit_of (cleared_bits bytes n) i ≡ 0) ↔ (i < n) }
{}
