//! The draws of a seed: the random numbers of every run that must be reproducible.
#![tactic(auto)]

ghost use Rattle.std.specs.Prelude.{◌≡◌, ℕ, suc};
ghost use Rattle.rand_pcg.specs.Pcg.{pcg32};
ghost use Rattle.dg_seed.specs.Draws.{generator_of, first_generator, generator_after, draw_of};

use rand_core::SeedableRng;
use rand_core::utils::NextWord;
use rand_pcg::Lcg64Xsh32;

/// The remaining draws of a seed, by the generator PCG-XSH-RR with 64 bits of state and 32 bits of output (O'Neill, 2014).
#[derive(Drop)]
pub struct Draws {
    generator: Lcg64Xsh32,
}

impl Draws {
    /// All draws of a seed.
    pub fn of_seed(seed: u32) -> Draws
        ensures first { generator_of result ≡ first_generator seed }
        ensures undrawn { generator_of result ≡ generator_after seed 0 }
    {
        Draws {
            generator: Lcg64Xsh32::seed_from_u64(u64::from(seed)),
        }
    }

    /// The next draw.
    pub fn next(&mut self) -> u32
        ensures step { (result, generator_of self.new) ≡ pcg32 (generator_of self.old) }
        ensures draw { (seed n : ℕ) → generator_of self.old ≡ generator_after seed n → result ≡ draw_of seed n }
        ensures behind { (seed n : ℕ) → generator_of self.old ≡ generator_after seed n
            → generator_of self.new ≡ generator_after seed (suc n) }
    {
        self.generator.next_word()
    }
}
