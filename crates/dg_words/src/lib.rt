//! Definitions that the contracts of several crates share, and a law of them.
#![tactic(auto)]

mod laws;

pub use laws::a_bit_is_cleared_below_the_count;
