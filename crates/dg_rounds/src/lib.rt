//! Rounds and sweeps over the links of a network, and how many of them are enough.
//!
//! In a round two motes are drained, the first advertises to the second what it has, the second asks for a
//! page, and the first sends it. A sweep has a round in each direction over each link.
#![tactic(auto)]

mod distances;
mod rounds;
mod sweeps;

pub use distances::{enough, levels};
pub use rounds::{
    PACE, ROUND_EVENTS, RoundEvents, a_round_has_these_ticks, a_round_has_this_pace, round,
};
pub use sweeps::{SweepEvents, sweep};
