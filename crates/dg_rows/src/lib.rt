//! Rows: commands over chips in memory, each with what stands outside of it and its expected outcome, as files specify them.
#![tactic(auto)]

mod chips;
mod operations;
mod outside;
mod player;
mod row;
mod runner;
mod saved;
mod stops;
mod turns;

use player::Player;
pub use player::Tally;
pub use runner::Runner;
use std::alloc::{AllocError, Global};

/// Plays the rows of a text, and answers their outcome.
pub fn play<R: Runner>(alloc: Global, runner: &R, text: &str) -> Result<Tally, AllocError> {
    let mut player = Player::new(alloc, runner);
    for (index, line) in text.lines().enumerate() {
        player.line(index, line)?;
    }
    player.end()?;
    Ok(player.tally())
}
