//! Rehearsals: an update of a network simulated by the clock, with lost frames and power cuts, recorded as a script.
//!
//! The motes are those of a world over chips, so a replay of the script does the same. The schedule of a trial is written as a
//! script too.
#![tactic(auto)]

mod beginning;
mod call;
mod cutting;
mod laws;
mod neighbours;
mod noting;
mod opening;
mod plan;
mod program;
mod progress;
mod schedule;
mod stage;
mod stop;
mod telling;
mod trial;
mod turning;

pub use call::rehearse;
pub use laws::the_same_words_give_the_same_bytes;
pub use plan::{Ending, Plan, Rehearsal};
pub use program::{rehearse_for_program, write_trial_for_program};
pub use stop::Stop;
pub use trial::write_trial;
