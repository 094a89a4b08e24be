//! What the run of a script costs: frames and bytes of each mote, flash operations, commits, starts, and when images became
//! whole.
//!
//! The run is that of `replay`: a watcher is shown each event, and the boards are meters, which count the programs and erases
//! that are made and forward each.
#![tactic(auto)]

mod call;
mod flash_rows;
mod frame_rows;
mod looking;
mod moment_rows;
mod mote_rows;
mod program;

pub use call::{Form, cost};
pub use program::cost_for_program;
