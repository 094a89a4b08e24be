//! What stands around a command of `deluge`: its words, its chips in files or in memory, and what is told of it on standard
//! error. Whoever runs the command is handed in, so that none of this depends on the contract of `run` of `dg_cli`.
#![tactic(auto)]

mod commands;
mod finding;
mod guard;
mod notes;
mod opening;
mod program;
mod showing;
mod telling;
mod words;

pub use commands::Commands;
pub use guard::Guard;
pub use program::{answer, run_program};
pub use telling::exit_code;
