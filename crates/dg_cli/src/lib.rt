//! The commands of the program: `run` does all that it does, and `flash_names` gives the files that it works on.
#![tactic(auto)]

mod base;
mod chain;
mod command;
mod dispatch;
mod help;
mod migrate;
mod program;

pub use command::run;
pub use dg_command::flash_names;
pub use program::run_for_program;
