//! The words of the program: which command they are, with what values, and which flash files it names.
//!
//! Each verb has one `clap` command. What `clap` makes of words is a function of definitions, so a
//! contract says exactly which words are a command.
#![tactic(auto)]

mod apps;
mod command;
mod helps;
mod laws;
mod ranges;
mod reading;
mod roots;
mod values;
mod verbs;
mod wrong;

pub use command::{Asked, Command};
pub use laws::{
    chain_lines_are_commands, forms_of_a_command, help_is_shown, lines_are_commands, misused_words,
    what_a_command_is,
};
pub use ranges::{
    LEAST_MOTES, LEAST_PAGES, MOST_STEP, MOST_TURNS, ROOT_BYTES, ROOT_DIGITS, the_ranges_are_these,
};
pub use reading::{asked, flash_names};
pub use roots::root_bytes;
pub use wrong::misuse;
