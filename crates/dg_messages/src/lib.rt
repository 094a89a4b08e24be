//! Messages on standard error where a command does not do what it was asked: a line for each cause, with its
//! value and what to do (docs/COMMANDS.md, "How a command ends").
#![tactic(auto)]

mod causes;
mod last_lines;
mod laws;
mod line;
mod reading;
mod sentences;
mod showing;
mod streams;
mod tables;
mod text;

pub use causes::{InputFault, Misuse, OutputFault, Reads, Refused, Told};
pub use laws::{each_last_line_is_read, no_two_sentences_are_alike, what_is_shown_is_plain};
pub use line::message;
pub use reading::{Causes, told};
pub use sentences::push_sentence;
pub use showing::shown;
pub use streams::{Input, Output};
