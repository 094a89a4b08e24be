//! How a command ends: the reasons, the last line of each, and its status (docs/COMMANDS.md, "How a command ends").
//!
//! Each fault of a lower layer becomes an [`End`] by `?`: `from_gives` specifies which one, in the words of `specs/Conversions`.
#![tactic(auto)]

mod conversions;
mod ends;
mod last_line;
mod refusal;
mod text;

pub use conversions::{end_of_format, end_of_injection};
pub use ends::End;
pub use last_line::{answer, fail, finish};
pub use refusal::Refusal;
pub use text::{line_of, push_line, push_numbers, push_words};
