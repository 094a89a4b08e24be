//! What chips show as texts: lines for a terminal, and JSON. And the command line of the program that inspects them.
#![tactic(auto)]

mod compared;
mod data;
mod findings;
mod images;
mod lines;
mod report;
mod texts;
mod values;
mod words;

pub use compared::{comparison_lines, verdict_line};
pub use data::{next_json, reports_json};
pub use findings::{comparison_json, verdict_json};
pub use lines::{file_line, next_lines, report_lines};
pub use report::{Moment, Report};
pub use texts::{condition_text, order_text, reason_text, side_text};
pub use words::{Asked, Request, read_words};
