//! The lines of an input, one after another, and the lines of scripts and reports as they are written.
#![tactic(auto)]

mod line_reader;
mod report_reading;
mod report_writing;
mod spelling;
mod writing;

pub use line_reader::{LineReader, ReadStop};
pub use report_reading::{ReportFault, read_report};
pub use report_writing::write_report;
pub use writing::{write_event, write_line};
