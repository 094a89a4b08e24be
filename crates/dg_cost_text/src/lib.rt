//! What was counted as texts: rows of keys and values as comma-separated values, as JSON and as tables for people, a report with
//! the event and the moment of each line, and the energy by a model.
#![tactic(auto)]

mod csv;
mod energy;
mod json;
mod layout;
mod model;
mod moment;
mod rows;
mod table;
mod timed;

pub use csv::csv_text;
pub use json::json_text;
pub use model::{Model, ModelFault, read_model};
pub use moment::{Moment, Stamp, What};
pub use rows::{Counted, Part, Row, Rows, total_of};
pub use table::table_text;
pub use timed::timed_text;
