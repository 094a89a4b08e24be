//! Scripts of nodes that spread small values: what their lines say, and the lines of their reports.
#![tactic(auto)]

mod fields;
mod line;
mod reading;
mod reports;
mod sizes;

pub use line::{DripFault, DripLine, Standing};
pub use reading::read_line;
pub use reports::{push_end, push_entry, push_report};
pub use sizes::{MOST_NODES, scripts_of_nodes_have_this_bound};
