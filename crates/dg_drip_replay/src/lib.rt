//! A network of nodes that spread small values, event by event, and what is reported of each event.
#![tactic(auto)]

mod network;
mod report;

pub use network::DripNetwork;
pub use report::{DripCause, DripReport};
