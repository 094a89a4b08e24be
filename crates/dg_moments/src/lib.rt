//! Notes when each image became whole, at each mote of a run and at all of them.
#![tactic(auto)]

mod changes;
mod given;
mod wholes;

pub use given::Given;
pub use wholes::{ImageAt, Whole, Wholes};
