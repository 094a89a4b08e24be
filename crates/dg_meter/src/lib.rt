//! A chip whose programs and erases are counted: how many, of how many bytes, and where they are made.
//!
//! A meter wraps a chip, forwards each call to it, and exposes all that the chip exposes.
#![tactic(auto)]

mod known;
mod laws;
mod meter;
mod region;
mod share;
mod shares;
mod tally;

pub use laws::a_region_counts_alone;
pub use meter::Metered;
pub use region::{REGIONS, Region};
pub use share::Share;
pub use shares::Shares;
pub use tally::{Kind, Operation, SLOTS, Tally};
