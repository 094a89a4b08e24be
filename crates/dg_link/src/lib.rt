//! Links, over which motes send frames to one another.
#![tactic(auto)]

mod failing;
mod link;
mod memory;

pub use failing::FailLink;
pub use link::{Link, LinkFailed, OpenFault};
pub use memory::MemLink;
