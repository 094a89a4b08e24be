//! The call that replays a script of nodes that spread small values.
#![tactic(auto)]

mod call;
mod finish;
mod laws;
mod lines;
mod player;

pub use call::drip;
