//! What stands outside of a command, as its contract sees it. The words are those of `specs/`.
#![tactic(auto)]

mod laws;

pub use laws::counts_rise_through;
