//! Why a chip is not a volume: the first condition of a volume that it does not meet, and the first byte at which it breaks.
#![tactic(auto)]

mod breaks;
mod bytes;
mod condition;
mod finding;
mod header;
mod unfit;

pub use breaks::first_break;
pub use condition::{Break, Condition};
pub use finding::find_break;
