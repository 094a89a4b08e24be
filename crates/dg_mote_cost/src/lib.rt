//! What is counted of a mote: the bytes that it heard, its answers, the work of its chip, its commits and its starts.
#![tactic(auto)]

mod hot_cost;
mod kinds;
mod mote;
mod pages;
mod power;
mod share;
mod work;

pub use hot_cost::{FILL, HotCost, MOTES, PUT, TRACED_PUT, USED};
pub use kinds::{ANSWERS, CUT_ANSWER, FRAMES, PACKET, kind_of};
pub use mote::MoteCost;
pub use pages::{Have, KeptPages};
pub use share::{add, narrow, share_of};
pub use work::{NO_WORK, ONE_PUT, Work};
