//! Counts what the run of a script costs, as a watcher of its replay: frames and bytes of each mote, operations of its flash,
//! commits, starts, and when each image became whole.
#![tactic(auto)]

mod call;
mod costs;
mod counter;
mod frame_counting;
mod frames;
mod heard_frames;
mod hearing;
mod noting;
mod place;
mod power;
mod tallies;
mod ticking;
mod watching;
mod work;

pub use call::replay_counted;
pub use costs::Costs;
pub use counter::Counter;
pub use frames::FrameIndex;
pub use place::EventPlace;
pub use tallies::tally_at;
