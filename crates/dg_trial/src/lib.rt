//! The trial: a schedule of losses, resets and cuts of power that a seed makes, played over boards.
//!
//! Motes in a line are formatted with golden, and an image is injected into the first one. Then chosen motes tick, hear
//! frames late, twice or not at all, and lose power in the middle of their starts. At the end the image goes to all of
//! them, sweep by sweep.
#![tactic(auto)]

mod beginning;
mod call;
mod disturbing;
mod laws;
mod playing;
mod recording;
mod summary;

pub use call::trial;
pub use laws::trials_end_whole;
pub use recording::{TrialRecord, record_trial};
