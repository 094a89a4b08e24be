//! What the report of a replay says: its lines, plain or timed, each at its place, and what they say of motes.
#![tactic(auto)]

mod endings;
mod lines;
mod reading;
mod reports;
mod told;

pub use lines::{Line, Stamp};
pub use reading::{LinesFault, begins_timed, read_lines};
pub use reports::{
    Ended, Mark, Pages, changes_image, has_mark, how_ended, images, is_change, last_powered,
    last_reported, motes, total,
};
pub use told::{Story, Told};
