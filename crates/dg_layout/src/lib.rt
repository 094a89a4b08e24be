//! The layout of a picture of a report: its columns, rows and lanes, and what changes in them.
#![tactic(auto)]

mod changing;
mod counts;
mod laws;
mod layout;

pub use changing::changes;
pub use counts::{largest, largest_of};
pub use laws::{a_picture_fits, the_last_column_shows_the_last_state};
pub use layout::{
    Frame, Grid, LINE_STEPS, MOMENT_STEPS, base_of, bottom_of, foot_of, frame_for, grid_for,
    height_of, left_of, middle_of, next_column, place_at, right_of,
};
