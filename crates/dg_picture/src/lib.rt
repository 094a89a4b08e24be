//! A picture of how an image spread, drawn of the report of a replay.
#![tactic(auto)]

mod axis;
mod bars;
mod call;
mod drawing;
mod following;
mod marks;
mod pieces;
mod rows;
mod screen;
mod steps;
mod texts;
mod versions;

pub use call::{PictureFault, picture};
pub use following::follow;
pub use screen::{Screen, ShowFailed};
