//! The rules of a world: events, what they do, and which steps are legal.
#![tactic(auto)]

mod laws;

pub use dg_base::{Cut, Event, ImageVersion, Step};
pub use dg_script::{Cause, Report};
pub use laws::{
    agreement_is_kept, any_frames_leave_stores_consistent, consistency_is_kept,
    every_step_is_legal, golden_is_found, narrow_motes_know_few_images, scripts_with_boards,
    scripts_with_golden, versions_do_not_fall, what_a_cut_leaves_agrees, what_starts_is_a_row,
    widths_stay,
};
