//! What boards keep before a run.
use dg_control::IMAGES;
use dg_volume::Kept;

/// What a board keeps before the run.
#[derive(Clone, Copy)]
pub struct Given {
    pub room: u32,
    pub kept: [Option<Kept>; IMAGES],
}
