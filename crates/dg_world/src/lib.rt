//! The world of motes over their boards: how it begins, what is declared, its steps, and its last state.
#![tactic(auto)]

mod act_outcomes;
mod alone;
mod apply;
mod chip_report;
mod cutting;
mod declare;
mod dispatch;
mod finish;
mod format;
mod hearing;
mod injecting;
mod known_boards;
mod mount;
mod ordering;
mod outcome;
mod sending;
mod starting;
mod stepping;
mod telling;
mod ticking;
mod width;
mod world;

pub use alone::play_alone;
pub use finish::FinishFault;
pub use format::{FormatStopped, format_boards};
pub use mount::{MountStopped, mount_boards};
pub use outcome::Fault;
pub use world::{DeclareFault, World, WorldFault};
