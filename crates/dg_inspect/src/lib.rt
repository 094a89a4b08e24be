//! What a chip that is only read shows: the image that each slot keeps, program memory, the order, and what the next start would
//! run.
//!
//! Nothing here writes: a `StillChip` has no call that changes a byte, and every other function says of any device that it was
//! only read.
#![tactic(auto)]

mod chip;
mod faults;
mod files;
mod images;
mod looking;
mod numbers;
mod orders;
mod pages;
mod seen;
mod starting;

pub use chip::StillChip;
pub use files::{inspect, is_chip_length};
pub use looking::look;
pub use numbers::next_numbers;
pub use seen::{
    BytesSeen, ChainSeen, ChipSeen, FileSeen, ImageSeen, ImageVersion, LookFault, NextNumbers,
    NextStart, OrderState, PagesSeen, ProgramSeen, StartReason, VolumeSeen,
};
