//! Sizes of a chip, and where its parts are.
pub(crate) use dg_control::GOLDEN;
pub(crate) use dg_object::{PACKET_SIZE, PAGE_SIZE};
pub(crate) use dg_slot::PROGRAM_SECTOR as PROGRAM;

/// Packets of a page.
pub(crate) const PACKETS: u8 = dg_object::PACKETS as u8;
