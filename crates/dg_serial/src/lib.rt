//! Frames on a serial line: how they are stuffed, and how a stream of bytes is read as frames.
//!
//! The bytes 7e and 7d of a frame are escaped by the control escape of RFC 1662, section 4.2: the byte 7d, and then the
//! byte with its sixth bit complemented. The byte 7e ends a frame.
#![tactic(auto)]

mod laws;
mod sizes;
mod stuffing;
mod unstuffing;

pub use laws::{
    broken_pieces_have_a_lone_escape, frames_come_back, streams_are_cut, streams_go_on,
};
pub use sizes::the_bytes_of_a_line_are_these;
pub use stuffing::stuff;
pub use unstuffing::{Fed, Unstuff};

/// The byte that ends a frame: the flag sequence.
pub const FLAG: u8 = 0x7E;

/// The byte that escapes the next: the control escape.
pub const ESCAPE: u8 = 0x7D;

/// What stands for the flag after an escape.
pub const ESCAPED_FLAG: u8 = 0x5E;

/// What stands for the escape itself after an escape.
pub const ESCAPED_ESCAPE: u8 = 0x5D;
