//! A base mote on a serial line: frames come stuffed over a stream of bytes, and what the mote sends goes back over another.
//!
//! The stuffing is that of RFC 1662, section 4.2.
#![tactic(auto)]

mod call;
mod playing;
mod reading;
mod running;
mod sending;
mod timeline;

pub use call::base;
