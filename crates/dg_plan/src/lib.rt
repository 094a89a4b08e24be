//! What is to be done to a chip that can be read in place, as a list of commands: a device that records programs and erases
//! instead of doing them.
//!
//! Reads show the chip as the commands so far leave it. Nothing here allocates: the lists are the caller's.
#![tactic(auto)]

mod command;
mod injections;
mod laws;
mod mounting;
mod orders;
mod packets;
mod pages;
mod plan;
mod recording;
mod seals;
mod starts;
mod takes;

pub use command::Command;
pub use injections::inject;
pub use laws::a_list_is_carried_out_or_not;
pub use mounting::ActFault;
pub use orders::order;
pub use packets::{PacketFault, packet, put_packet};
pub use pages::PageName;
pub use plan::Plan;
pub use seals::{SealFault, seal};
pub use starts::start;
pub use takes::take;
