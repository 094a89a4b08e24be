//! The outcomes of a run's events, how many events of each kind there are at each mote, which frames motes sent, heard and
//! refused, which came to them from outside, and how long motes are on.
#![tactic(auto)]

mod counting;
mod event_counter;
mod event_counts;
mod fault_kinds;
mod frame_counter;
mod kinds;
mod laws;
mod outside_counts;
mod sent_frame;
mod told;
mod uptime;

pub use counting::{add_one, add_share, bytes_kind};
pub use event_counter::EventCounter;
pub use event_counts::EventCounts;
pub use fault_kinds::{FAULTS, fault_kind};
pub use frame_counter::{FrameCounter, FrameCounts, SENT_KINDS, frame_bytes};
pub use kinds::{CAUSES, EVENTS, cause_kind, event_kind};
pub use laws::have_lines_tell_what_became_whole;
pub use outside_counts::OutsideCounts;
pub use sent_frame::{HeardFrame, SentFrame, bit};
pub use told::{NOTHING_TOLD, Told, are_none, are_sent, told_by};
pub use uptime::{Uptime, Uptimes};
