//! One mote over the flash of its board: it advertises what it keeps, requests what it lacks, and serves what is
//! requested of it.
//!
//! The three states and the rules of asking and serving are those of Deluge (Hui and Culler, SenSys 2004); adverts are
//! timed by Trickle (RFC 6206). A mote keeps no packet bytes and allocates nothing.
#![tactic(auto)]

mod adverts;
mod buffers;
mod changes;
mod due;
mod hearing;
mod laws;
mod mote;
mod opening;
mod outbox;
mod packets;
mod requests;
mod rounds;
mod rules;
mod summary;
mod ticking;

pub use buffers::{PacketSet, SIZE_OF_ENTRIES, SIZE_OF_FRAME, SIZE_OF_PACKET_SET, WideEntries};
pub use changes::{packets_come_in_frames, what_a_mote_may_change};
pub use laws::{
    a_mote_buffers_little, a_mote_keeps_agreement, a_mote_keeps_consistency, a_mote_stays_timely,
    a_mote_stays_well, steps_begin, what_is_sent_is_read,
};
pub use mote::{Did, Heard, MOTE_SIZE, Mode, Mote};
pub use outbox::{OUTBOX_SIZE, Outbox};
pub use rounds::{
    a_drained_mote_advertises, a_drained_mote_asks, a_drained_mote_rests, a_drained_mote_serves,
    a_fresh_mote_is_drained, a_mote_drains, a_page_comes, ticks_take_few_commits,
};
pub use rules::{
    a_frame_is_heard_in_silence, a_restart_is_for_the_order, an_equal_advert_keeps_a_mote_silent,
    an_overheard_packet_keeps_a_mote_from_asking, an_overheard_request_keeps_a_mote_from_asking,
    pages_are_forwarded_before_the_image_is_whole, requests_are_sets,
};
