//! The kinds of frames and answers, with their names in keys.
ghost use Rattle.std.specs.Prelude.{◌≡◌, ◌<◌, true, length};
ghost use Rattle.dg_frame.specs.Grammar.{in_range};
ghost use Rattle.dg_frame.specs.Spelling.{frame_of};
ghost use Rattle.dg_events.specs.Frames.{frame_number, frame_size};

use dg_events::SENT_KINDS;
use dg_frame::{Message, is_read_back};
use dg_mote::Heard;

/// The kinds of frames, and bytes that are none of them.
pub const FRAMES: [&str; 5] = ["advert", "request", "packet", "wide", "else"];

/// The number of packets among the kinds of frames.
pub const PACKET: usize = 2;

/// The number of a message's kind.
#[inline(always)]
pub fn kind_of(message: &Message) -> u8
    requires range { in_range true message.now ≡ true }
    ensures number { frame_number (frame_of message.now) ≡ result }
    ensures size { length (frame_of message.now) ≡ frame_size result }
    ensures few { result < 4 }
{
    is_read_back(message);
    match message {
        Message::Advert { .. } => 0,
        Message::Request { .. } => 1,
        Message::Packet { .. } => 2,
        Message::Wide { .. } => 3,
    }
}

pub const ANSWERS: [&str; 12] = [
    "refused", "dropped", "noted", "same", "other", "asks", "serves", "merged", "took", "sealed",
    "bad", "cut",
];

/// The number of the answer to a frame in which the power was cut.
pub const CUT_ANSWER: usize = 11;

/// The number of an answer.
#[inline(always)]
pub fn answer_kind(heard: Heard) -> usize {
    match heard {
        Heard::Refused(_) => 0,
        Heard::Dropped => 1,
        Heard::Noted => 2,
        Heard::Same => 3,
        Heard::Other => 4,
        Heard::Asks { .. } => 5,
        Heard::Serves { .. } => 6,
        Heard::Merged => 7,
        Heard::Took { .. } => 8,
        Heard::Sealed { .. } => 9,
        Heard::Bad { .. } => 10,
    }
}
