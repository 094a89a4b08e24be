//! Messages between motes, and their bytes.
//!
//! A frame is its kind, its source, the fields of its kind in their order and the CRC of all of these, the
//! highest byte of a number first. A message that is in its ranges has one frame, and a frame spells one
//! message. A reader is wide or narrow: a narrow one knows fewer images, and no wide adverts. Nothing here
//! allocates.
#![tactic(auto)]

mod fields;
mod kind;
mod laws;
mod ranges;
mod reading;
mod sent;
mod writing;

use arrayvec::ArrayVec;
use dg_base::LONGEST_FRAME;
use dg_bits::PageBits;
use dg_control::Order;
use dg_object::{PACKET_SIZE, PACKETS};
pub use fields::{half_at, word_in};
pub use laws::{one_reading, one_spelling, the_sizes_are_these};
pub use ranges::in_range;
pub use reading::{SHORTEST, has_crc_at, read};
pub use sent::{is_read_back, refusal};
pub use writing::write;

/// The most bytes of a frame, also of one from outside, which may be any bytes.
pub const FRAME_BYTES: usize = LONGEST_FRAME;

/// A narrow reader knows the images from 1 to this number, and an advert names these.
pub const NARROW_IMAGES: usize = 3;

/// A wide reader knows the images from 1 to this number, and a wide advert names these.
pub const WIDE_IMAGES: usize = 6;

/// The bytes of a packet set: a bit for each packet of a page.
pub const SET_BYTES: usize = 6;

/// The bytes of a message.
pub type Frame = ArrayVec<u8, FRAME_BYTES>;

/// What a mote advertises that it keeps of an image. All fields are 0 if it keeps nothing.
#[derive(Clone, Copy, Debug, PartialEq, Eq)]
pub struct Entry {
    pub version: u32,
    /// Pages of the object, 2 to 65.
    pub pages: u8,
    /// How many of them it has.
    pub have: u8,
    /// The CRC of page 0.
    pub crc: u16,
}

/// What one mote sends to its neighbours.
#[derive(Clone, Copy, Debug, PartialEq, Eq)]
pub enum Message {
    /// What the source keeps of each image, and the best order that it knows. The order is all 0 if it knows no order.
    Advert {
        source: u16,
        entries: [Entry; NARROW_IMAGES],
        order: Order,
    },
    /// The source asks a mote for packets of a page.
    Request {
        source: u16,
        to: u16,
        image: u8,
        version: u32,
        page: u8,
        want: PageBits<PACKETS>,
    },
    /// A packet of a page.
    Packet {
        source: u16,
        image: u8,
        version: u32,
        page: u8,
        packet: u8,
        bytes: [u8; PACKET_SIZE],
    },
    /// An advert that only wide readers know.
    Wide {
        source: u16,
        entries: [Entry; WIDE_IMAGES],
        order: Order,
    },
}

/// Why bytes are not a frame. A cause is reported only if no cause before it applies.
#[derive(Clone, Copy, Debug, PartialEq, Eq)]
pub enum FrameFault {
    /// They are fewer than a kind, a source and a CRC.
    Short,
    /// The first byte names no kind that the reader knows.
    Kind,
    /// Their length is not that of the kind's frames.
    Length,
    /// The last two are not the CRC of those before them.
    Check,
    /// A field is out of its range.
    Range,
}
