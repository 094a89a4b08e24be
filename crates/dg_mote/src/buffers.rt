//! How many bytes of memory the buffers of a mote and of its calls take, by the sizes of their types.
use dg_bits::PageBits;
use dg_frame::{Entry, Frame, WIDE_IMAGES};
use dg_object::PACKETS;
use std::mem::size_of;

/// The packets of a page that are requested, or that have arrived.
pub type PacketSet = PageBits<PACKETS>;

/// The entries of a wide advert.
pub type WideEntries = [Entry; WIDE_IMAGES];

/// The bytes that a packet set takes.
pub const SIZE_OF_PACKET_SET: usize = size_of::<PacketSet>();

/// The bytes that the entries of a wide advert take.
pub const SIZE_OF_ENTRIES: usize = size_of::<WideEntries>();

/// The bytes that a frame takes: its array, and the length of the frame in it.
pub const SIZE_OF_FRAME: usize = size_of::<Frame>();
