//! From bytes to messages.
ghost use Rattle.std.specs.Prelude.{◌≡◌, ◌==◌, ◌+◌, ◌-◌, ◌≤◌, length, take, IfOk};
ghost use Rattle.dg_base.specs.Crc.{crc_of};
ghost use Rattle.dg_frame.specs.Sizes.{advert_frame_size, request_frame_size, packet_frame_size, wide_frame_size, narrow_images};
ghost use Rattle.dg_frame.specs.Sizes.{wide_images};
ghost use Rattle.dg_frame.specs.Kinds.{kind_row};
ghost use Rattle.dg_frame.specs.Spelling.{frame_of};
ghost use Rattle.dg_frame.specs.Readings.{IsReading};
ghost use Rattle.dg_frame.specs.Grammar.{half_at, entries_in, advert_in, request_in, packet_in_frame, wide_in, message_of};

use crate::fields::{entry_at, half_at, order_at, set_at, word_in};
use crate::kind::{ADVERT_BYTES, Kind, PACKET_FRAME_BYTES, REQUEST_BYTES, WIDE_BYTES};
use crate::ranges::in_range;
use crate::{Entry, FrameFault, Message, NARROW_IMAGES, WIDE_IMAGES};
use dg_base::crc16;
use dg_object::PACKET_SIZE;

/// The bytes of the shortest frame: a kind, a source and a CRC.
pub const SHORTEST: usize = 5;

/// The message that bytes spell for a wide or narrow reader, or the first cause why they spell no message. Any bytes
/// may be given.
pub fn read(bytes: &[u8], wide: bool) -> Result<Message, FrameFault>
    ensures value { result ≡ message_of bytes.now wide }
    ensures reading { IsReading bytes.now wide result }
    ensures spelled { IfOk result (λ m. bytes.now ≡ frame_of m) }
{
    if bytes.len() < SHORTEST {
        return Err(FrameFault::Short);
    }
    let Some(kind) = Kind::of(bytes[0], wide) else {
        return Err(FrameFault::Kind);
    };
    if bytes.len() != kind.size() {
        return Err(FrameFault::Length);
    }
    if !is_checked(kind, bytes) {
        return Err(FrameFault::Check);
    }
    let message = fields(kind, bytes);
    if in_range(&message, wide) {
        Ok(message)
    } else {
        Err(FrameFault::Range)
    }
}

/// Whether the last two bytes of a frame of a kind are the CRC of those before them.
fn is_checked(kind: Kind, bytes: &[u8]) -> bool
    requires { length bytes.now ≡ (kind_row kind).0 }
    ensures { result ≡ (half_at bytes.now (length bytes.now - 2) == crc_of (take (length bytes.now - 2) bytes.now)) }
{
    match kind {
        Kind::Advert => has_crc_at(bytes, ADVERT_BYTES - 2),
        Kind::Request => has_crc_at(bytes, REQUEST_BYTES - 2),
        Kind::Packet => has_crc_at(bytes, PACKET_FRAME_BYTES - 2),
        Kind::Wide => has_crc_at(bytes, WIDE_BYTES - 2),
    }
}

/// Whether the CRC of the bytes before an offset is at that offset. It is inlined where the offset is known, so that
/// the compiler knows the steps of the CRC.
#[inline(always)]
pub fn has_crc_at(bytes: &[u8], at: usize) -> bool
    requires { at + 2 ≤ length bytes.now }
    ensures { result ≡ (half_at bytes.now at == crc_of (take at bytes.now)) }
{
    half_at(bytes, at) == crc16(&bytes[..at])
}

/// The fields of a frame of a kind.
fn fields(kind: Kind, bytes: &[u8]) -> Message
    requires { length bytes.now ≡ (kind_row kind).0 }
    ensures { result ≡ (kind_row kind).1 bytes.now }
{
    match kind {
        Kind::Advert => advert(bytes),
        Kind::Request => request(bytes),
        Kind::Packet => packet(bytes),
        Kind::Wide => wide_advert(bytes),
    }
}

fn advert(bytes: &[u8]) -> Message
    requires { length bytes.now ≡ advert_frame_size }
    ensures { result ≡ advert_in bytes.now }
{
    Message::Advert {
        source: half_at(bytes, 1),
        entries: narrow_entries(bytes),
        order: order_at(bytes, 27),
    }
}

fn wide_advert(bytes: &[u8]) -> Message
    requires { length bytes.now ≡ wide_frame_size }
    ensures { result ≡ wide_in bytes.now }
{
    Message::Wide {
        source: half_at(bytes, 1),
        entries: wide_entries(bytes),
        order: order_at(bytes, 51),
    }
}

fn narrow_entries(bytes: &[u8]) -> [Entry; NARROW_IMAGES]
    requires { length bytes.now ≡ advert_frame_size }
    ensures { result ≡ entries_in narrow_images bytes.now }
{
    [entry_at(bytes, 3), entry_at(bytes, 11), entry_at(bytes, 19)]
}

fn wide_entries(bytes: &[u8]) -> [Entry; WIDE_IMAGES]
    requires { length bytes.now ≡ wide_frame_size }
    ensures { result ≡ entries_in wide_images bytes.now }
{
    [
        entry_at(bytes, 3),
        entry_at(bytes, 11),
        entry_at(bytes, 19),
        entry_at(bytes, 27),
        entry_at(bytes, 35),
        entry_at(bytes, 43),
    ]
}

fn request(bytes: &[u8]) -> Message
    requires { length bytes.now ≡ request_frame_size }
    ensures { result ≡ request_in bytes.now }
{
    Message::Request {
        source: half_at(bytes, 1),
        to: half_at(bytes, 3),
        image: bytes[5],
        version: word_in(bytes, 6),
        page: bytes[10],
        want: set_at(bytes, 11),
    }
}

fn packet(bytes: &[u8]) -> Message
    requires { length bytes.now ≡ packet_frame_size }
    ensures { result ≡ packet_in_frame bytes.now }
{
    let mut carried = [0; PACKET_SIZE];
    carried.copy_from_slice(&bytes[10..10 + PACKET_SIZE]);
    Message::Packet {
        source: half_at(bytes, 1),
        image: bytes[3],
        version: word_in(bytes, 4),
        page: bytes[8],
        packet: bytes[9],
        bytes: carried,
    }
}
