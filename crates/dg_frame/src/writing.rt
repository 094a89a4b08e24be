//! From messages to frames.
ghost use Rattle.std.specs.Prelude.{◌≡◌, ◌≤◌, Bool, true, Ok, ◌+◌, ◌∷◌, ◌++◌, [], length};
ghost use Rattle.std.specs.Int.{to_be_bytes, w16};
ghost use Rattle.arrayvec.specs.ArrayVec.{array_vec_len};
ghost use Rattle.dg_frame.specs.Sizes.{frame_bytes, advert_frame_size, request_frame_size, packet_frame_size};
ghost use Rattle.dg_frame.specs.Kinds.{kind_number, kind_row};
ghost use Rattle.dg_base.specs.Crc.{crc_of};
ghost use Rattle.dg_frame.specs.Spelling.{frame_of, FitsTypes};
ghost use Rattle.dg_frame.specs.Grammar.{in_range, message_of};
ghost use Rattle.dg_frame.specs.declared.Message.TheVariants as message;

use crate::fields::{put, put_entries, put_half, put_order, put_set, put_word};
use crate::kind::Kind;
use crate::{Entry, Frame, Message, NARROW_IMAGES, WIDE_IMAGES};
use dg_base::crc16;
use dg_bits::PageBits;
use dg_control::Order;
use dg_object::{PACKET_SIZE, PACKETS};

/// The frame of a message whose fields are in the ranges of a wide reader. A narrow reader reads it too, if they are in
/// its ranges.
#[tactic(auto, unfolding(crate::specs::Spelling::frame_of))]
pub fn write(message: &Message) -> Frame
    requires { in_range true message.now ≡ true }
    ensures spelled { result.items ≡ frame_of message.now }
    ensures reads_back { message_of result.items true ≡ Ok message.now }
    ensures read_by { (wide : Bool) → in_range wide message.now ≡ true → message_of result.items wide ≡ Ok message.now }
{
    frame(message)
}

/// The frame of a message, whatever its fields are.
fn frame(message: &Message) -> Frame
    ensures items { result.items ≡ frame_of message.now }
    ensures fits { FitsTypes message.now }
{
    match message {
        Message::Advert {
            source,
            entries,
            order,
        } => advert(*source, entries, order),
        Message::Request {
            source,
            to,
            image,
            version,
            page,
            want,
        } => request(*source, *to, *image, *version, *page, want),
        Message::Packet {
            source,
            image,
            version,
            page,
            packet,
            bytes,
        } => packet_frame(*source, *image, *version, *page, *packet, bytes),
        Message::Wide {
            source,
            entries,
            order,
        } => wide_advert(*source, entries, order),
    }
}

#[tactic(auto, unfolding(crate::specs::Spelling::frame_of))]
fn advert(source: u16, entries: &[Entry; NARROW_IMAGES], order: &Order) -> Frame
    ensures items { result.items ≡ frame_of (message.Advert source entries.now order.now) }
    ensures fits { FitsTypes (message.Advert source entries.now order.now) }
{
    let mut frame = begun(Kind::Advert, source);
    put_entries(&mut frame, entries);
    put_order(&mut frame, order);
    end(&mut frame);
    frame
}

#[tactic(auto, unfolding(crate::specs::Spelling::frame_of))]
fn wide_advert(source: u16, entries: &[Entry; WIDE_IMAGES], order: &Order) -> Frame
    ensures items { result.items ≡ frame_of (message.Wide source entries.now order.now) }
    ensures fits { FitsTypes (message.Wide source entries.now order.now) }
{
    let mut frame = begun(Kind::Wide, source);
    put_entries(&mut frame, entries);
    put_order(&mut frame, order);
    end(&mut frame);
    frame
}

#[tactic(auto, unfolding(crate::specs::Spelling::frame_of))]
fn request(
    source: u16,
    to: u16,
    image: u8,
    version: u32,
    page: u8,
    want: &PageBits<PACKETS>,
) -> Frame
    ensures items { result.items ≡ frame_of (message.Request source to image version page want.now) }
    ensures fits { FitsTypes (message.Request source to image version page want.now) }
{
    let mut frame = begun(Kind::Request, source);
    put_half(&mut frame, to);
    frame.push(image);
    put_word(&mut frame, version);
    frame.push(page);
    put_set(&mut frame, want);
    end(&mut frame);
    frame
}

#[tactic(auto, unfolding(crate::specs::Spelling::frame_of))]
fn packet_frame(
    source: u16,
    image: u8,
    version: u32,
    page: u8,
    packet: u8,
    bytes: &[u8; PACKET_SIZE],
) -> Frame
    ensures items { result.items ≡ frame_of (message.Packet source image version page packet bytes.now) }
    ensures fits { FitsTypes (message.Packet source image version page packet bytes.now) }
{
    let mut frame = begun(Kind::Packet, source);
    frame.push(image);
    put_word(&mut frame, version);
    frame.push(page);
    frame.push(packet);
    put(&mut frame, bytes);
    end(&mut frame);
    frame
}

/// A frame's kind and source.
fn begun(kind: Kind, source: u16) -> Frame
    ensures items { result.items ≡ kind_number kind ∷ to_be_bytes w16 source }
    ensures len { array_vec_len result ≡ 3 }
{
    let mut frame = Frame::new();
    frame.push(kind.number());
    put_half(&mut frame, source);
    frame
}

/// Appends the CRC of what is there. It is inlined where the length is known, so that the compiler knows the steps
/// of the CRC.
#[inline(always)]
fn end(frame: &mut Frame)
    requires { array_vec_len frame.old + 2 ≤ frame_bytes }
    ensures { frame.new.items ≡ frame.old.items ++ to_be_bytes w16 (crc_of frame.old.items) }
{
    let crc = crc16(frame.as_slice());
    put_half(frame, crc);
}
