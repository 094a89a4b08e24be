//! How a frame that was written is read, without its bytes.
ghost use Rattle.std.specs.Prelude.{◌≡◌, ◌^◌, ◌<◌, Bool, true, false, Ok, Err, IfSome, IfNone};
ghost use Rattle.std.specs.List.{AllByRecursion};
ghost use Rattle.dg_words.specs.Cells.{AreBytes};
ghost use Rattle.dg_frame.specs.Ranges.{IsInRange};
ghost use Rattle.dg_frame.specs.Spelling.{frame_of, EntryFitsTypes, FitsTypes};
ghost use Rattle.dg_frame.specs.Grammar.{in_range, message_of};
ghost use Rattle.dg_frame.specs.declared.Message.TheVariants as message;

use crate::laws::one_reading;
use crate::ranges::in_range;
use crate::reading::read;
use crate::writing::write;
use crate::{Entry, FrameFault, Message, NARROW_IMAGES, WIDE_IMAGES};
use dg_bits::PageBits;
use dg_control::Order;
use dg_object::{PACKET_SIZE, PACKETS};

/// The frame of a message is read as the message, by each reader that has its fields in its ranges. The function does
/// nothing: its contract is the law.
pub fn is_read_back(message: &Message)
    ensures { (wide : Bool) → in_range wide message.now ≡ true → message_of (frame_of message.now) wide ≡ Ok message.now }
{
    fits_types(message);
}

/// Why a reader, wide or narrow, refuses the frame of a message. None if it reads the frame as the message. The fields of the
/// message are in the ranges of a wide reader.
#[inline(always)]
pub fn refusal(message: &Message, wide: bool) -> Option<FrameFault>
    requires { in_range true message.now ≡ true }
    ensures read { IfNone result (message_of (frame_of message.now) wide ≡ Ok message.now) }
    ensures range { IfNone result (IsInRange wide message.now) }
    ensures refused { IfSome result (λ fault. message_of (frame_of message.now) wide ≡ Err fault) }
{
    is_read_back(message);
    one_reading();
    if wide {
        return None;
    }
    narrow_refusal(message)
}

/// Why a narrow reader refuses the frame of a message. It is not inlined: most readers are wide.
#[inline(never)]
fn narrow_refusal(message: &Message) -> Option<FrameFault>
    requires { in_range true message.now ≡ true }
    ensures read { IfNone result (message_of (frame_of message.now) false ≡ Ok message.now) }
    ensures range { IfNone result (IsInRange false message.now) }
    ensures refused { IfSome result (λ fault. message_of (frame_of message.now) false ≡ Err fault) }
{
    is_read_back(message);
    if in_range(message, false) {
        return None;
    }
    match read(write(message).as_slice(), false) {
        Ok(_) => None,
        Err(fault) => Some(fault),
    }
}

/// The fields of a message fit the types of the code.
fn fits_types(message: &Message)
    ensures { FitsTypes message.now }
{
    match message {
        Message::Advert {
            source,
            entries,
            order,
        } => advert_fits_types(*source, entries, order),
        Message::Request {
            source,
            to,
            image,
            version,
            page,
            want,
        } => request_fits_types(*source, *to, *image, *version, *page, want),
        Message::Packet {
            source,
            image,
            version,
            page,
            packet,
            bytes,
        } => packet_fits_types(*source, *image, *version, *page, *packet, bytes),
        Message::Wide {
            source,
            entries,
            order,
        } => wide_fits_types(*source, entries, order),
    }
}

fn advert_fits_types(source: u16, entries: &[Entry; NARROW_IMAGES], order: &Order)
    ensures { FitsTypes (message.Advert source entries.now order.now) }
{
    entries_fit_types(entries);
    order_fits_types(order);
}

fn wide_fits_types(source: u16, entries: &[Entry; WIDE_IMAGES], order: &Order)
    ensures { FitsTypes (message.Wide source entries.now order.now) }
{
    entries_fit_types(entries);
    order_fits_types(order);
}

fn request_fits_types(
    source: u16,
    to: u16,
    image: u8,
    version: u32,
    page: u8,
    want: &PageBits<PACKETS>,
)
    ensures { FitsTypes (message.Request source to image version page want.now) }
{
    let _ = want.has(0);
}

fn packet_fits_types(
    source: u16,
    image: u8,
    version: u32,
    page: u8,
    packet: u8,
    bytes: &[u8; PACKET_SIZE],
)
    ensures { FitsTypes (message.Packet source image version page packet bytes.now) }
{
    bytes_fit_types(bytes);
}

fn bytes_fit_types(bytes: &[u8])
    ensures { AreBytes bytes.now }
{}

fn entries_fit_types(entries: &[Entry])
    ensures { AllByRecursion EntryFitsTypes entries.now }
{
    for entry in entries {
        entry_fits_types(entry);
    }
}

fn entry_fits_types(entry: &Entry)
    ensures { EntryFitsTypes entry.now }
{
    word_fits_type(entry.version);
    half_fits_type(entry.crc);
}

fn order_fits_types(order: &Order)
    ensures number_fits { order.now.number < 2 ^ 32 }
    ensures version_fits { order.now.version < 2 ^ 32 }
{
    word_fits_type(order.number);
    word_fits_type(order.version);
}

fn half_fits_type(number: u16)
    ensures { number < 2 ^ 16 }
{}

fn word_fits_type(number: u32)
    ensures { number < 2 ^ 32 }
{}
