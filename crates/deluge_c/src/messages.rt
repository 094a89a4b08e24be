//! Messages as structs of C, and their frames.
ghost use Rattle.std.specs.Prelude.{◌≡◌, ◌≢◌, ◌<◌, ◌≤◌, true, Ok, Err, Some, take, length};
ghost use Rattle.dg_bits.specs.ByteForm.{numbers_of};
ghost use Rattle.dg_frame.specs.Sizes.{wide_images};
ghost use Rattle.dg_frame.specs.Grammar.{in_range, message_of};
ghost use Rattle.dg_frame.specs.Spelling.{frame_of};
ghost use Rattle.dg_frame.specs.declared.Message.{Message};
ghost use Rattle.dg_frame.specs.declared.Message.TheVariants as message;
ghost use Rattle.dg_frame.specs.declared.FrameFault.{FrameFault};
ghost use Rattle.deluge_c.specs.Answers.{done, frame_answer};
ghost use Rattle.deluge_c.specs.Messages.{entry_of_fields, order_of_fields, entry_at_place, wide_entries_of, message_of_fields};

use crate::answers::{DONE, KIND, RANGE, frame_answer};
use crate::rooms::put_bytes;
use dg_bits::PageBits;
use dg_control::Order;
use dg_frame::{Entry, Message, NARROW_IMAGES, SET_BYTES, WIDE_IMAGES, in_range, read, write};
use dg_object::{PACKET_SIZE, PACKETS};

/// An advert of images 1 to 3.
const ADVERT: u8 = 1;

/// A request.
const REQUEST: u8 = 2;

/// A packet.
const PACKET: u8 = 3;

/// An advert of images 1 to 6.
const WIDE: u8 = 4;

/// What an advert says of an image. All is 0 where nothing is kept.
#[repr(C)]
#[derive(Clone, Copy)]
pub struct EntryFields {
    pub version: u32,
    pub pages: u8,
    pub have: u8,
    pub crc: u16,
}

/// The order of an advert. All is 0 where there is none.
#[repr(C)]
#[derive(Clone, Copy)]
pub struct OrderFields {
    pub number: u32,
    pub version: u32,
    pub image: u8,
}

/// The fields of a message. Those that its kind does not have are 0 where they are read, and not looked at where they are
/// written.
#[repr(C)]
#[derive(Clone, Copy)]
pub struct MessageFields {
    /// The first byte of its frame: 1 advert, 2 request, 3 packet, 4 wide advert.
    pub kind: u8,
    pub image: u8,
    pub page: u8,
    pub packet: u8,
    pub source: u16,
    /// The mote that a request asks.
    pub to: u16,
    pub version: u32,
    /// The packets that a request asks for: packet n by bit 7 - n % 8 of byte n / 8.
    pub want: [u8; SET_BYTES],
    pub bytes: [u8; PACKET_SIZE],
    pub entries: [EntryFields; WIDE_IMAGES],
    pub order: OrderFields,
}

/// Nothing is kept of an image.
const NO_ENTRY: EntryFields = EntryFields {
    version: 0,
    pages: 0,
    have: 0,
    crc: 0,
};

/// All fields are 0.
const NO_FIELDS: MessageFields = MessageFields {
    kind: 0,
    image: 0,
    page: 0,
    packet: 0,
    source: 0,
    to: 0,
    version: 0,
    want: [0; SET_BYTES],
    bytes: [0; PACKET_SIZE],
    entries: [NO_ENTRY; WIDE_IMAGES],
    order: OrderFields {
        number: 0,
        version: 0,
        image: 0,
    },
};

/// Reads bytes as a message, for a reader that is wide or narrow, or answers the first cause why they are not one.
#[unsafe(no_mangle)]
pub extern "C" fn deluge_frame_read(frame: &[u8], wide: bool, message: &mut MessageFields) -> u32
    ensures read { (m : Message) → message_of frame.now wide ≡ Ok m
        → (result ≡ done) × (message_of_fields message.new ≡ Some m) }
    ensures refused { (e : FrameFault) → message_of frame.now wide ≡ Err e
        → (result ≡ frame_answer e) × (message.new ≡ message.old) }
{
    match read(frame, wide) {
        Ok(found) => {
            *message = fields(&found);
            DONE
        }
        Err(fault) => frame_answer(fault),
    }
}

/// Writes the frame of a message: at most 64 bytes. Its fields are to be in the ranges of a wide reader.
#[unsafe(no_mangle)]
pub extern "C" fn deluge_frame_write(
    message: &MessageFields,
    into: &mut [u8],
    count: &mut usize,
) -> u32
    ensures written { result ≡ done → (m : Message) × (message_of_fields message.now ≡ Some m) × (in_range true m ≡ true)
        × (take count.new into.new ≡ frame_of m) }
    ensures answer { (m : Message) → message_of_fields message.now ≡ Some m → in_range true m ≡ true
        → length (frame_of m) ≤ length into.old → result ≡ done }
    ensures refused { result ≢ done → (into.new ≡ into.old) × (count.new ≡ 0) }
{
    *count = 0;
    let Some(found) = message_in(message) else {
        return KIND;
    };
    if !in_range(&found, true) {
        return RANGE;
    }
    put_bytes(&write(&found), into, count)
}

/// The message of these fields, where their kind is known.
#[tactic(auto, unfolding(crate::specs::Messages::message_of_fields))]
fn message_in(m: &MessageFields) -> Option<Message>
    ensures { result ≡ message_of_fields m.now }
{
    match m.kind {
        ADVERT => Some(Message::Advert {
            source: m.source,
            entries: [entry_in(m, 0), entry_in(m, 1), entry_in(m, 2)],
            order: order_in(&m.order),
        }),
        REQUEST => Some(Message::Request {
            source: m.source,
            to: m.to,
            image: m.image,
            version: m.version,
            page: m.page,
            want: set_in(&m.want),
        }),
        PACKET => Some(Message::Packet {
            source: m.source,
            image: m.image,
            version: m.version,
            page: m.page,
            packet: m.packet,
            bytes: m.bytes,
        }),
        WIDE => Some(Message::Wide {
            source: m.source,
            entries: wide_entries_in(m),
            order: order_in(&m.order),
        }),
        _ => None,
    }
}

/// The entry of an advert at a place.
fn entry_in(m: &MessageFields, place: usize) -> Entry
    requires { place < wide_images }
    ensures { result ≡ entry_at_place m.now place }
{
    let entry = &m.entries[place];
    Entry {
        version: entry.version,
        pages: entry.pages,
        have: entry.have,
        crc: entry.crc,
    }
}

/// The entries of a wide advert.
fn wide_entries_in(m: &MessageFields) -> [Entry; WIDE_IMAGES]
    ensures { result ≡ wide_entries_of m.now }
{
    [
        entry_in(m, 0),
        entry_in(m, 1),
        entry_in(m, 2),
        entry_in(m, 3),
        entry_in(m, 4),
        entry_in(m, 5),
    ]
}

pub(crate) fn order_in(order: &OrderFields) -> Order
    ensures { result ≡ order_of_fields order.now }
{
    Order {
        number: order.number,
        image: order.image,
        version: order.version,
    }
}

/// The packets of a page whose bits are set.
pub(crate) fn set_in(want: &[u8; SET_BYTES]) -> PageBits<PACKETS>
    ensures { result ≡ numbers_of want.now }
{
    PageBits::from_bytes(want).unwrap()
}

/// The fields of a message.
fn fields(message: &Message) -> MessageFields
    ensures { message_of_fields result ≡ Some message.now }
{
    match message {
        Message::Advert {
            source,
            entries,
            order,
        } => advert_fields(*source, entries, order),
        Message::Request {
            source,
            to,
            image,
            version,
            page,
            want,
        } => request_fields(*source, *to, *image, *version, *page, want),
        Message::Packet {
            source,
            image,
            version,
            page,
            packet,
            bytes,
        } => packet_fields(*source, *image, *version, *page, *packet, bytes),
        Message::Wide {
            source,
            entries,
            order,
        } => wide_fields(*source, entries, order),
    }
}

#[tactic(auto, unfolding(crate::specs::Messages::message_of_fields))]
fn advert_fields(source: u16, entries: &[Entry; NARROW_IMAGES], order: &Order) -> MessageFields
    ensures { message_of_fields result ≡ Some (message.Advert source entries.now order.now) }
{
    let told = [
        entry_fields(&entries[0]),
        entry_fields(&entries[1]),
        entry_fields(&entries[2]),
        NO_ENTRY,
        NO_ENTRY,
        NO_ENTRY,
    ];
    let mut fields = NO_FIELDS;
    fields.kind = ADVERT;
    fields.source = source;
    fields.entries = told;
    fields.order = order_fields(order);
    fields
}

#[tactic(auto, unfolding(crate::specs::Messages::message_of_fields))]
fn wide_fields(source: u16, entries: &[Entry; WIDE_IMAGES], order: &Order) -> MessageFields
    ensures { message_of_fields result ≡ Some (message.Wide source entries.now order.now) }
{
    let told = [
        entry_fields(&entries[0]),
        entry_fields(&entries[1]),
        entry_fields(&entries[2]),
        entry_fields(&entries[3]),
        entry_fields(&entries[4]),
        entry_fields(&entries[5]),
    ];
    let mut fields = NO_FIELDS;
    fields.kind = WIDE;
    fields.source = source;
    fields.entries = told;
    fields.order = order_fields(order);
    fields
}

#[tactic(auto, unfolding(crate::specs::Messages::message_of_fields))]
fn request_fields(
    source: u16,
    to: u16,
    image: u8,
    version: u32,
    page: u8,
    want: &PageBits<PACKETS>,
) -> MessageFields
    ensures { message_of_fields result ≡ Some (message.Request source to image version page want.now) }
{
    let mut fields = NO_FIELDS;
    fields.kind = REQUEST;
    fields.source = source;
    fields.to = to;
    fields.image = image;
    fields.version = version;
    fields.page = page;
    want.to_bytes(&mut fields.want);
    fields
}

#[tactic(auto, unfolding(crate::specs::Messages::message_of_fields))]
fn packet_fields(
    source: u16,
    image: u8,
    version: u32,
    page: u8,
    packet: u8,
    bytes: &[u8; PACKET_SIZE],
) -> MessageFields
    ensures { message_of_fields result ≡ Some (message.Packet source image version page packet bytes.now) }
{
    let mut fields = NO_FIELDS;
    fields.kind = PACKET;
    fields.source = source;
    fields.image = image;
    fields.version = version;
    fields.page = page;
    fields.packet = packet;
    let carried = *bytes;
    fields.bytes = carried;
    fields
}

fn entry_fields(entry: &Entry) -> EntryFields
    ensures { entry_of_fields result ≡ entry.now }
{
    EntryFields {
        version: entry.version,
        pages: entry.pages,
        have: entry.have,
        crc: entry.crc,
    }
}

fn order_fields(order: &Order) -> OrderFields
    ensures { order_of_fields result ≡ order.now }
{
    OrderFields {
        number: order.number,
        version: order.version,
        image: order.image,
    }
}
