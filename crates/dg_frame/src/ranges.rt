//! The ranges of the fields of a message.
ghost use Rattle.std.specs.Prelude.{◌≡◌, ◌↔◌, ◌&&◌, IsTrue};
ghost use Rattle.std.specs.List.{list_all};
ghost use Rattle.dg_frame.specs.Sizes.{known_images};
ghost use Rattle.dg_frame.specs.Ranges.{IsInRange};
ghost use Rattle.dg_frame.specs.Grammar.{entry_fits, order_in_frame, page_fits, in_range};

use crate::{Entry, Message, NARROW_IMAGES, WIDE_IMAGES};
use dg_control::Order;
use dg_object::{FEWEST_PAGES, MOST_PAGES, PACKETS};

/// Whether each field is in its range, so that a wide or narrow reader accepts the message. Sources and
/// destinations may be anything.
#[tactic(auto, unfolding(crate::specs::Grammar::in_range))]
pub fn in_range(message: &Message, wide: bool) -> bool
    ensures value { result ≡ in_range wide message.now }
    ensures fields { IsTrue result ↔ IsInRange wide message.now }
{
    match message {
        Message::Advert { entries, order, .. } => advert_fits(entries, order, NARROW_IMAGES),
        Message::Request {
            image,
            version,
            page,
            want,
            ..
        } => page_fits(*image, *version, *page, wide) && want.count() != 0,
        Message::Packet {
            image,
            version,
            page,
            packet,
            ..
        } => page_fits(*image, *version, *page, wide) && usize::from(*packet) < PACKETS,
        Message::Wide { entries, order, .. } => wide && advert_fits(entries, order, WIDE_IMAGES),
    }
}

/// Whether an advert of this many images contains only what a chip may keep.
fn advert_fits(entries: &[Entry], order: &Order, images: usize) -> bool
    ensures { result ≡ (list_all entry_fits entries.now && order_in_frame images order.now) }
{
    entries_fit(entries) && order_fits(order, images)
}

fn entries_fit(entries: &[Entry]) -> bool
    ensures { result ≡ list_all entry_fits entries.now }
{
    entries.iter().all(|entry| entry_fits(entry))
}

/// Whether an entry is all 0, or describes a version.
fn entry_fits(entry: &Entry) -> bool
    ensures { result ≡ entry_fits entry.now }
{
    if entry.version == 0 {
        entry.pages == 0 && entry.have == 0 && entry.crc == 0
    } else {
        FEWEST_PAGES <= entry.pages && entry.pages <= MOST_PAGES && entry.have <= entry.pages
    }
}

/// Whether an order is all 0, or names one of this many images, or golden.
fn order_fits(order: &Order, images: usize) -> bool
    ensures { result ≡ order_in_frame images order.now }
{
    if order.number == 0 {
        order.image == 0 && order.version == 0
    } else {
        usize::from(order.image) <= images && order.version >= 1
    }
}

/// Whether a page of a version of an image can be asked for and sent, by motes that are wide or narrow.
fn page_fits(image: u8, version: u32, page: u8, wide: bool) -> bool
    ensures { result ≡ page_fits (known_images wide) image version page }
{
    1 <= image && usize::from(image) <= known_images(wide) && version >= 1 && page < MOST_PAGES
}

/// A wide reader, or a narrow one, knows the images from 1 to this number.
fn known_images(wide: bool) -> usize
    ensures { result ≡ known_images wide }
{
    if wide { WIDE_IMAGES } else { NARROW_IMAGES }
}
