//! What a mote advertises.
ghost use Rattle.std.specs.Prelude.{◌≡◌, ℕ, ◌||◌, nat_le, true, false, List, Option};
ghost use Rattle.dg_slot.specs.Kept.{Held};
ghost use Rattle.dg_volume.specs.Store.{Store};
ghost use Rattle.dg_volume.specs.Told.{told};
ghost use Rattle.dg_volume.specs.Stands.{Tells, IsMounted};
ghost use Rattle.dg_frame.specs.Sizes.{narrow_images};
ghost use Rattle.dg_frame.specs.Grammar.{in_range};
ghost use Rattle.dg_mote.specs.Summary.{entry_by, entries_of, own_order, advert_of};

use dg_control::Order;
use dg_frame::{Entry, Message, NARROW_IMAGES, WIDE_IMAGES};
use dg_volume::{Kept, Volume};

/// The entry of an image of which this is kept.
pub(crate) fn entry_of(kept: Option<Kept>) -> Entry
    ensures { (h : Option Held) → kept ≡ told h → result ≡ entry_by h }
{
    match kept {
        None => Entry {
            version: 0,
            pages: 0,
            have: 0,
            crc: 0,
        },
        Some(kept) => Entry {
            version: kept.version,
            pages: kept.pages,
            have: kept.done,
            crc: kept.crc,
        },
    }
}

/// The advert of what a volume keeps and of its order, as a wide or a narrow mote sends it.
pub(crate) fn advert_message(id: u16, wide: bool, volume: &Volume) -> Message
    requires { (c : List ℕ) × IsMounted c volume.now }
    ensures says { (s : Store) → Tells volume.now s → result ≡ advert_of id wide s }
    ensures fits { in_range wide result ≡ true }
{
    let order = own_order(wide, volume);
    if wide {
        Message::Wide {
            source: id,
            entries: wide_entries(volume),
            order,
        }
    } else {
        Message::Advert {
            source: id,
            entries: narrow_entries(volume),
            order,
        }
    }
}

/// The entries of images 1 to 6.
fn wide_entries(volume: &Volume) -> [Entry; WIDE_IMAGES]
    ensures { (s : Store) → Tells volume.now s → result ≡ entries_of true s }
{
    [
        entry_of(volume.kept(1)),
        entry_of(volume.kept(2)),
        entry_of(volume.kept(3)),
        entry_of(volume.kept(4)),
        entry_of(volume.kept(5)),
        entry_of(volume.kept(6)),
    ]
}

/// The entries of images 1 to 3.
fn narrow_entries(volume: &Volume) -> [Entry; NARROW_IMAGES]
    ensures { (s : Store) → Tells volume.now s → result ≡ entries_of false s }
{
    [
        entry_of(volume.kept(1)),
        entry_of(volume.kept(2)),
        entry_of(volume.kept(3)),
    ]
}

/// The order that a mote advertises. A narrow mote advertises no order for an image that its frames do not name.
pub(crate) fn own_order(wide: bool, volume: &Volume) -> Order
    ensures { (s : Store) → Tells volume.now s → result ≡ own_order wide s }
{
    let order = volume.snapshot().order;
    if tells_image(wide, order.image) {
        return order;
    }
    Order {
        number: 0,
        image: 0,
        version: 0,
    }
}

/// Whether an order for this image is advertised.
fn tells_image(wide: bool, image: u8) -> bool
    ensures { result ≡ (wide || nat_le image narrow_images) }
{
    wide || usize::from(image) <= NARROW_IMAGES
}
