//! Whether the pages of a slot match the checksums that are kept of them.
ghost use Rattle.std.specs.Prelude.{◌≡◌, ◌<◌, ◌≤◌, ◌==◌, IfOk};
ghost use Rattle.dg_base.specs.Crc.{crc_of};
ghost use Rattle.dg_nor.specs.Reads.{ReadEnds};
ghost use Rattle.dg_object.specs.Descriptor.{crc_in};
ghost use Rattle.dg_slot.specs.Layout.{most_pages, page_sector};
ghost use Rattle.dg_slot.specs.Pages.{page_in, slot_pages};
ghost use Rattle.dg_volume.specs.Sizes.{images};
ghost use Rattle.dg_volume.specs.Start.{pages_sound};

use dg_nor::{Nor, Stopped, read_in};
use dg_object::HEAD_SIZE;
use dg_slot::{page_sector, read_page_crc};
use dg_volume::Kept;

/// Where the descriptor keeps the CRCs, after its head: two bytes for each page from page 1 on.
const CRCS: u32 = HEAD_SIZE as u32;

/// The CRC that page 0 of a slot keeps of a data page.
fn kept_crc<N: Nor>(nor: &mut N, image: u8, page: u8) -> Result<u16, Stopped>
    requires known_image { image < images }
    requires data_page { 1 ≤ page }
    requires known_page { page < most_pages }
    ensures crc { IfOk result (λ crc. crc ≡ crc_in (page_in (N.device nor.old).image (page_sector image 0)) page) }
    ensures ends { ReadEnds result (N.device nor.old) (N.device nor.new) }
{
    let mut crc = [0; 2];
    read_in(
        nor,
        page_sector(image, 0),
        CRCS + 2 * (u32::from(page) - 1),
        &mut crc,
    )?;
    Ok(u16::from_be_bytes(crc))
}

/// Whether a data page of a slot has the CRC that page 0 keeps of it.
fn is_page_sound<N: Nor>(nor: &mut N, image: u8, page: u8) -> Result<bool, Stopped>
    requires known_image { image < images }
    requires data_page { 1 ≤ page }
    requires known_page { page < most_pages }
    ensures sound { IfOk result (λ b. b ≡ (crc_of (page_in (N.device nor.old).image (page_sector image page))
        == crc_in (page_in (N.device nor.old).image (page_sector image 0)) page)) }
    ensures ends { ReadEnds result (N.device nor.old) (N.device nor.new) }
{
    let kept = kept_crc(nor, image, page)?;
    let found = read_page_crc(nor, image, page)?;
    Ok(found == kept)
}

/// Whether the pages of a slot are sound, given that page 0 has the CRC of its header: whether each data page has the CRC that
/// page 0 keeps of it.
pub(crate) fn is_sound<N: Nor>(nor: &mut N, image: u8, kept: &Kept) -> Result<bool, Stopped>
    requires known_image { image < images }
    requires some_pages { 1 ≤ kept.now.pages }
    requires most_pages { kept.now.pages ≤ most_pages }
    requires first { crc_of (page_in (N.device nor.old).image (page_sector image 0)) ≡ kept.now.crc }
    ensures sound { IfOk result (λ b. b ≡ pages_sound kept.now.crc (slot_pages (N.device nor.old).image image kept.now.pages)) }
    ensures ends { ReadEnds result (N.device nor.old) (N.device nor.new) }
{
    for p in 1..kept.pages {
        if !is_page_sound(nor, image, p)? {
            return Ok(false);
        }
    }
    Ok(true)
}
