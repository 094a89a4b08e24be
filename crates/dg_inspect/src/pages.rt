//! The pages of an image, from the sector of page 0 on.
ghost use Rattle.std.specs.Prelude.{◌≡◌, ℕ, List, ◌+◌, ◌<◌, ◌≤◌, ◌++◌, ◌==◌, ◌&&◌, ◌||◌, not, length, IfOk, IsSomeAnd, OnOk};
ghost use Rattle.std.specs.FinSet as set;
ghost use Rattle.sha2.specs.Sha256.{sha256};
ghost use Rattle.sha2.specs.Hashers.{Holds256};
ghost use Rattle.dg_words.specs.Cells.{part};
ghost use Rattle.dg_base.specs.Crc.{crc_of, crc_more};
ghost use Rattle.dg_nor.specs.Sizes.{sectors};
ghost use Rattle.dg_nor.specs.Chip.{sector};
ghost use Rattle.dg_nor.specs.Reads.{ReadEnds};
ghost use Rattle.dg_object.specs.Object.{content, pages_for};
ghost use Rattle.dg_object.specs.Descriptor.{Details, IsDescriptor, crc_in};
ghost use Rattle.dg_object.specs.Records.{details_of};
ghost use Rattle.dg_slot.specs.Layout.{page_size, most_pages, most_bytes};
ghost use Rattle.dg_slot.specs.Pages.{page_in};
ghost use Rattle.dg_inspect.specs.Pages.{pages_from, said_in, is_unsound, bytes_in, bytes_seen, ShowsPages};

use crate::seen::{BytesSeen, PAGES, PagesSeen};
use dg_base::crc16_more;
use dg_bits::PageBits;
use dg_nor::{Nor, Stopped, read_in};
use dg_object::{Descriptor, HEAD_SIZE, PAGE_SIZE};
use dg_slot::{find_descriptor, prefix_crc};
use sha2::{Digest, Sha256};

/// Where the descriptor keeps the CRCs, after its head: two bytes for each page from page 1 on.
const CRCS: u32 = HEAD_SIZE as u32;

/// The bytes of a page.
const PAGE: u32 = PAGE_SIZE as u32;

/// The CRC that page 0 keeps of a data page.
fn kept_crc<N: Nor>(nor: &mut N, first: u32, page: u8) -> Result<u16, Stopped>
    requires in_chip { first < sectors }
    requires data_page { 1 ≤ page }
    requires known_page { page < most_pages }
    ensures crc { IfOk result (λ crc. crc ≡ crc_in (page_in (N.device nor.old).image first) page) }
    ensures ends { ReadEnds result (N.device nor.old) (N.device nor.new) }
{
    let mut crc = [0; 2];
    read_in(nor, first, CRCS + 2 * (u32::from(page) - 1), &mut crc)?;
    Ok(u16::from_be_bytes(crc))
}

/// Whether a data page has the CRC that page 0 keeps of it.
fn has_kept_crc<N: Nor>(nor: &mut N, first: u32, page: u8) -> Result<bool, Stopped>
    requires in_chip { first + page < sectors }
    requires data_page { 1 ≤ page }
    requires known_page { page < most_pages }
    ensures same { IfOk result (λ b. b ≡ (crc_of (page_in (N.device nor.old).image (first + page))
        == crc_in (page_in (N.device nor.old).image first) page)) }
    ensures ends { ReadEnds result (N.device nor.old) (N.device nor.new) }
{
    let kept = kept_crc(nor, first, page)?;
    let found = prefix_crc(nor, first + u32::from(page), PAGE, 0)?;
    Ok(found == kept)
}

/// Adds a page to a set, unless it is sound.
fn mark(unsound: &mut PageBits<{ PAGES }>, page: u8, sound: bool)
    requires { page < most_pages }
    ensures { (q : ℕ) → set.contains unsound.new q ≡ (((q == page) && not sound) || set.contains unsound.old q) }
{
    if !sound {
        unsound.set(page);
    }
}

/// The data pages among the first `done` pages whose CRC is not the one that page 0 keeps of them.
fn unsound_pages<N: Nor>(nor: &mut N, first: u32, done: u8) -> Result<PageBits<{ PAGES }>, Stopped>
    requires in_chip { first + most_pages ≤ sectors }
    requires some { 1 ≤ done }
    requires known_pages { done ≤ most_pages }
    ensures unsound { IfOk result (λ s. (p : ℕ)
        → set.contains s p ≡ is_unsound (pages_from (N.device nor.old).image first done) p) }
    ensures ends { ReadEnds result (N.device nor.old) (N.device nor.new) }
{
    let mut unsound = PageBits::none();
    for page in 1..done {
        let sound = has_kept_crc(nor, first, page)?;
        mark(&mut unsound, page, sound);
    }
    Ok(unsound)
}

/// Adds the first `count` bytes of a sector to a digest, and gives their checksum after `before`.
fn add_page<N: Nor>(
    nor: &mut N,
    index: u32,
    count: u32,
    hasher: &mut Sha256,
    before: u16,
) -> Result<u16, Stopped>
    requires in_chip { index < sectors }
    requires in_page { count ≤ page_size }
    ensures crc { IfOk result (λ crc. crc ≡ crc_more before (part (sector (N.device nor.old).image index) 0 count)) }
    ensures held { OnOk result ((m : List ℕ) → Holds256 hasher.old m
        → Holds256 hasher.new (m ++ part (sector (N.device nor.old).image index) 0 count)) }
    ensures ends { ReadEnds result (N.device nor.old) (N.device nor.new) }
{
    let mut page = [0; PAGE_SIZE];
    let piece = &mut page[..count as usize];
    read_in(nor, index, 0, piece)?;
    hasher.update(&*piece);
    Ok(crc16_more(before, piece))
}

/// The bytes of an image of that length, whose pages are there.
fn see_bytes<N: Nor>(nor: &mut N, first: u32, length: u32) -> Result<BytesSeen, Stopped>
    requires in_chip { first + most_pages ≤ sectors }
    requires fits { length ≤ most_bytes }
    ensures crc { IfOk result (λ seen. seen.crc
        ≡ crc_of (content length (pages_from (N.device nor.old).image first (pages_for length)))) }
    ensures sha256 { IfOk result (λ seen. seen.sha256
        ≡ sha256 (content length (pages_from (N.device nor.old).image first (pages_for length)))) }
    ensures ends { ReadEnds result (N.device nor.old) (N.device nor.new) }
{
    let mut hasher = Sha256::new();
    let mut crc = 0;
    for p in 0..length.div_ceil(PAGE) {
        let count = (length - PAGE * p).min(PAGE);
        crc = add_page(nor, first + 1 + p, count, &mut hasher, crc)?;
    }
    Ok(BytesSeen {
        crc,
        sha256: hasher.finalize(),
    })
}

/// The bytes of an image of which this many pages are complete, where it is whole.
fn see_bytes_if_whole<N: Nor>(
    nor: &mut N,
    first: u32,
    done: u8,
    descriptor: &Descriptor,
) -> Result<Option<BytesSeen>, Stopped>
    requires in_chip { first + most_pages ≤ sectors }
    requires some { 1 ≤ done }
    requires described { IsDescriptor (page_in (N.device nor.old).image first) (details_of descriptor.now) }
    ensures bytes { IfOk result (λ seen. seen ≡ bytes_seen (pages_from (N.device nor.old).image first done)) }
    ensures ends { ReadEnds result (N.device nor.old) (N.device nor.new) }
{
    if done != descriptor.pages {
        return Ok(None);
    }
    let seen = see_bytes(nor, first, descriptor.length)?;
    Ok(Some(seen))
}

/// The first `done` pages of an image. None if page 0 is not a descriptor.
pub(crate) fn see_pages<N: Nor>(
    nor: &mut N,
    first: u32,
    done: u8,
) -> Result<Option<PagesSeen>, Stopped>
    requires in_chip { first + most_pages ≤ sectors }
    requires some { 1 ≤ done }
    requires known_pages { done ≤ most_pages }
    ensures shows { IfOk result (λ seen. (d : Details) → IsDescriptor (page_in (N.device nor.old).image first) d
        → IsSomeAnd seen (ShowsPages (pages_from (N.device nor.old).image first done))) }
    ensures ends { ReadEnds result (N.device nor.old) (N.device nor.new) }
{
    let Some(descriptor) = find_descriptor(nor, first)? else {
        return Ok(None);
    };
    let unsound = unsound_pages(nor, first, done)?;
    let bytes = see_bytes_if_whole(nor, first, done, &descriptor)?;
    Ok(Some(PagesSeen {
        descriptor,
        unsound,
        bytes,
    }))
}

/// The pages of the image that is there whole. None if page 0 is not a descriptor.
pub(crate) fn see_whole<N: Nor>(nor: &mut N, first: u32) -> Result<Option<PagesSeen>, Stopped>
    requires in_chip { first + most_pages ≤ sectors }
    ensures shows { IfOk result (λ seen. (d : Details) → IsDescriptor (page_in (N.device nor.old).image first) d
        → IsSomeAnd seen (ShowsPages (pages_from (N.device nor.old).image first d.pages))) }
    ensures ends { ReadEnds result (N.device nor.old) (N.device nor.new) }
{
    let Some(descriptor) = find_descriptor(nor, first)? else {
        return Ok(None);
    };
    see_pages(nor, first, descriptor.pages)
}
