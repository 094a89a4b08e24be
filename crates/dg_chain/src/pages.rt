//! Data pages in a slot.
ghost use Rattle.std.specs.Prelude.{◌≡◌, ◌<◌, take, false, IfOk, OnOk};
ghost use Rattle.std.specs.Int.{from_be_bytes, w32};
ghost use Rattle.dg_nor.specs.Reads.{ReadEnds};
ghost use Rattle.dg_slot.specs.Layout.{slots, most_pages, page_sector};
ghost use Rattle.dg_slot.specs.Pages.{page_in};
ghost use Rattle.dg_chain.specs.Checking.{field_of};

use crate::{DIGEST_SIZE, PIECE_SIZE};
use dg_nor::{Nor, Stopped, read_in};
use dg_object::PAGE_SIZE;
use dg_slot::page_sector;

/// Reads a page from its slot. After `Stopped` the content of `into` is unspecified.
pub(crate) fn read_page<N: Nor>(
    nor: &mut N,
    image: u8,
    page: u8,
    into: &mut [u8; PAGE_SIZE],
) -> Result<(), Stopped>
    requires known_image { image < slots }
    requires known_page { page < most_pages }
    ensures bytes { OnOk result (into.new ≡ page_in (N.device nor.old).image (page_sector image page)) }
    ensures awake { OnOk result ((N.device nor.old).stopped ≡ false) }
    ensures ends { ReadEnds result (N.device nor.old) (N.device nor.new) }
{
    read_in(nor, page_sector(image, page), 0, into)
}

/// The digest that a page carries.
pub(crate) fn field_of(page: &[u8; PAGE_SIZE]) -> [u8; DIGEST_SIZE]
    ensures { result ≡ field_of page.now }
{
    let mut field = [0; DIGEST_SIZE];
    field.copy_from_slice(&page[PIECE_SIZE..]);
    field
}

/// The length that data page 1 of a slot gives.
pub(crate) fn told_length<N: Nor>(nor: &mut N, image: u8) -> Result<u32, Stopped>
    requires { image < slots }
    ensures length { IfOk result (λ n. n ≡ from_be_bytes w32 (take 4 (page_in (N.device nor.old).image (page_sector image 1)))) }
    ensures ends { ReadEnds result (N.device nor.old) (N.device nor.new) }
{
    let mut length = [0; 4];
    read_in(nor, page_sector(image, 1), 0, &mut length)?;
    Ok(u32::from_be_bytes(length))
}
