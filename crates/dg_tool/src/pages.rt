//! The pages of images that a board keeps.
ghost use Rattle.std.specs.Prelude.{◌≡◌, ◌≤◌, ◌<◌, ◌+◌, ◌-◌, ◌*◌, ◌++◌, IfOk, OnOk, length, drop};
ghost use Rattle.dg_words.specs.Lists.{concatenated};
ghost use Rattle.dg_object.specs.Object.{pages_for};
ghost use Rattle.dg_slot.specs.Layout.{slots, packets, page_size, most_pages, most_bytes, page_sector};
ghost use Rattle.dg_slot.specs.Kept.{Held, KeepsImage};
ghost use Rattle.dg_slot.specs.Pages.{packet_in, page_in};
ghost use Rattle.dg_volume.specs.Start.{length_in};
ghost use Rattle.dg_tool.specs.Pages.{name_in, first_page, image_bytes};
ghost use Rattle.dg_tool.specs.inner.OneBoard.{ReadsOn};

use dg_end::{End, Refusal};
use dg_nor::Nor;
use dg_object::{Descriptor, PACKET_SIZE, PACKETS};
use dg_slot::{page_sector, read_descriptor, read_packet};
use std::alloc::Global;

/// The descriptor of an image of which page 0 is complete.
pub(crate) fn read_first<N: Nor>(nor: &mut N, image: u8) -> Result<Descriptor, End>
    requires known_image { image < slots }
    requires kept { (h : Held) × KeepsImage (N.device nor.old).image image h × (0 < length h.complete) }
    ensures told { IfOk result (λ d. (h : Held) → KeepsImage (N.device nor.old).image image h → 0 < length h.complete
        → (d.name ≡ name_in (first_page h)) × (d.length ≡ length_in (first_page h)) × (pages_for d.length ≡ h.pages)) }
    ensures some { IfOk result (λ d. 1 ≤ d.length) }
    ensures fits { IfOk result (λ d. d.length ≤ most_bytes) }
    ensures ends { ReadsOn result (N.device nor.old) (N.device nor.new) }
{
    let Some(first) = read_descriptor(nor, page_sector(image, 0))? else {
        return Err(End::Refused(Refusal::Absent));
    };
    Ok(first.descriptor)
}

/// Reads a packet of a page, and appends its bytes.
fn push_packet<N: Nor>(
    nor: &mut N,
    image: u8,
    page: u8,
    packet: u8,
    bytes: &mut Vec<u8>,
) -> Result<(), End>
    requires known_image { image < slots }
    requires known_page { page < most_pages }
    requires known_packet { packet < packets }
    ensures packet { OnOk result (bytes.new.items ≡ bytes.old.items
        ++ packet_in (N.device nor.old).image (page_sector image page) packet) }
    ensures ends { ReadsOn result (N.device nor.old) (N.device nor.new) }
{
    let mut read = [0; PACKET_SIZE];
    read_packet(nor, image, page, packet, &mut read)?;
    bytes.extend_from_slice(&read)?;
    Ok(())
}

/// Reads a page, and appends its bytes.
fn push_page<N: Nor>(nor: &mut N, image: u8, page: u8, bytes: &mut Vec<u8>) -> Result<(), End>
    requires known_image { image < slots }
    requires known_page { page < most_pages }
    ensures page { OnOk result (bytes.new.items ≡ bytes.old.items ++ page_in (N.device nor.old).image (page_sector image page)) }
    ensures grown { OnOk result (length bytes.new.items ≡ length bytes.old.items + page_size) }
    ensures ends { ReadsOn result (N.device nor.old) (N.device nor.new) }
{
    for packet in 0..PACKETS as u8 {
        push_packet(nor, image, page, packet, bytes)?;
    }
    Ok(())
}

/// Reads the data pages of an image that is kept whole.
fn read_data<N: Nor>(alloc: Global, nor: &mut N, image: u8, pages: u8) -> Result<Vec<u8>, End>
    requires known_image { image < slots }
    requires some { 1 ≤ pages }
    requires known_pages { pages ≤ most_pages }
    ensures bytes { IfOk result (λ bytes. (h : Held) → KeepsImage (N.device nor.old).image image h
        → length h.complete ≡ pages → bytes.items ≡ concatenated (drop 1 h.complete)) }
    ensures count { IfOk result (λ bytes. length bytes.items ≡ page_size * (pages - 1)) }
    ensures ends { ReadsOn result (N.device nor.old) (N.device nor.new) }
{
    let mut bytes = Vec::new(alloc);
    for page in 1..pages {
        push_page(nor, image, page, &mut bytes)?;
    }
    Ok(bytes)
}

/// Reads the bytes of an image that is kept whole.
pub(crate) fn read_bytes<N: Nor>(
    alloc: Global,
    nor: &mut N,
    image: u8,
    pages: u8,
) -> Result<Vec<u8>, End>
    requires known_image { image < slots }
    requires whole { (h : Held) × KeepsImage (N.device nor.old).image image h × (length h.complete ≡ pages) × (h.pages ≡ pages) }
    ensures bytes { IfOk result (λ bytes. (h : Held) → KeepsImage (N.device nor.old).image image h
        → length h.complete ≡ pages → h.pages ≡ pages → bytes.items ≡ image_bytes h) }
    ensures some { IfOk result (λ bytes. 1 ≤ length bytes.items) }
    ensures fits { IfOk result (λ bytes. length bytes.items ≤ most_bytes) }
    ensures ends { ReadsOn result (N.device nor.old) (N.device nor.new) }
{
    let descriptor = read_first(nor, image)?;
    let mut bytes = read_data(alloc, nor, image, pages)?;
    bytes.truncate(descriptor.length as usize);
    Ok(bytes)
}
