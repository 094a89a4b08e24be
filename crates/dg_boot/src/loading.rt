//! The pages of an image in program memory: how they are copied there from a slot, and what is reported of them.
ghost use Rattle.std.specs.Prelude.{◌≡◌, ℕ, ◌*◌, ◌<◌, ◌≤◌, ⊤, length, IfOk, OnOk, OnErr};
ghost use Rattle.dg_base.specs.Crc.{crc_of};
ghost use Rattle.dg_nor.specs.Sizes.{sectors};
ghost use Rattle.dg_nor.specs.Chip.{Touches};
ghost use Rattle.dg_nor.specs.Device.{Ran, Halted};
ghost use Rattle.dg_nor.specs.Reads.{ReadEnds};
ghost use Rattle.dg_object.specs.Object.{content, pages_for};
ghost use Rattle.dg_object.specs.Descriptor.{Details, IsDescriptor};
ghost use Rattle.dg_object.specs.Records.{details_of};
ghost use Rattle.dg_slot.specs.Layout.{most_bytes, page_sector, program_sector, program_end};
ghost use Rattle.dg_slot.specs.Pages.{page_in, program, slot_pages};
ghost use Rattle.dg_slot.specs.Kept.{Held, KeepsImage};
ghost use Rattle.dg_volume.specs.Sizes.{images, copy_operations};
ghost use Rattle.dg_volume.specs.Store.{App};
ghost use Rattle.dg_volume.specs.Stands.{HoldsApp};
ghost use Rattle.dg_boot.specs.Loads.{Measures, IsWhole, app_from};

use crate::loaded::Loaded;
use crate::pieces::copy_page;
use dg_nor::{Nor, Stopped, read_in};
use dg_object::{Descriptor, HEAD_SIZE, Head, PAGE_SIZE};
use dg_slot::{PROGRAM_SECTOR, page_sector, prefix_crc};

/// The bytes of a page.
const PAGE: u32 = PAGE_SIZE as u32;

/// The descriptor in a sector.
fn read_descriptor<N: Nor>(nor: &mut N, index: u32) -> Result<Descriptor, Stopped>
    requires in_chip { index < sectors }
    requires described { (d : Details) × IsDescriptor (page_in (N.device nor.old).image index) d }
    ensures descriptor { IfOk result (λ d. IsDescriptor (page_in (N.device nor.old).image index) (details_of d)) }
    ensures ends { ReadEnds result (N.device nor.old) (N.device nor.new) }
{
    let mut head: Head = [0; HEAD_SIZE];
    read_in(nor, index, 0, &mut head)?;
    Ok(Descriptor::head(&head).unwrap())
}

/// The checksum of the bytes of the image in program memory.
fn image_crc<N: Nor>(nor: &mut N, length: u32) -> Result<u16, Stopped>
    requires { length ≤ most_bytes }
    ensures crc { IfOk result (λ crc. crc ≡ crc_of (content length (program (N.device nor.old).image (pages_for length)))) }
    ensures ends { ReadEnds result (N.device nor.old) (N.device nor.new) }
{
    let mut crc = 0;
    for p in 0..length.div_ceil(PAGE) {
        let count = (length - PAGE * p).min(PAGE);
        crc = prefix_crc(nor, PROGRAM_SECTOR + 1 + p, count, crc)?;
    }
    Ok(crc)
}

/// What is reported of the image in program memory.
pub(crate) fn measure<N: Nor>(nor: &mut N) -> Result<Loaded, Stopped>
    requires { (app : App) × HoldsApp (N.device nor.old).image app }
    ensures measured { IfOk result (λ told. (app : App) → HoldsApp (N.device nor.old).image app
        → Measures app.pages told × (program (N.device nor.old).image told.pages ≡ app.pages)) }
    ensures ends { ReadEnds result (N.device nor.old) (N.device nor.new) }
{
    let descriptor = read_descriptor(nor, PROGRAM_SECTOR)?;
    let crc = image_crc(nor, descriptor.length)?;
    Ok(Loaded {
        pages: descriptor.pages,
        length: descriptor.length,
        crc,
    })
}

/// Copies the pages of an image of `length` bytes from its slot into program memory, and returns the checksum of these bytes. 9
/// operations a page.
fn copy_pages<N: Nor>(nor: &mut N, image: u8, length: u32) -> Result<u16, Stopped>
    requires known_image { image < images }
    requires fits { length ≤ most_bytes }
    ensures pages { OnOk result ((p : ℕ) → p < pages_for length
        → page_in (N.device nor.new).image (program_sector p) ≡ page_in (N.device nor.old).image (page_sector image p)) }
    ensures crc { IfOk result (λ crc. crc ≡ crc_of
        (content length (slot_pages (N.device nor.old).image image (pages_for length)))) }
    ensures touches { Touches (program_sector 0) program_end (N.device nor.old).image (N.device nor.new).image }
    ensures ran { OnOk result (Ran (copy_operations * pages_for length) (N.device nor.old) (N.device nor.new)) }
    ensures stopped { OnErr result (Halted (copy_operations * pages_for length) (λ _ _. ⊤) (N.device nor.old)
        (N.device nor.new)) }
{
    let first = page_sector(image, 0);
    copy_page(nor, first, PROGRAM_SECTOR, 0, 0)?;
    let mut crc = 0;
    for p in 0..length.div_ceil(PAGE) {
        let count = (length - PAGE * p).min(PAGE);
        crc = copy_page(nor, first + 1 + p, PROGRAM_SECTOR + 1 + p, count, crc)?;
    }
    Ok(crc)
}

/// Copies the pages of an image that is kept whole into program memory.
pub(crate) fn load<N: Nor>(nor: &mut N, image: u8) -> Result<Loaded, Stopped>
    requires known_image { image < images }
    requires kept { (h : Held) × KeepsImage (N.device nor.old).image image h × IsWhole h }
    ensures loaded { IfOk result (λ told. (h : Held) → KeepsImage (N.device nor.old).image image h → IsWhole h
        → HoldsApp (N.device nor.new).image (app_from image h) × Measures h.complete told
        × (program (N.device nor.new).image told.pages ≡ h.complete)) }
    ensures touches { Touches (program_sector 0) program_end (N.device nor.old).image (N.device nor.new).image }
    ensures ran { OnOk result ((h : Held) → KeepsImage (N.device nor.old).image image h → IsWhole h
        → Ran (copy_operations * length h.complete) (N.device nor.old) (N.device nor.new)) }
    ensures stopped { OnErr result ((h : Held) → KeepsImage (N.device nor.old).image image h → IsWhole h
        → Halted (copy_operations * length h.complete) (λ _ _. ⊤) (N.device nor.old) (N.device nor.new)) }
{
    let descriptor = read_descriptor(nor, page_sector(image, 0))?;
    let crc = copy_pages(nor, image, descriptor.length)?;
    Ok(Loaded {
        pages: descriptor.pages,
        length: descriptor.length,
        crc,
    })
}
