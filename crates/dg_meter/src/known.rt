//! How many pages slots have, as a meter knows it.
ghost use Rattle.std.specs.Prelude.{◌≡◌, ◌%◌, ◌+◌, ◌<◌, ◌≤◌, ℕ, List, length, IfOk};
ghost use Rattle.dg_nor.specs.Sizes.{sectors, sector_size, chip_size};
ghost use Rattle.dg_nor.specs.Chip.{programmed, erased};
ghost use Rattle.dg_nor.specs.Device.{Took};
ghost use Rattle.dg_nor.specs.Reads.{ReadEnds};
ghost use Rattle.dg_meter.specs.Pages.{slots, header_sector, pages_at, ArePages, AreOutside};

use crate::tally::SLOTS;
use dg_nor::{Nor, SECTOR_SIZE, Stopped};
use dg_slot::{FIRST_SLOT, SLOT_SECTORS};

/// Where the number of pages is in a header.
const HEADER_PAGES: u32 = 3;

/// The slot whose number of pages is among these cells of a sector, `SLOTS` where it is none's.
#[inline(always)]
pub(crate) fn slot_at(at: u32, count: usize) -> usize
    requires in_chip { at < chip_size }
    requires in_sector { at % sector_size + count ≤ sector_size }
    ensures { AreOutside result at count }
{
    let offset = at % SECTOR_SIZE;
    if HEADER_PAGES < offset || offset as usize + count <= HEADER_PAGES as usize {
        return SLOTS;
    }
    slot_of(at / SECTOR_SIZE)
}

/// The slot whose header is in a sector, `SLOTS` where there is none.
fn slot_of(sector: u32) -> usize
    ensures here { result < slots → sector ≡ header_sector result }
    ensures others { (s : ℕ) → s < slots → sector ≡ header_sector s → s ≡ result }
{
    if sector < FIRST_SLOT || (sector - FIRST_SLOT) % SLOT_SECTORS != 0 {
        return SLOTS;
    }
    ((sector - FIRST_SLOT) / SLOT_SECTORS) as usize
}

/// The cell with the number of pages of a slot.
pub(crate) fn pages_cell(slot: usize) -> u32
    requires { slot < slots }
    ensures { result ≡ pages_at slot }
{
    SECTOR_SIZE * (FIRST_SLOT + SLOT_SECTORS * slot as u32) + HEADER_PAGES
}

/// Reads how many pages each slot has.
pub(crate) fn read_pages<N: Nor>(chip: &mut N) -> Result<[u8; SLOTS], Stopped>
    ensures ends { ReadEnds result (N.device chip.old) (N.device chip.new) }
    ensures pages { IfOk result (λ known. ArePages known (N.device chip.new).image) }
    ensures took { Took slots (N.device chip.old) (N.device chip.new) }
{
    let mut known = [0; SLOTS];
    for slot in 0..SLOTS {
        let mut byte = [0];
        chip.read(pages_cell(slot), &mut byte)?;
        known[slot] = byte[0];
    }
    Ok(known)
}

/// These bytes are programmed from `at` on.
#[inline(always)]
pub(crate) fn note_program(known: &mut [u8], at: u32, bytes: &[u8])
    requires length { length known.old ≡ slots }
    requires in_chip { at < chip_size }
    requires in_sector { at % sector_size + length bytes.now ≤ sector_size }
    ensures { (image : List ℕ) → length image ≡ chip_size → ArePages known.old image
        → ArePages known.new (programmed image at bytes.now) }
{
    let slot = slot_at(at, bytes.len());
    if slot < SLOTS {
        known[slot] &= bytes[(pages_cell(slot) - at) as usize];
    }
}

/// A sector is erased.
#[inline(always)]
pub(crate) fn note_erase(known: &mut [u8], sector: u32)
    requires length { length known.old ≡ slots }
    requires in_chip { sector < sectors }
    ensures { (image : List ℕ) → length image ≡ chip_size → ArePages known.old image
        → ArePages known.new (erased image sector) }
{
    let slot = slot_at(sector * SECTOR_SIZE, SECTOR_SIZE as usize);
    if slot < SLOTS {
        known[slot] = u8::MAX;
    }
}
