//! The first byte of a sector at which a condition of a volume breaks.
ghost use Rattle.std.specs.Prelude.{◌≡◌, ◌↔◌, ℕ, ◌<◌, IfOk, IsTrue};
ghost use Rattle.dg_words.specs.Cells.{part};
ghost use Rattle.dg_nor.specs.Sizes.{sectors};
ghost use Rattle.dg_nor.specs.Chip.{sector};
ghost use Rattle.dg_nor.specs.Reads.{ReadEnds};
ghost use Rattle.dg_ledger.specs.Sizes.{ledger_sector};
ghost use Rattle.dg_ledger.specs.Ledger.{HasCount};
ghost use Rattle.dg_control.specs.Sizes.{places};
ghost use Rattle.dg_control.specs.Places.{place_in, IsCommitted};
ghost use Rattle.dg_slot.specs.Layout.{page_sector};
ghost use Rattle.dg_slot.specs.Pages.{page_in};
ghost use Rattle.dg_volume.specs.Sizes.{images};
ghost use Rattle.dg_breaks.specs.Breaks.{HoldsGolden, HoldsHeader, HoldsDescriptor, HoldsSet};
ghost use Rattle.dg_breaks.specs.Bytes.{BreaksLedger, BreaksPlace, BreaksGolden, BreaksHeader, BreaksPage, BreaksDescriptor};
ghost use Rattle.dg_breaks.specs.Bytes.{BreaksProgram};

use crate::header::{read_header, see_header};
use crate::unfit::{LEDGER_BITS, descriptor_bytes, golden_break, header_break, ledger_break};
use dg_control::{GOLDEN, PLACE_SIZE, PLACES, PlaceBytes, Program, SlotState};
use dg_ledger::{LEDGER_SECTOR, LedgerText, TEXT_SIZE};
use dg_nor::{Nor, Stopped, read_in};
use dg_object::PAGE_SIZE;
use dg_slot::{PROGRAM_SECTOR, page_sector};

/// The first byte of a place that is committed.
const COMMITTED: u8 = 0x7F;

/// The byte at which sector 0 breaks, if it is not a ledger.
pub(crate) fn ledger_byte<N: Nor>(nor: &mut N) -> Result<u32, Stopped>
    requires { (n : ℕ) → HasCount (N.device nor.old).image n → ⊥ }
    ensures breaks { IfOk result (BreaksLedger (sector (N.device nor.old).image ledger_sector)) }
    ensures ends { ReadEnds result (N.device nor.old) (N.device nor.new) }
{
    let mut text: LedgerText = [0; TEXT_SIZE as usize];
    let mut bits = [0; LEDGER_BITS];
    read_in(nor, LEDGER_SECTOR, 0, &mut text)?;
    read_in(nor, LEDGER_SECTOR, TEXT_SIZE, &mut bits)?;
    Ok(ledger_break(&text, &bits))
}

/// Whether a place of a control sector is committed.
fn is_committed<N: Nor>(nor: &mut N, index: u32, place: u32) -> Result<bool, Stopped>
    requires in_chip { index < sectors }
    requires in_sector { place < places }
    ensures committed { IfOk result (λ b. IsTrue b ↔ IsCommitted (place_in (sector (N.device nor.old).image index) place)) }
    ensures ends { ReadEnds result (N.device nor.old) (N.device nor.new) }
{
    let mut cells: PlaceBytes = [0; PLACE_SIZE];
    read_in(nor, index, PLACE_SIZE as u32 * place, &mut cells)?;
    Ok(cells[0] == COMMITTED)
}

/// The byte at which the last committed place of a control sector begins, or 0 where there is none.
pub(crate) fn place_byte<N: Nor>(nor: &mut N, index: u32) -> Result<u32, Stopped>
    requires { index < sectors }
    ensures breaks { IfOk result (BreaksPlace (sector (N.device nor.old).image index)) }
    ensures ends { ReadEnds result (N.device nor.old) (N.device nor.new) }
{
    let count = u32::from(PLACES);
    for back in 0..count {
        let place = count - 1 - back;
        if is_committed(nor, index, place)? {
            return Ok(PLACE_SIZE as u32 * place);
        }
    }
    Ok(0)
}

/// The byte at which the header of golden breaks, whose slot is in this state.
pub(crate) fn golden_byte<N: Nor>(nor: &mut N, slot: SlotState) -> Result<u32, Stopped>
    requires { HoldsGolden (N.device nor.old).image slot → ⊥ }
    ensures breaks { IfOk result (BreaksGolden (N.device nor.old).image slot) }
    ensures ends { ReadEnds result (N.device nor.old) (N.device nor.new) }
{
    let cells = read_header(nor, GOLDEN)?;
    Ok(golden_break(slot, &cells.first, &cells.gates))
}

/// The byte at which the header of a slot in this state breaks.
pub(crate) fn header_byte<N: Nor>(nor: &mut N, image: u8, slot: SlotState) -> Result<u32, Stopped>
    requires known_image { image < images }
    requires broken { HoldsHeader (N.device nor.old).image image slot → ⊥ }
    ensures breaks { IfOk result (BreaksHeader (N.device nor.old).image image slot) }
    ensures ends { ReadEnds result (N.device nor.old) (N.device nor.new) }
{
    let cells = read_header(nor, image)?;
    match slot {
        SlotState::Dirty => Ok(0),
        SlotState::Live { version } => {
            Ok(header_break(&cells.first, &cells.gates, image, version))
        }
    }
}

/// The byte at which page 0 of an image breaks, of a version with this many pages. It is 0 if only the CRC differs.
fn page_byte<N: Nor>(nor: &mut N, image: u8, version: u32, pages: u8) -> Result<u32, Stopped>
    requires { image < images }
    ensures breaks { IfOk result (BreaksPage (page_in (N.device nor.old).image (page_sector image 0)) image version pages) }
    ensures ends { ReadEnds result (N.device nor.old) (N.device nor.new) }
{
    let mut page = [0; PAGE_SIZE];
    read_in(nor, page_sector(image, 0), 0, &mut page)?;
    let fit = descriptor_bytes(&page, image, version, Some(pages));
    if fit < PAGE_SIZE {
        Ok(fit as u32)
    } else {
        Ok(0)
    }
}

/// The byte at which page 0 of a slot in this state breaks.
pub(crate) fn descriptor_byte<N: Nor>(
    nor: &mut N,
    image: u8,
    slot: SlotState,
) -> Result<u32, Stopped>
    requires known_image { image < images }
    requires broken { HoldsDescriptor (N.device nor.old).image image slot → ⊥ }
    ensures breaks { IfOk result (BreaksDescriptor (N.device nor.old).image image slot) }
    ensures ends { ReadEnds result (N.device nor.old) (N.device nor.new) }
{
    let SlotState::Live { version } = slot else {
        return Ok(0);
    };
    match see_header(nor, image, version)? {
        None => Ok(0),
        Some(seen) => page_byte(nor, image, version, seen.pages),
    }
}

/// The byte at which page 0 of program memory in this state breaks.
pub(crate) fn program_byte<N: Nor>(nor: &mut N, program: Program) -> Result<u32, Stopped>
    requires { HoldsSet (N.device nor.old).image program → ⊥ }
    ensures breaks { IfOk result (BreaksProgram (N.device nor.old).image program) }
    ensures ends { ReadEnds result (N.device nor.old) (N.device nor.new) }
{
    let Program::Set { image, version } = program else {
        return Ok(0);
    };
    let mut page = [0; PAGE_SIZE];
    read_in(nor, PROGRAM_SECTOR, 0, &mut page)?;
    Ok(descriptor_bytes(&page, image, version, None) as u32)
}
