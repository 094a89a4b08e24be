//! The next page of an open slot: it is erased, its packets are programmed, and its gate is cleared.
ghost use Rattle.std.specs.Prelude.{◌≡◌, ◌<◌, ⊤, true, false, length, OnOk, OnErr, IfOk};
ghost use Rattle.dg_nor.specs.Chip.{Touches};
ghost use Rattle.dg_nor.specs.Device.{Ran, Halted};
ghost use Rattle.dg_slot.specs.Layout.{page_operations, header_sector, slot_end};
ghost use Rattle.dg_slot.specs.Kept.{Held, with_page};
ghost use Rattle.dg_slot.specs.Fits.{may_seal};
ghost use Rattle.dg_slot.specs.Jobs.{IsOpen, outline_of_slot, SlotStops};
ghost use Rattle.dg_volume.specs.Filling.{page_trail};

use crate::layout::PAGE_SIZE;
use dg_nor::{Nor, Stopped};
use dg_slot::OpenSlot;

/// Fills the next page of a slot with this one, which fits, and makes it complete. 50 operations.
pub(crate) fn fill_next<N: Nor>(
    nor: &mut N,
    slot: OpenSlot,
    page: &[u8; PAGE_SIZE],
) -> Result<OpenSlot, Stopped>
    requires fits { (h : Held) × IsOpen (N.device nor.old).image slot h × (length h.complete < h.pages)
        × (may_seal (outline_of_slot slot).image h page.now ≡ true) }
    ensures sealed { IfOk result (λ o. (h : Held) → IsOpen (N.device nor.old).image slot h
        → IsOpen (N.device nor.new).image o (with_page h page.now)) }
    ensures same { IfOk result (λ o. outline_of_slot o ≡ outline_of_slot slot) }
    ensures ran { OnOk result (Ran page_operations (N.device nor.old) (N.device nor.new)) }
    ensures awake { OnOk result ((N.device nor.old).stopped ≡ false) }
    ensures same_reference { (N.device nor.new).references ≡ (N.device nor.old).references }
    ensures touches { Touches (header_sector (outline_of_slot slot).image) (slot_end (outline_of_slot slot).image)
        (N.device nor.old).image (N.device nor.new).image }
    ensures stops { OnErr result ((h : Held) → IsOpen (N.device nor.old).image slot h
        → SlotStops (outline_of_slot slot).image (page_trail h page.now) (N.device nor.old) (N.device nor.new)) }
    ensures stopped { OnErr result (Halted page_operations (λ _ _. ⊤) (N.device nor.old) (N.device nor.new)) }
{
    let mut job = slot.begin_page(nor)?;
    job.put_all(nor, page)?;
    let sealing = job.seal(nor)?;
    Ok(sealing.slot())
}
