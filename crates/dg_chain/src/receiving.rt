//! A data page of a chained image is received: filled, and sealed if it is the expected one.
ghost use Rattle.std.specs.Prelude.{◌≡◌, ◌<◌, ◌≤◌, false, length, OnOk, OnErr, IfOk};
ghost use Rattle.dg_nor.specs.Chip.{Touches};
ghost use Rattle.dg_slot.specs.Layout.{header_sector, slot_end};
ghost use Rattle.dg_slot.specs.Kept.{Held};
ghost use Rattle.dg_slot.specs.Jobs.{IsOpen, outline_of_slot, SlotStops};
ghost use Rattle.dg_chain.specs.Answers.{chained_slot};
ghost use Rattle.dg_chain.specs.Receiving.{receive_page_trail, ReceivesDataPage};

use crate::DIGEST_SIZE;
use crate::sealing::{ChainSealing, seal_chained};
use dg_nor::{Nor, Stopped};
use dg_object::PAGE_SIZE;
use dg_slot::OpenSlot;

/// Fills the next page of a slot, a data page. Makes it complete if it is the expected one and its CRC is the one that is kept
/// of it. 50 operations, or 49 if it is not made complete.
pub fn receive_page<N: Nor>(
    nor: &mut N,
    slot: OpenSlot,
    page: &[u8; PAGE_SIZE],
    expected: &[u8; DIGEST_SIZE],
) -> Result<ChainSealing, Stopped>
    requires fits { (h : Held) × IsOpen (N.device nor.old).image slot h × (length h.complete < h.pages)
        × (1 ≤ length h.complete) }
    ensures received { IfOk result (λ answer. (h : Held) → IsOpen (N.device nor.old).image slot h
        → ReceivesDataPage expected.now (outline_of_slot slot).image h page.now (N.device nor.old) (N.device nor.new) answer) }
    // the slot that is returned is this one
    ensures same { IfOk result (λ answer. outline_of_slot (chained_slot answer) ≡ outline_of_slot slot) }
    ensures same_reference { (N.device nor.new).references ≡ (N.device nor.old).references }
    ensures touches { Touches (header_sector (outline_of_slot slot).image) (slot_end (outline_of_slot slot).image)
        (N.device nor.old).image (N.device nor.new).image }
    ensures awake { OnOk result ((N.device nor.old).stopped ≡ false) }
    ensures stopped { OnErr result ((h : Held) → IsOpen (N.device nor.old).image slot h
        → SlotStops (outline_of_slot slot).image (receive_page_trail expected.now (outline_of_slot slot).image h page.now)
        (N.device nor.old) (N.device nor.new)) }
{
    let mut job = slot.begin_page(nor)?;
    job.put_all(nor, page)?;
    seal_chained(job, nor, expected)
}
