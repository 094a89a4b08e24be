//! A page of a chained image is sealed.
ghost use Rattle.std.specs.Prelude.{◌≡◌, ℕ, ◌+◌, ◌<◌, ◌≤◌, true, false, IfOk, OnOk, OnErr};
ghost use Rattle.std.specs.FinSet as set;
ghost use Rattle.dg_nor.specs.Chip.{Touches};
ghost use Rattle.dg_slot.specs.Layout.{packets, header_sector};
ghost use Rattle.dg_slot.specs.Kept.{Held};
ghost use Rattle.dg_slot.specs.Jobs.{outline_of_slot, done_of_slot, Packets, page_from, slot_of, got_of_job, IsJob, SlotStops};
ghost use Rattle.dg_chain.specs.Answers.{chained_trail, chained_slot, SealsChained};

use crate::DIGEST_SIZE;
use crate::pages::{field_of, read_page};
use dg_nor::{Nor, Stopped};
use dg_object::PAGE_SIZE;
use dg_slot::{OpenSlot, PageJob, Sealing};
use sha2::{Digest, Sha256};

/// The outcome of sealing a data page.
#[derive(Debug, Drop)]
pub enum ChainSealing {
    /// The page is complete, and names the next.
    Sealed {
        slot: OpenSlot,
        next: [u8; DIGEST_SIZE],
    },
    /// Its digest is not the expected one.
    Foreign {
        found: [u8; DIGEST_SIZE],
        slot: OpenSlot,
    },
    /// Its CRC is not the one that is kept of it.
    Bad {
        kept: u16,
        found: u16,
        slot: OpenSlot,
    },
}

/// Makes a data page complete, if it is the expected one and its CRC is the one that is kept of it. 1 operation, or 0 if it is
/// not made complete.
pub fn seal_chained<N: Nor>(
    job: PageJob,
    nor: &mut N,
    expected: &[u8; DIGEST_SIZE],
) -> Result<ChainSealing, Stopped>
    requires all { (q : ℕ) → q < packets → set.contains (got_of_job job) q ≡ true }
    requires data_page { 1 ≤ done_of_slot (slot_of job) }
    ensures sealed { IfOk result (λ answer. (h : Held) (ps : Packets) → IsJob (N.device nor.old).image job h ps
        → SealsChained expected.now (outline_of_slot (slot_of job)).image h (page_from ps) (N.device nor.old) (N.device nor.new)
        answer) }
    // the slot that is returned is this one
    ensures same { IfOk result (λ answer. outline_of_slot (chained_slot answer) ≡ outline_of_slot (slot_of job)) }
    ensures same_reference { (N.device nor.new).references ≡ (N.device nor.old).references }
    ensures touches { let k = header_sector (outline_of_slot (slot_of job)).image in Touches k (k + 1) (N.device nor.old).image
        (N.device nor.new).image }
    ensures awake { OnOk result ((N.device nor.old).stopped ≡ false) }
    ensures stopped { OnErr result ((h : Held) (ps : Packets) → IsJob (N.device nor.old).image job h ps
        → SlotStops (outline_of_slot (slot_of job)).image
        (chained_trail expected.now (outline_of_slot (slot_of job)).image h (page_from ps)) (N.device nor.old)
        (N.device nor.new)) }
{
    let mut page = [0; PAGE_SIZE];
    read_page(nor, job.image(), job.page(), &mut page)?;
    let found = Sha256::digest(page.as_slice());
    if found != *expected {
        let slot = job.drop_job();
        return Ok(ChainSealing::Foreign { found, slot });
    }
    let next = field_of(&page);
    match job.seal(nor)? {
        Sealing::Sealed(slot) => Ok(ChainSealing::Sealed { slot, next }),
        Sealing::Bad { kept, found, slot } => Ok(ChainSealing::Bad { kept, found, slot }),
        // Only page 0 may be unfit. A `PageJob` is of any page, and its type does not say of which.
        Sealing::Unfit { .. } => unreachable!(),
    }
}
