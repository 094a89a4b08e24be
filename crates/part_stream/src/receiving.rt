//! A page is received into its slot.
ghost use Rattle.std.specs.Prelude.{◌≡◌, IfOk};
ghost use Rattle.dg_slot.specs.Jobs.{outline_of_slot};

use crate::stream::next_packet;
use anyhow::{Result, bail};
use dg_nor::Nor;
use dg_object::PACKETS;
use dg_slot::{OpenSlot, Sealing};

/// Erases the sector of the next page, puts its packets as they come, and makes it complete where it fits. A slot of which all
/// pages are complete is returned.
pub fn receive_page<N: Nor>(chip: &mut N, slot: OpenSlot) -> Result<OpenSlot>
    ensures { IfOk result (λ o. outline_of_slot o ≡ outline_of_slot slot) }
{
    let page = slot.done();
    if page >= slot.profile().pages {
        return Ok(slot);
    }
    let mut job = slot.begin_page(chip)?;
    for packet in 0..PACKETS as u8 {
        match next_packet(page, packet) {
            Some(bytes) => job.put(chip, packet, &bytes)?,
            None => bail!("the stream has no page {page}"),
        }
    }
    match job.seal(chip)? {
        Sealing::Sealed(slot) => Ok(slot),
        Sealing::Bad { kept, found, .. } => bail!(
            "page {page} has CRC {found:04x}, not {kept:04x}"
        ),
        Sealing::Unfit { .. } => bail!("page 0 is not the descriptor"),
    }
}
