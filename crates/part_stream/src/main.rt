//! A store that is filled packet by packet as an image comes in, with 23 bytes at a time in memory.
#![tactic(auto)]

mod receiving;
mod stream;

use anyhow::Result;
use dg_nor::Board;
use dg_volume::{FORM, Volume};
use receiving::receive_page;
use stream::announced;

fn main(rt: HostRuntime) -> Result<()> {
    let mut chip = Board::memory(rt.alloc())?;
    Volume::format(&mut chip, b"A", b"base", 0, FORM)?;

    // A neighbour sent the profile. What the slot kept before is discarded.
    let profile = announced();
    let mut volume = Volume::mount(&mut chip)?;
    let mut slot = volume.take(&mut chip, profile.image, &profile)?;
    for page in 0..profile.pages {
        slot = receive_page(&mut chip, slot)?;
        println!(rt;
            "page {page} came: {} of {} complete",
            slot.done(),
            profile.pages
        )?;
    }
    volume.put_back(slot);

    // All of it is on the chip: a mount after a loss of power finds it.
    if let Some(kept) = Volume::mount(&mut chip)?.kept(1) {
        println!(rt;
            "version {}: {} of {} pages, CRC {:04x}",
            kept.version, kept.done, kept.pages, kept.crc
        )?;
    }
    Ok(())
}
