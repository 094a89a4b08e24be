//! A store over a chip of one's own: an image is injected, and found again by the next mount.
#![tactic(auto)]

mod device;

use anyhow::Result;
use device::RamChip;
use dg_volume::{FORM, Volume};

fn main(rt: HostRuntime) -> Result<()> {
    let mut chip = RamChip::new(rt.alloc())?;
    Volume::format(&mut chip, b"A", b"base", 0, FORM)?;
    let mut volume = Volume::mount(&mut chip)?;
    volume.inject(&mut chip, 1, 1, b"blink", b"123456789")?;

    // All of it is on the chip: a mount after a loss of power finds it.
    let volume = Volume::mount(&mut chip)?;
    if let Some(kept) = volume.kept(1) {
        println!(rt;
            "version {}: {} of {} pages, CRC {:04x}",
            kept.version, kept.done, kept.pages, kept.crc
        )?;
    }
    println!(rt; "room {}", volume.room())?;
    Ok(())
}
