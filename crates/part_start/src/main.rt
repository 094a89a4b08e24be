//! A start that is cut off in the middle of its copy, and the next one, which does it again.
#![tactic(auto)]

use anyhow::Result;
use dg_boot::{Kind, start};
use dg_nor::{Board, Fused};
use dg_volume::{FORM, Volume};

fn main(rt: HostRuntime) -> Result<()> {
    let mut board = Board::memory(rt.alloc())?;
    Volume::format(&mut board, b"A", b"base", 0, FORM)?;
    Volume::mount(&mut board)?.inject(&mut board, 1, 1, b"blink", b"123456789")?;
    Volume::mount(&mut board)?.order(&mut board, 1, 1, 1)?;

    // The power fails in the tenth operation of the start, which copies a page.
    let mut cut = Fused::new(&mut board, Some(10), &[0x00]);
    if let Err(fault) = start(&mut cut, Kind::Power) {
        println!(rt; "{fault}")?;
    }

    let started = start(&mut board, Kind::Power)?;
    println!(rt;
        "image {} version {} runs: {} bytes, CRC {:04x}",
        started.image, started.version, started.length, started.crc
    )?;
    Ok(())
}
