//! Two motes that update each other: each keeps an image that the other lacks, and each frame that one sends is what the
//! other hears in its next turn.
#![tactic(auto)]

mod turns;

ghost use Rattle.std.specs.Prelude.{◌≤◌, ◌<◌, IsTrue};
ghost use Rattle.dg_base.specs.Texts.{spells_name};
ghost use Rattle.dg_volume.specs.Sizes.{images};

use anyhow::Result;
use dg_frame::Frame;
use dg_mote::a_mote_stays_timely;
use dg_nor::Board;
use dg_volume::{FORM, Volume};
use std::alloc::Global;
use turns::{turn, wake};

/// How often each mote has its turn, in milliseconds.
const STEP: u64 = 16;

/// How many turns each has: five minutes.
const TURNS: u64 = 18_750;

fn main(rt: HostRuntime) -> Result<()> {
    let mut left = chip_with(rt.alloc(), 1, b"blink", b"123456789")?;
    let mut right = chip_with(rt.alloc(), 2, b"sense", b"987654321")?;
    exchange(&mut left, &mut right)?;
    for image in 1..3 {
        let of_left = complete_pages(&mut left, image)?;
        let of_right = complete_pages(&mut right, image)?;
        println!(rt; "image {image}: {of_left} pages on the left, {of_right} on the right")?;
    }
    Ok(())
}

/// A chip that keeps version 1 of an image.
fn chip_with(alloc: Global, image: u8, name: &[u8], bytes: &[u8]) -> Result<Board>
    requires known_image { image < images }
    requires named { IsTrue (spells_name name.now) }
{
    let mut chip = Board::memory(alloc)?;
    Volume::format(&mut chip, b"A", b"base", 0, FORM)?;
    Volume::mount(&mut chip)?.inject(&mut chip, image, 1, name, bytes)?;
    Ok(chip)
}

/// How many pages of an image a chip keeps.
fn complete_pages(chip: &mut Board, image: u8) -> Result<u8>
    requires { image < images }
{
    let kept = Volume::mount(chip)?.kept(image);
    Ok(kept.map_or(0, |kept| kept.done))
}

/// Lets the motes of two chips run, numbers 1 and 2, which power on at moment 0.
fn exchange(left: &mut Board, right: &mut Board) -> Result<()> {
    a_mote_stays_timely();
    let mut first = wake(left, 1)?;
    let mut second = wake(right, 2)?;
    let mut to_first: Option<Frame> = None;
    let mut to_second: Option<Frame> = None;
    for number in 0..TURNS {
        let now = STEP * number;
        let word = 2_654_435_761_u32.wrapping_mul(number as u32);
        let sent = turn(&mut first, left, now, word, to_first)?;
        let answered = turn(&mut second, right, now, word.rotate_left(16), to_second)?;
        to_first = answered;
        to_second = sent;
    }
    Ok(())
}
