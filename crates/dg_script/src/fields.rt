//! The fields of lines.
ghost use Rattle.std.specs.Prelude.{◌≡◌, ◌≤◌, ◌<◌, ◌^◌, IfOk};
ghost use Rattle.dg_script.specs.NumberLines.{mote_with, other_with};
ghost use Rattle.dg_script.specs.Fields.{number_in, ranged_in, mote_in, other_in, any_image_in};
ghost use Rattle.dg_script.specs.inner.Words.{mote_count_in, image_in};
ghost use Rattle.dg_script.specs.Fields.{version_in, counted_in};
ghost use Rattle.dg_script.specs.inner.Words.{used_in, sweeps_in};

use crate::fault::LineFault;
use crate::sizes::{MOST_IMAGE, MOST_SWEEPS};
use dg_base::{MOST_MOTES, parse_u32};
use dg_control::MOST_ROOM;

/// A number.
#[tactic(auto, unfolding(crate::specs::Fields::number_in))]
#[inline(always)]
pub fn number(word: &[u8]) -> Result<u32, LineFault>
    ensures { result ≡ number_in word.now }
{
    match parse_u32(word) {
        Some(number) => Ok(number),
        None => Err(LineFault::Number),
    }
}

// A number from `least` to `most`. Any other number has the given fault.
#[tactic(auto, unfolding(crate::specs::Fields::ranged_in))]
fn ranged(word: &[u8], least: u32, most: u32, fault: LineFault) -> Result<u32, LineFault>
    ensures read { result ≡ ranged_in fault least most word.now }
    ensures low { IfOk result (λ n. least ≤ n) }
    ensures high { IfOk result (λ n. n ≤ most) }
{
    let number = number(word)?;
    if number < least {
        return Err(fault);
    }
    if number > most {
        return Err(fault);
    }
    Ok(number)
}

/// How many motes there are, 1 to 16.
pub fn motes(word: &[u8]) -> Result<u8, LineFault>
    ensures { result ≡ mote_count_in word.now }
{
    let motes = ranged(word, 1, MOST_MOTES as u32, LineFault::Mote)?;
    Ok(motes as u8)
}

/// The mote with this number, one of this many.
#[inline(always)]
pub fn mote_with(number: u32, motes: u8) -> Result<u8, LineFault>
    ensures { result ≡ mote_with motes number }
{
    if number >= u32::from(motes) {
        return Err(LineFault::Mote);
    }
    Ok(number as u8)
}

/// One of this many motes.
#[tactic(auto, unfolding(crate::specs::Fields::mote_in))]
pub fn mote(word: &[u8], motes: u8) -> Result<u8, LineFault>
    ensures { result ≡ mote_in motes word.now }
{
    let number = number(word)?;
    mote_with(number, motes)
}

/// The mote with this number, one of this many, but not `first`.
#[inline(always)]
pub fn other_with(number: u32, motes: u8, first: u8) -> Result<u8, LineFault>
    ensures { result ≡ other_with motes first number }
{
    let other = mote_with(number, motes)?;
    if other == first {
        return Err(LineFault::Mote);
    }
    Ok(other)
}

/// One of this many motes, but not `first`.
#[tactic(auto, unfolding(crate::specs::Fields::other_in))]
pub fn other_mote(word: &[u8], motes: u8, first: u8) -> Result<u8, LineFault>
    ensures { result ≡ other_in motes first word.now }
{
    let other = mote(word, motes)?;
    if other == first {
        return Err(LineFault::Mote);
    }
    Ok(other)
}

/// The number of an image that can be declared, 1 to 6.
pub fn image_number(word: &[u8]) -> Result<u8, LineFault>
    ensures { result ≡ image_in word.now }
{
    let image = ranged(word, 1, u32::from(MOST_IMAGE), LineFault::Image)?;
    Ok(image as u8)
}

/// The number of an image, 0 to 6.
pub fn any_image_number(word: &[u8]) -> Result<u8, LineFault>
    ensures { result ≡ any_image_in word.now }
{
    let image = ranged(word, 0, u32::from(MOST_IMAGE), LineFault::Image)?;
    Ok(image as u8)
}

/// A version, or the number of an order, from 1 on.
pub fn version(word: &[u8]) -> Result<u32, LineFault>
    ensures { result ≡ version_in word.now }
{
    ranged(word, 1, u32::MAX, LineFault::Version)
}

/// The number of a frame or of an operation, from 1 on.
pub fn counted(word: &[u8]) -> Result<u32, LineFault>
    ensures read { result ≡ counted_in word.now }
    ensures some { IfOk result (λ n. 1 ≤ n) }
{
    ranged(word, 1, u32::MAX, LineFault::Number)
}

/// How many commits the chips count as spent, up to 520,223.
pub fn used(word: &[u8]) -> Result<u32, LineFault>
    ensures { result ≡ used_in word.now }
{
    ranged(word, 0, MOST_ROOM, LineFault::Number)
}

/// How many sweeps, 1 to 1,000.
pub fn sweeps(word: &[u8]) -> Result<u32, LineFault>
    ensures { result ≡ sweeps_in word.now }
{
    ranged(word, 1, MOST_SWEEPS, LineFault::Number)
}
