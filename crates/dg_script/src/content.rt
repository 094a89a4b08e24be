//! Names, contents and masks.
ghost use Rattle.std.specs.Prelude.{◌≡◌, ◌≤◌, Ok, Some, IfOk, length};
ghost use Rattle.dg_base.specs.Hexadecimal.{hex_bytes};
ghost use Rattle.dg_script.specs.Sizes.{most_content};
ghost use Rattle.dg_script.specs.Results.{or_fault};
ghost use Rattle.dg_script.specs.Contents.{generated, generated_of, content_of, sized, sized_content, spelled_mask, spelled_name};
ghost use Rattle.dg_script.specs.Reading.{Reads};

use crate::fault::LineFault;
use crate::words::halves;
use dg_base::{Bytes, HexFault, LONGEST_MASK, MOST_CONTENT, is_name, parse_hex, parse_u32};
use std::alloc::{AllocError, Global};

/// The bytes of a name.
#[tactic(auto, unfolding(crate::specs::Contents::spelled_name))]
pub fn name(alloc: Global, word: &[u8]) -> Result<Bytes, LineFault>
    ensures { Reads result (spelled_name word.now) }
{
    if !is_name(word) {
        return Err(LineFault::Name);
    }
    match Vec::from_slice(alloc, word) {
        Ok(name) => Ok(Bytes::new(name)),
        Err(AllocError) => Err(LineFault::Memory),
    }
}

// The bytes that digits encode, or the given fault.
#[tactic(auto, using(crate::proofs::ContentLemmas::refusals))]
fn digits(alloc: Global, digits: &[u8], fault: LineFault) -> Result<Bytes, LineFault>
    ensures { Reads result (or_fault fault (hex_bytes digits.now)) }
{
    match parse_hex(alloc, digits) {
        Ok(bytes) => Ok(Bytes::new(bytes)),
        Err(HexFault::Memory) => Err(LineFault::Memory),
        Err(HexFault::Odd) => Err(fault),
        Err(HexFault::Digit) => Err(fault),
    }
}

// Writes the bytes that a seed generates.
fn fill(seed: u32, into: &mut [u8])
    requires { length into.old ≤ most_content }
    ensures { into.new ≡ generated (length into.old) seed }
{
    for at in 0..into.len() {
        into[at] = ((seed as usize + 31 * at + at / 256) % 256) as u8;
    }
}

/// The first `length` bytes that a seed generates. The only fault is [`LineFault::Memory`].
pub fn generate(alloc: Global, length: u32, seed: u32) -> Result<Bytes, LineFault>
    requires { length ≤ most_content }
    ensures { Reads result (Ok (generated length seed)) }
{
    match vec![in alloc; 0; length as usize] {
        Ok(mut bytes) => {
            fill(seed, &mut bytes);
            Ok(Bytes::new(bytes))
        }
        Err(AllocError) => Err(LineFault::Memory),
    }
}

// The bytes that a length and a seed, with a colon between them, generate.
#[tactic(auto, unfolding(crate::specs::Contents::generated_of))]
fn generated(alloc: Global, fields: &[u8]) -> Result<Bytes, LineFault>
    ensures { Reads result (or_fault LineFault.Content (generated_of fields.now)) }
{
    let Some((length, seed)) = halves(fields) else {
        return Err(LineFault::Content);
    };
    let Some(length) = parse_u32(length) else {
        return Err(LineFault::Content);
    };
    let Some(seed) = parse_u32(seed) else {
        return Err(LineFault::Content);
    };
    if length as usize > MOST_CONTENT {
        return Err(LineFault::Content);
    }
    generate(alloc, length, seed)
}

// The bytes of a content.
#[tactic(auto, unfolding(crate::specs::Contents::content_of))]
fn content(alloc: Global, word: &[u8]) -> Result<Bytes, LineFault>
    ensures { Reads result (or_fault LineFault.Content (content_of word.now)) }
{
    if let Some(hex) = word.strip_prefix(b"hex:") {
        return digits(alloc, hex, LineFault::Content);
    }
    match word.strip_prefix(b"gen:") {
        Some(fields) => generated(alloc, fields),
        None => Err(LineFault::Content),
    }
}

// The bytes, if there are `least` to `most` of them, or the given fault.
fn sized(bytes: Bytes, least: usize, most: usize, fault: LineFault) -> Result<Bytes, LineFault>
    ensures read { Reads result (sized fault least most bytes) }
    ensures low { IfOk result (λ b. least ≤ length b) }
    ensures high { IfOk result (λ b. length b ≤ most) }
{
    let length = bytes.as_slice().len();
    if length < least {
        return Err(fault);
    }
    if length > most {
        return Err(fault);
    }
    Ok(bytes)
}

/// The bytes of a content, if there are `least` to `most` of them.
#[tactic(auto, unfolding(crate::specs::Contents::sized_content))]
pub fn sized_content(
    alloc: Global,
    word: &[u8],
    least: usize,
    most: usize,
) -> Result<Bytes, LineFault>
    ensures read { Reads result (sized_content least most word.now) }
    ensures high { IfOk result (λ b. length b ≤ most) }
{
    let bytes = content(alloc, word)?;
    sized(bytes, least, most, LineFault::Content)
}

/// The bytes of a mask, 1 to 2,048.
#[tactic(auto, unfolding(crate::specs::Contents::spelled_mask))]
pub fn mask(alloc: Global, word: &[u8]) -> Result<Bytes, LineFault>
    ensures read { Reads result (spelled_mask word.now) }
    ensures low { IfOk result (λ b. 1 ≤ length b) }
    ensures high { IfOk result (λ b. length b ≤ LONGEST_MASK) }
{
    let bytes = digits(alloc, word, LineFault::Mask)?;
    sized(bytes, 1, LONGEST_MASK, LineFault::Mask)
}
