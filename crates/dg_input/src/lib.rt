//! The input of a command, read in pieces and as far as it is used.
#![tactic(auto)]

ghost use Rattle.std.specs.Prelude.{◌≡◌, ◌≢◌, ◌⊎◌, ℕ, ◌+◌, ◌<◌, ◌≤◌, List, ◌++◌, length, IfOk, OnOk};
ghost use Rattle.dg_words.specs.Counts.{Rose};
ghost use Rattle.dg_base.specs.Outside.{Takes, AtEnd};
ghost use Rattle.dg_base.specs.Sizes.{most_input};
ghost use Rattle.dg_ihex.specs.Streams.{Fed};

mod piece;
mod whole;

use dg_base::{MOST_INPUT, ReadFailed, Source};
use dg_ihex::HexReader;
pub use piece::read_piece;
use std::alloc::{AllocError, Global};
pub use whole::read_whole;

/// The bytes that are requested at once.
const PIECE: usize = 65_536;

/// Why an input is not read to its end.
#[derive(Clone, Copy, Debug, PartialEq, Eq)]
pub enum ReadStop {
    Memory,
    ReadFault,
}

// Gives a reader the next piece, of at most this many bytes, and returns how many came.
fn feed_piece<S: Source>(
    alloc: Global,
    source: &mut S,
    piece: &mut [u8],
    most: usize,
    reader: &mut HexReader,
) -> Result<usize, ReadStop>
    requires piece { 0 < length piece.old }
    requires some { 0 < most }
    ensures taken { (more : List ℕ) × Takes (S.left source.old) (S.left source.new) more × (length more ≤ most)
        × IfOk result (λ n. n ≡ length more)
        × ((input : List ℕ) → Fed reader.old input → length input + most ≤ most_input + 1
        → OnOk result (Fed reader.new (input ++ more))) }
    ensures ended { result ≡ Ok 0 → AtEnd (S.left source.new) }
    ensures counts { S.faults source.old ≤ S.faults source.new }
    ensures failed { result ≡ Err ReadStop.ReadFault → Rose (S.faults source.old) (S.faults source.new) }
    ensures unfailed { result ≢ Err ReadStop.ReadFault → S.faults source.new ≡ S.faults source.old }
{
    match read_piece(source, piece, most) {
        Ok(count) => match reader.feed(alloc, &piece[..count]) {
            Ok(()) => Ok(count),
            Err(AllocError) => Err(ReadStop::Memory),
        },
        Err(ReadFailed) => Err(ReadStop::ReadFault),
    }
}

// Reads an input in pieces.
fn read_pieces<S: Source>(
    alloc: Global,
    source: &mut S,
    piece: &mut [u8],
) -> Result<HexReader, ReadStop>
    requires { 0 < length piece.old }
    ensures taken { (bytes : List ℕ) × Takes (S.left source.old) (S.left source.new) bytes × (length bytes ≤ most_input + 1)
        × IfOk result (λ reader. Fed reader bytes × (AtEnd (S.left source.new) ⊎ (most_input < length bytes))) }
    ensures counts { S.faults source.old ≤ S.faults source.new }
    ensures failed { result ≡ Err ReadStop.ReadFault → Rose (S.faults source.old) (S.faults source.new) }
    ensures unfailed { result ≢ Err ReadStop.ReadFault → S.faults source.new ≡ S.faults source.old }
{
    let mut reader = HexReader::new(alloc);
    let mut count = 0;
    while count <= MOST_INPUT {
        let came = feed_piece(alloc, source, piece, MOST_INPUT + 1 - count, &mut reader)?;
        if came == 0 {
            return Ok(reader);
        }
        count += came;
    }
    Ok(reader)
}

/// Gives a reader of HEX files an input to its end, or one byte past those that are used.
///
/// Whatever it returns, some bytes were taken from the source, in their order and no more than that. After Ok they
/// are those that the reader was given.
pub fn read_input<S: Source>(alloc: Global, source: &mut S) -> Result<HexReader, ReadStop>
    ensures taken { (bytes : List ℕ) × Takes (S.left source.old) (S.left source.new) bytes × (length bytes ≤ most_input + 1)
        × IfOk result (λ reader. Fed reader bytes × (AtEnd (S.left source.new) ⊎ (most_input < length bytes))) }
    ensures counts { S.faults source.old ≤ S.faults source.new }
    ensures failed { result ≡ Err ReadStop.ReadFault → Rose (S.faults source.old) (S.faults source.new) }
    ensures unfailed { result ≢ Err ReadStop.ReadFault → S.faults source.new ≡ S.faults source.old }
{
    read_pieces(alloc, source, &mut [0; PIECE])
}
