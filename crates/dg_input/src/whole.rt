//! An input that is kept: all of it is read, as far as it is used.
ghost use Rattle.std.specs.Prelude.{◌≡◌, ◌≢◌, ◌⊎◌, ℕ, ◌+◌, ◌<◌, ◌≤◌, List, ◌++◌, length, vec_len, IfOk, OnOk};
ghost use Rattle.dg_words.specs.Counts.{Rose};
ghost use Rattle.dg_base.specs.Outside.{Takes, AtEnd};
ghost use Rattle.dg_base.specs.Sizes.{most_input};

use crate::{PIECE, ReadStop, read_piece};
use dg_base::{MOST_INPUT, ReadFailed, Source};
use std::alloc::{AllocError, Global};

// Reads a piece after the bytes, up to one byte past those that are used, and returns how many
// bytes came.
fn keep_piece<S: Source>(
    source: &mut S,
    piece: &mut [u8],
    bytes: &mut Vec<u8>,
) -> Result<usize, ReadStop>
    requires piece { 0 < length piece.old }
    requires bound { vec_len bytes.old ≤ most_input }
    ensures taken { (more : List ℕ) × Takes (S.left source.old) (S.left source.new) more
        × (vec_len bytes.old + length more ≤ most_input + 1)
        × IfOk result (λ n. (n ≡ length more) × (bytes.new.items ≡ bytes.old.items ++ more)) }
    ensures bound { OnOk result (vec_len bytes.new ≤ most_input + 1) }
    ensures ended { result ≡ Ok 0 → AtEnd (S.left source.new) }
    ensures counts { S.faults source.old ≤ S.faults source.new }
    ensures failed { result ≡ Err ReadStop.ReadFault → Rose (S.faults source.old) (S.faults source.new) }
    ensures unfailed { result ≢ Err ReadStop.ReadFault → S.faults source.new ≡ S.faults source.old }
{
    match read_piece(source, piece, MOST_INPUT + 1 - bytes.len()) {
        Ok(count) => match bytes.extend_from_slice(&piece[..count]) {
            Ok(()) => Ok(count),
            Err(AllocError) => Err(ReadStop::Memory),
        },
        Err(ReadFailed) => Err(ReadStop::ReadFault),
    }
}

// Reads an input in pieces.
fn read_pieces<S: Source>(
    alloc: Global,
    source: &mut S,
    piece: &mut [u8],
) -> Result<Vec<u8>, ReadStop>
    requires { 0 < length piece.old }
    ensures taken { (bytes : List ℕ) × Takes (S.left source.old) (S.left source.new) bytes × (length bytes ≤ most_input + 1)
        × IfOk result (λ v. v.items ≡ bytes) }
    ensures ended { IfOk result (λ v. AtEnd (S.left source.new) ⊎ (most_input < length v.items)) }
    ensures bound { IfOk result (λ v. length v.items ≤ most_input + 1) }
    ensures counts { S.faults source.old ≤ S.faults source.new }
    ensures failed { result ≡ Err ReadStop.ReadFault → Rose (S.faults source.old) (S.faults source.new) }
    ensures unfailed { result ≢ Err ReadStop.ReadFault → S.faults source.new ≡ S.faults source.old }
{
    let mut bytes = Vec::new(alloc);
    while bytes.len() <= MOST_INPUT {
        if keep_piece(source, piece, &mut bytes)? == 0 {
            break;
        }
    }
    Ok(bytes)
}

/// Reads an input to its end, or one byte past those that are used.
///
/// Whatever it returns, some bytes were taken from the source, in their order and no more than that. After Ok they
/// are those of the result.
pub fn read_whole<S: Source>(alloc: Global, source: &mut S) -> Result<Vec<u8>, ReadStop>
    ensures taken { (bytes : List ℕ) × Takes (S.left source.old) (S.left source.new) bytes × (length bytes ≤ most_input + 1)
        × IfOk result (λ v. v.items ≡ bytes) }
    ensures ended { IfOk result (λ v. AtEnd (S.left source.new) ⊎ (most_input < length v.items)) }
    ensures bound { IfOk result (λ v. length v.items ≤ most_input + 1) }
    ensures counts { S.faults source.old ≤ S.faults source.new }
    ensures failed { result ≡ Err ReadStop.ReadFault → Rose (S.faults source.old) (S.faults source.new) }
    ensures unfailed { result ≢ Err ReadStop.ReadFault → S.faults source.new ≡ S.faults source.old }
{
    read_pieces(alloc, source, &mut [0; PIECE])
}
