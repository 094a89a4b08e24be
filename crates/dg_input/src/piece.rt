//! A piece of an input.
ghost use Rattle.std.specs.Prelude.{◌≡◌, ℕ, ◌<◌, ◌≤◌, List, [], length, take, Ok, IfOk, OnOk, OnErr};
ghost use Rattle.dg_words.specs.Counts.{Rose};
ghost use Rattle.dg_base.specs.Outside.{Takes, AtEnd};

use dg_base::{ReadFailed, Source};

/// Reads the next bytes of an input into the beginning of `piece`, at most this many, and returns how many came: 0 at the end.
///
/// All code that reads an input as bytes uses this: commands that keep it or give it to a reader, and a base mote, which
/// plays what came before it reads more.
pub fn read_piece<S: Source>(
    source: &mut S,
    piece: &mut [u8],
    most: usize,
) -> Result<usize, ReadFailed>
    requires piece { 0 < length piece.old }
    requires some { 0 < most }
    ensures taken { (more : List ℕ) × Takes (S.left source.old) (S.left source.new) more × (length more ≤ most)
        × IfOk result (λ n. (n ≡ length more) × (take n piece.new ≡ more)) × OnErr result (more ≡ []) }
    ensures fits { IfOk result (λ n. n ≤ length piece.old) }
    ensures ended { result ≡ Ok 0 → AtEnd (S.left source.new) }
    ensures counts { S.faults source.old ≤ S.faults source.new }
    ensures failed { OnErr result (Rose (S.faults source.old) (S.faults source.new)) }
    ensures unfailed { OnOk result (S.faults source.new ≡ S.faults source.old) }
{
    let most = piece.len().min(most);
    match source.read(&mut piece[..most]) {
        Ok(count) => Ok(count),
        Err(ReadFailed) => Err(ReadFailed),
    }
}
