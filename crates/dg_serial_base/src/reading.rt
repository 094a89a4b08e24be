//! The input of a base mote, read piece by piece.
ghost use Rattle.std.specs.Prelude.{◌≡◌, ℕ, ◌+◌, ◌-◌, ◌*◌, ◌^◌, ◌<◌, ◌≤◌, List, [], length, take, Ok, IfOk, IfErr, OnOk, OnErr};
ghost use Rattle.dg_base.specs.Outside.{Takes, AtEnd};
ghost use Rattle.dg_base.specs.Sizes.{most_input};
ghost use Rattle.dg_serial_base.specs.inner.Standing.{Counts, WriteCounts, ReadCounts, Outset, code_on_line};
ghost use Rattle.dg_serial_base.specs.inner.Standing.{IsStood, StreamPlayed, PieceEnds, InputEnds, LastEnds};

use crate::playing::Player;
use dg_base::{MOST_INPUT, ReadFailed, Sink, Source};
use dg_end::End;
use dg_nor::Nor;

/// Bytes that are asked for at once.
pub(crate) const PIECE: usize = 4_096;

/// Reads the next bytes of the input into a piece, at most this many, and answers how many came: 0 at the end.
fn read_piece<S: Source>(input: &mut S, piece: &mut [u8], most: usize) -> Result<usize, End>
    requires some { 0 < length piece.old }
    requires most { 0 < most }
    ensures taken { (more : List ℕ) × Takes (S.left input.old) (S.left input.new) more × (length more ≤ most)
        × IfOk result (λ n. (n ≡ length more) × (take n piece.new ≡ more)) × OnErr result (more ≡ []) }
    ensures ended { result ≡ Ok 0 → AtEnd (S.left input.new) }
    ensures why { IfErr result (λ why. why ≡ End.ReadFault) }
    ensures counts { ReadCounts result (S.faults input.old) (S.faults input.new) }
{
    match dg_input::read_piece(input, piece, most) {
        Ok(count) => Ok(count),
        Err(ReadFailed) => Err(End::ReadFault),
    }
}

/// Checks that the input is at its end.
fn expect_end<S: Source>(input: &mut S) -> Result<(), End>
    ensures ends { LastEnds result (S.left input.old) (S.left input.new) }
    ensures counts { ReadCounts result (S.faults input.old) (S.faults input.new) }
{
    if read_piece(input, &mut [0; 1], 1)? == 0 {
        return Ok(());
    }
    Err(End::TooLong)
}

impl Player {
    /// Reads a piece of the input, of at most this many bytes, and plays it. Answers how many came: 0 at the end.
    fn play_piece<S: Source, N: Nor, K: Sink>(
        &mut self,
        piece: &mut [u8],
        most: usize,
        input: &mut S,
        nor: &mut N,
        out: &mut K,
    ) -> Result<usize, End>
        requires some { 0 < length piece.old }
        requires most { 0 < most }
        requires stood { IsStood self.old.running (N.device nor.old).image }
        requires early { self.old.running.timeline.moment + 120000 * most < 2 ^ 60 }
        requires little { self.old.running.timeline.step ≤ 60000 }
        ensures ends { (a : Outset) (stream : List ℕ)
            → StreamPlayed a stream (code_on_line (K.written out.old) self.old.running self.old.line (N.device nor.old))
            → PieceEnds result a stream most (S.left input.old) (S.left input.new)
            (code_on_line (K.written out.new) self.new.running self.new.line (N.device nor.new)) }
        ensures few { IfOk result (λ count. count ≤ most) }
        ensures stood { OnOk result (IsStood self.new.running (N.device nor.new).image) }
        ensures counts { Counts result (N.device nor.old) (N.device nor.new) }
        ensures writes { WriteCounts result (K.faults out.old) (K.faults out.new) }
        ensures reads { ReadCounts result (S.faults input.old) (S.faults input.new) }
        ensures moment { IfOk result (λ count. self.new.running.timeline.moment
            ≤ self.old.running.timeline.moment + 120000 * count) }
        ensures step { OnOk result (self.new.running.timeline.step ≡ self.old.running.timeline.step) }
    {
        match read_piece(input, piece, most) {
            Ok(count) => match self.play_bytes(&piece[..count], nor, out) {
                Ok(()) => Ok(count),
                Err(end) => Err(end),
            },
            Err(end) => Err(end),
        }
    }

    /// Reads the input to its end and plays it, or as far as it is used.
    pub(crate) fn play_input<S: Source, N: Nor, K: Sink>(
        &mut self,
        piece: &mut [u8],
        input: &mut S,
        nor: &mut N,
        out: &mut K,
    ) -> Result<(), End>
        requires some { 0 < length piece.old }
        requires stood { IsStood self.old.running (N.device nor.old).image }
        requires early { self.old.running.timeline.moment ≤ 60000 }
        requires little { self.old.running.timeline.step ≤ 60000 }
        ensures ends { (a : Outset)
            → StreamPlayed a [] (code_on_line (K.written out.old) self.old.running self.old.line (N.device nor.old))
            → InputEnds result a (S.left input.old) (S.left input.new)
            (code_on_line (K.written out.new) self.new.running self.new.line (N.device nor.new)) }
        ensures counts { Counts result (N.device nor.old) (N.device nor.new) }
        ensures writes { WriteCounts result (K.faults out.old) (K.faults out.new) }
        ensures reads { ReadCounts result (S.faults input.old) (S.faults input.new) }
    {
        let mut used = 0;
        while used < MOST_INPUT {
            let count = self.play_piece(piece, MOST_INPUT - used, input, nor, out)?;
            if count == 0 {
                return Ok(());
            }
            used += count;
        }
        expect_end(input)
    }
}
