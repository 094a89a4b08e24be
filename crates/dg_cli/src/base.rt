//! The command that runs a base mote on a serial line.
ghost use Rattle.std.specs.Prelude.{◌≡◌, ◌≢◌, ◌≤◌, map, Some, codes};
ghost use Rattle.dg_outside.specs.Outside.{Outside, output_of, with_input, with_output, with_boards};
ghost use Rattle.dg_end.specs.Texts.{line};
ghost use Rattle.dg_end.specs.Writes.{WritesLast};
ghost use Rattle.dg_cli.specs.inner.Words.{BaseDone};

use dg_base::{Sink, Source, Status, WriteFailed};
use dg_nor::Nor;
use std::alloc::Global;

/// Reports that there is no board.
fn tell_no_board<K: Sink>(out: &mut K) -> Status
    ensures written { WritesLast result Status.NoBoard (Some (line (codes "noboard 1 0"))) (output_of (K.Sink, out.old))
        (output_of (K.Sink, out.new)) }
    ensures room { result ≢ Status.Memory }
    ensures writes { K.faults out.old ≤ K.faults out.new }
{
    match out.write(b"noboard 1 0\n") {
        Ok(()) => Status::NoBoard,
        Err(WriteFailed) => Status::WriteFault,
    }
}

/// Runs a base mote over the first of the boards.
fn base_first<S: Source, K: Sink, N: Nor>(
    alloc: Global,
    id: u16,
    step: u32,
    seed: u32,
    input: &mut S,
    out: &mut K,
    boards: &mut [N],
) -> Status
    requires step { step ≤ 60000 }
    ensures done { (rest : Outside) → BaseDone id step seed result
        (with_boards (map N.device boards.old) (with_output (K.Sink, out.old) (with_input (S.Source, input.old) rest)))
        (with_boards (map N.device boards.new) (with_output (K.Sink, out.new) (with_input (S.Source, input.new) rest))) }
    ensures link { result ≢ Status.LinkFault }
    ensures reads { S.faults input.old ≤ S.faults input.new }
    ensures writes { K.faults out.old ≤ K.faults out.new }
{
    if boards.is_empty() {
        return tell_no_board(out);
    }
    dg_serial_base::base(alloc, &mut boards[0], id, step, seed, input, out)
}

/// Runs a base mote over the first board.
pub(crate) fn base<S: Source, K: Sink, N: Nor>(
    alloc: Global,
    id: u16,
    step: u32,
    seed: u32,
    input: &mut S,
    out: &mut K,
    boards: &mut Vec<N>,
) -> Status
    requires step { step ≤ 60000 }
    ensures done { (rest : Outside) → BaseDone id step seed result
        (with_boards (map N.device boards.old.items) (with_output (K.Sink, out.old) (with_input (S.Source, input.old) rest)))
        (with_boards (map N.device boards.new.items) (with_output (K.Sink, out.new) (with_input (S.Source, input.new) rest))) }
    ensures link { result ≢ Status.LinkFault }
    ensures reads { S.faults input.old ≤ S.faults input.new }
    ensures writes { K.faults out.old ≤ K.faults out.new }
{
    base_first(alloc, id, step, seed, input, out, boards.as_mut_slice())
}
