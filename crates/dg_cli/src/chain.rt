//! Commands that are given the root of a hash-chained image, as digits.
ghost use Rattle.std.specs.Prelude.{◌≡◌, ◌≤◌, ◌<◌, true, map, IsTrue};
ghost use Rattle.dg_base.specs.Texts.{spells_name};
ghost use Rattle.dg_volume.specs.Sizes.{images};
ghost use Rattle.dg_outside.specs.Outside.{Outside, with_input, with_output, with_boards};
ghost use Rattle.dg_chain_tool.specs.Done.{ReceiveDone};
ghost use Rattle.dg_command.specs.Roots.{spells_root};
ghost use Rattle.dg_cli.specs.Chained.{root_in, Checked};

use dg_base::{Sink, Source, Status};
use dg_command::root_bytes;
use dg_nor::Nor;
use std::alloc::Global;

/// Compares an image of the first board with a root.
pub(crate) fn check<K: Sink, N: Nor>(
    alloc: Global,
    image: u8,
    root: &[u8],
    out: &mut K,
    boards: &mut Vec<N>,
) -> Status
    requires image { image < images }
    requires root { spells_root root.now ≡ true }
    ensures does { (rest : Outside) → Checked image (root_in root.now) result
        (with_boards (map N.device boards.old.items) (with_output (K.Sink, out.old) rest))
        (with_boards (map N.device boards.new.items) (with_output (K.Sink, out.new) rest)) }
{
    let root = root_bytes(root);
    dg_chain_tool::check(alloc, image, &root, out, boards)
}

/// Receives an image on the first board, page by page against a root.
pub(crate) fn receive<S: Source, K: Sink, N: Nor>(
    alloc: Global,
    image: u8,
    version: u32,
    name: &[u8],
    root: &[u8],
    input: &mut S,
    out: &mut K,
    boards: &mut Vec<N>,
) -> Status
    requires image { image < images }
    requires version { 1 ≤ version }
    requires named { IsTrue (spells_name name.now) }
    requires root { spells_root root.now ≡ true }
    ensures does { (rest : Outside) → ReceiveDone image version name.now (root_in root.now) result
        (with_boards (map N.device boards.old.items) (with_output (K.Sink, out.old) (with_input (S.Source, input.old) rest)))
        (with_boards (map N.device boards.new.items) (with_output (K.Sink, out.new) (with_input (S.Source, input.new) rest))) }
{
    let root = root_bytes(root);
    dg_chain_tool::receive(alloc, image, version, name, &root, input, out, boards)
}
