//! The command that writes an older chip's snapshot in today's form.
ghost use Rattle.std.specs.Prelude.{◌≢◌, map};
ghost use Rattle.dg_outside.specs.Outside.{Outside, with_output, with_boards};
ghost use Rattle.dg_tool.specs.Rules.{MigrateDone};

use dg_base::{Sink, Status};
use dg_nor::Nor;
use dg_volume::a_volume_has_one_form;
use std::alloc::Global;

/// Writes the first board's snapshot in today's form.
pub(crate) fn migrate<K: Sink, N: Nor>(alloc: Global, out: &mut K, boards: &mut Vec<N>) -> Status
    ensures does { (rest : Outside) → MigrateDone result
        (with_boards (map N.device boards.old.items) (with_output (K.Sink, out.old) rest))
        (with_boards (map N.device boards.new.items) (with_output (K.Sink, out.new) rest)) }
    ensures link { result ≢ Status.LinkFault }
{
    a_volume_has_one_form();
    dg_tool::migrate(alloc, out, boards)
}
