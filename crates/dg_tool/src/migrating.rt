//! The verb `migrate`.
ghost use Rattle.std.specs.Prelude.{ℕ, map};
ghost use Rattle.dg_end.specs.Lines.{text_outcome};
ghost use Rattle.dg_tool.specs.Endings.{FirstInForm};
ghost use Rattle.dg_tool.specs.Done.{OnBoards};
ghost use Rattle.dg_tool.specs.Rules.{migrate_rule};

use dg_end::{End, line_of};
use dg_nor::Nor;
use dg_volume::{Volume, a_volume_has_one_form};
use std::alloc::Global;

/// Migrates the first of the boards, and gives the line that reports it.
pub(crate) fn migrate_first<N: Nor>(alloc: Global, boards: &mut [N]) -> Result<Vec<u8>, End>
    ensures { (form : ℕ) → FirstInForm form (map N.device boards.old)
        → OnBoards (text_outcome (λ text. text.items) result) (migrate_rule (map N.device boards.old) form) ⊥
        (map N.device boards.old) (map N.device boards.new) }
{
    a_volume_has_one_form();
    if boards.is_empty() {
        return Err(End::NoBoard { need: 1, have: 0 });
    }
    let nor = &mut boards[0];
    let mut volume = Volume::mount(nor)?;
    volume.migrate(nor)?;
    let line = line_of(alloc, b"form", &[u32::from(volume.form())])?;
    Ok(line)
}
