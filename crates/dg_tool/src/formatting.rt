//! The verb `format`.
ghost use Rattle.std.specs.Prelude.{◌≡◌, ◌⊎◌, ◌≤◌, map, IsTrue};
ghost use Rattle.dg_base.specs.Texts.{spells_name};
ghost use Rattle.dg_volume.specs.Sizes.{most_room, old_form, new_form};
ghost use Rattle.dg_outside.specs.Outside.{input_of};
ghost use Rattle.dg_end.specs.Lines.{text_outcome};
ghost use Rattle.dg_tool.specs.Done.{FedBoards};
ghost use Rattle.dg_tool.specs.Rules.{format_rule};

use crate::input::read_image;
use dg_base::Source;
use dg_control::MOST_ROOM;
use dg_end::{End, end_of_format, line_of};
use dg_nor::Nor;
use dg_volume::Volume;
use std::alloc::Global;

/// Formats the first of the boards with the image that an input spells, and gives the line that reports it.
pub(crate) fn format_first<S: Source, N: Nor>(
    alloc: Global,
    name: &[u8],
    used: u32,
    form: u8,
    input: &mut S,
    boards: &mut [N],
) -> Result<Vec<u8>, End>
    requires named { IsTrue (spells_name name.now) }
    requires few { used ≤ most_room }
    requires known_form { (form ≡ old_form) ⊎ (form ≡ new_form) }
    ensures done { FedBoards (text_outcome (λ text. text.items) result) (format_rule name.now used form)
        (input_of (S.Source, input.old)) (input_of (S.Source, input.new)) (map N.device boards.old) (map N.device boards.new) }
    ensures counts { S.faults input.old ≤ S.faults input.new }
{
    if boards.is_empty() {
        return Err(End::NoBoard { need: 1, have: 0 });
    }
    let golden = read_image(alloc, input)?;
    let nor = &mut boards[0];
    match Volume::format(nor, &golden, name, used, form) {
        Ok(()) => {}
        Err(fault) => return Err(end_of_format(fault, golden.len())),
    }
    let line = line_of(alloc, b"room", &[MOST_ROOM - used])?;
    Ok(line)
}
