//! The verb `inject`.
ghost use Rattle.std.specs.Prelude.{◌≤◌, ◌<◌, map, IsTrue};
ghost use Rattle.dg_base.specs.Texts.{spells_name};
ghost use Rattle.dg_object.specs.Object.{row_of};
ghost use Rattle.dg_volume.specs.Sizes.{images};
ghost use Rattle.dg_outside.specs.Outside.{input_of};
ghost use Rattle.dg_end.specs.Lines.{text_outcome};
ghost use Rattle.dg_tool.specs.Done.{FedBoards};
ghost use Rattle.dg_tool.specs.Rules.{inject_rule};

use crate::input::read_image;
use dg_base::Source;
use dg_end::{End, end_of_injection, line_of};
use dg_nor::Nor;
use dg_volume::Volume;
use std::alloc::Global;

/// Injects the image that an input spells into the first of the boards, and gives the line that reports it.
pub(crate) fn inject_first<S: Source, N: Nor>(
    alloc: Global,
    image: u8,
    version: u32,
    name: &[u8],
    input: &mut S,
    boards: &mut [N],
) -> Result<Vec<u8>, End>
    requires image { image < images }
    requires version { 1 ≤ version }
    requires named { IsTrue (spells_name name.now) }
    ensures done { FedBoards (text_outcome (λ text. text.items) result)
        (inject_rule (map N.device boards.old) (row_of image version name.now)) (input_of (S.Source, input.old))
        (input_of (S.Source, input.new)) (map N.device boards.old) (map N.device boards.new) }
    ensures counts { S.faults input.old ≤ S.faults input.new }
{
    if boards.is_empty() {
        return Err(End::NoBoard { need: 1, have: 0 });
    }
    let bytes = read_image(alloc, input)?;
    let nor = &mut boards[0];
    let mut volume = Volume::mount(nor)?;
    let injected = match volume.inject(nor, image, version, name, &bytes) {
        Ok(injected) => injected,
        Err(fault) => return Err(end_of_injection(fault, bytes.len())),
    };
    let number = u32::from(image);
    let pages = u32::from(injected.pages);
    let line = line_of(alloc, b"have", &[0, number, version, pages])?;
    Ok(line)
}
