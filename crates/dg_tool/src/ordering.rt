//! The verb `order`.
ghost use Rattle.std.specs.Prelude.{◌≤◌, ◌<◌, map};
ghost use Rattle.dg_volume.specs.Sizes.{images};
ghost use Rattle.dg_volume.specs.Changes.{order_refusal};
ghost use Rattle.dg_volume.specs.Trails.{order_trail};
ghost use Rattle.dg_end.specs.Lines.{text_outcome};
ghost use Rattle.dg_tool.specs.Verbs.{order_by};
ghost use Rattle.dg_tool.specs.Done.{OnBoards};
ghost use Rattle.dg_tool.specs.Rules.{trail_rule};

use dg_end::{End, line_of};
use dg_nor::Nor;
use dg_volume::{Order, Volume};
use std::alloc::Global;

/// Keeps an order on the first of the boards, and gives the line that reports it.
pub(crate) fn order_first<N: Nor>(
    alloc: Global,
    order: &Order,
    boards: &mut [N],
) -> Result<Vec<u8>, End>
    requires number { 1 ≤ order.now.number }
    requires image { order.now.image < images }
    requires version { 1 ≤ order.now.version }
    ensures { OnBoards (text_outcome (λ text. text.items) result)
        (trail_rule (map N.device boards.old) (λ s. order_by order.now (order_refusal s order.now))
        (λ s. order_trail s order.now)) ⊥
        (map N.device boards.old) (map N.device boards.new) }
{
    if boards.is_empty() {
        return Err(End::NoBoard { need: 1, have: 0 });
    }
    let nor = &mut boards[0];
    let mut volume = Volume::mount(nor)?;
    volume.order(nor, order.number, order.image, order.version)?;
    let image = u32::from(order.image);
    let line = line_of(alloc, b"order", &[0, order.number, image, order.version])?;
    Ok(line)
}
