//! What becomes of an order that is kept.
ghost use Rattle.std.specs.Prelude.{◌≡◌, ℕ, ◌==◌, ◌&&◌, Option};
ghost use Rattle.dg_slot.specs.Kept.{Held};
ghost use Rattle.dg_volume.specs.Store.{App, Store};
ghost use Rattle.dg_volume.specs.Told.{told, program_told};
ghost use Rattle.dg_volume.specs.Stands.{Tells};
ghost use Rattle.dg_volume.specs.Start.{is_whole, is_set_to};
ghost use Rattle.dg_inspect.specs.Starts.{is_overtaken, order_state};

use crate::seen::OrderState;
use dg_control::Program;
use dg_order::START_COMMITS;
use dg_volume::{Kept, Volume};

/// Whether program memory is set to this.
pub(crate) fn is_set_to(program: Program, image: u8, version: u32) -> bool
    ensures { (app : Option App) → program ≡ program_told app → result ≡ is_set_to app image version }
{
    match program {
        Program::Blank => false,
        Program::Set {
            image: set,
            version: set_version,
        } => set == image && set_version == version,
    }
}

/// Whether this version is kept whole.
pub(crate) fn is_whole(kept: &Option<Kept>, version: u32) -> bool
    ensures { (h : Option Held) → kept.now ≡ told h → result ≡ is_whole h version }
{
    match kept {
        None => false,
        Some(kept) => kept.version == version && kept.done == kept.pages,
    }
}

/// Whether a larger version is kept.
fn is_overtaken(kept: &Option<Kept>, version: u32) -> bool
    ensures { (h : Option Held) → kept.now ≡ told h → result ≡ is_overtaken h version }
{
    match kept {
        None => false,
        Some(kept) => version < kept.version,
    }
}

/// What becomes of the order.
pub(crate) fn order_state(volume: &Volume) -> OrderState
    ensures { (s : Store) → Tells volume.now s → result ≡ order_state s }
{
    let now = volume.snapshot();
    let order = now.order;
    if order.number == 0 {
        return OrderState::Absent;
    }
    if now.waived {
        return OrderState::Waived;
    }
    if is_set_to(now.program, order.image, order.version) {
        return OrderState::Started;
    }
    if volume.room() < START_COMMITS {
        return OrderState::Never;
    }
    let kept = volume.kept(order.image);
    if is_whole(&kept, order.version) {
        return OrderState::Waits;
    }
    if is_overtaken(&kept, order.version) {
        return OrderState::Never;
    }
    OrderState::Incomplete
}
