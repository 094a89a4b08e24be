//! What the choice of a start depends on, without a read of the chip.
ghost use Rattle.std.specs.Prelude.{◌≡◌, ℕ, ◌<◌, ◌==◌, ◌&&◌, ◌||◌, nat_lt, not, is_some, Option};
ghost use Rattle.dg_order.specs.Pending.{is_some_version};
ghost use Rattle.dg_slot.specs.Kept.{Held};
ghost use Rattle.dg_volume.specs.Sizes.{golden_version, short_starts};
ghost use Rattle.dg_volume.specs.Store.{App, Store};
ghost use Rattle.dg_volume.specs.Told.{told, program_told};
ghost use Rattle.dg_volume.specs.Stands.{Tells};
ghost use Rattle.dg_volume.specs.Start.{is_whole, is_set_to, counts, by_gesture, order_waits};
ghost use Rattle.dg_boot.specs.Ends.{finishes};

pub(crate) use dg_control::GOLDEN;
use dg_control::{GOLDEN_VERSION, Program, SHORT_STARTS};
use dg_order::pending;
use dg_volume::{Kept, StartCause, Volume};

/// Whether a start by this cause counts as a short one: it came by power, fewer than three are counted, and there is room.
pub(crate) fn counts(cause: StartCause, gesture: u8, room: u32) -> bool
    ensures { (s : Store) → gesture ≡ s.gesture → room ≡ s.room → result ≡ counts cause s }
{
    match cause {
        StartCause::Power => gesture < SHORT_STARTS && room > 0,
        StartCause::Order => false,
    }
}

/// Whether three short starts are counted.
pub(crate) fn has_three(volume: &Volume) -> bool
    ensures { (s : Store) → Tells volume.now s → result ≡ (s.gesture == short_starts) }
{
    volume.snapshot().gesture == SHORT_STARTS
}

/// Whether short starts choose golden: three are counted, and there is room or golden needs no room.
pub(crate) fn chooses_golden(volume: &Volume) -> bool
    ensures { (s : Store) → Tells volume.now s → result ≡ by_gesture s }
{
    has_three(volume) && (volume.room() > 0 || is_blank_or_golden(volume.snapshot().program))
}

/// Whether an order waits to be started: it is not waived, its image is kept whole in its version, program memory is not
/// set to it, and there is room for its two commits.
pub fn order_waits(volume: &Volume) -> bool
    ensures { (s : Store) → Tells volume.now s → result ≡ order_waits s }
{
    let now = volume.snapshot();
    if now.order.number == 0 {
        return false;
    }
    let whole = whole_version(&volume.kept(now.order.image));
    pending(&now, whole, volume.room())
}

/// Whether a golden start makes its last commit.
pub(crate) fn finishes(volume: &Volume, three: bool) -> bool
    ensures { (s : Store) → Tells volume.now s → result ≡ finishes s three }
{
    volume.room() > 0 && (three || !is_golden(volume.snapshot().program))
}

/// Whether program memory is set to golden.
pub(crate) fn is_golden(program: Program) -> bool
    ensures { (app : Option App) → program ≡ program_told app → result ≡ is_set_to app 0 golden_version }
{
    match program {
        Program::Blank => false,
        Program::Set { image, version } => image == GOLDEN && version == GOLDEN_VERSION,
    }
}

/// Whether program memory is blank, or set to golden.
fn is_blank_or_golden(program: Program) -> bool
    ensures { (app : Option App) → program ≡ program_told app → result ≡ (not (is_some app) || is_set_to app 0 golden_version) }
{
    match program {
        Program::Blank => true,
        Program::Set { image, version } => image == GOLDEN && version == GOLDEN_VERSION,
    }
}

/// The version that is kept whole, if any.
fn whole_version(kept: &Option<Kept>) -> Option<u32>
    ensures { (h : Option Held) (version : ℕ) → kept.now ≡ told h → is_some_version result version ≡ is_whole h version }
{
    match kept {
        None => None,
        Some(kept) => (kept.done == kept.pages).then_some(kept.version),
    }
}
