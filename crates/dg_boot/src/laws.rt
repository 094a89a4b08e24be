//! What holds of every start. These functions do nothing: their contracts are the laws.
ghost use Rattle.std.specs.Prelude.{◌≡◌, ◌⊎◌, ℕ, ◌+◌, ◌*◌, ◌<◌, ◌≤◌, true, Some, None, IfSome, IsSome};
ghost use Rattle.dg_nor.specs.Trail.{operations, Leaves};
ghost use Rattle.dg_volume.specs.Sizes.{golden_version, short_starts};
ghost use Rattle.dg_volume.specs.Store.{Store, IsNear};
ghost use Rattle.dg_volume.specs.Start.{app_of, boot, is_set_to, sound};
ghost use Rattle.dg_volume.specs.Ends.{IsGolden};
ghost use Rattle.dg_volume.specs.declared.volume.StartCause.{StartCause};
ghost use Rattle.dg_volume.specs.declared.volume.StartCause.TheVariants as causes;
ghost use Rattle.dg_slot.specs.Layout.{page_size};
ghost use Rattle.dg_boot.specs.Sizes.{copy_pieces, copy_piece_size};

use crate::{COPY_PIECE, COPY_PIECES, SIZE_OF_COPY_PIECE};

/// The constants of this crate equal the numbers in its definitions, and the pieces make a page.
pub fn a_copy_has_these_sizes()
    ensures piece { COPY_PIECE ≡ copy_piece_size }
    ensures pieces { COPY_PIECES ≡ copy_pieces }
    // the type of the array has this size
    ensures piece_array { SIZE_OF_COPY_PIECE ≡ copy_piece_size }
    ensures page { copy_pieces * copy_piece_size ≡ page_size }
{}

/// If three short starts are counted, only golden is started while there is room for a commit. A start by power can be the
/// third itself, if there is room to count it.
pub fn three_short_starts_start_golden()
    ensures stand { (cause : StartCause) (s : Store) → s.gesture ≡ short_starts → 1 ≤ s.room
        → IfSome (boot cause s).runs IsGolden }
    ensures third { (s : Store) → s.gesture + 1 ≡ short_starts → 2 ≤ s.room → IfSome (boot causes.Power s).runs IsGolden }
{}

/// A waived order is not started: golden runs, or what program memory was set to.
pub fn a_waived_order_is_not_started()
    ensures { (cause : StartCause) (s : Store) → s.waived ≡ true
        → IfSome (boot cause s).runs (λ r. IsGolden r ⊎ (s.app ≡ Some (app_of r))) }
{}

/// The last operation of a start sets program memory to what was copied, and no earlier one does. A stop in an earlier
/// operation leaves it blank, or unchanged.
pub fn an_image_is_set_once_it_is_copied()
    ensures { (cause : StartCause) (s t : Store) (k : ℕ) → k + 1 < operations (boot cause s).trail
        → Leaves IsNear (boot cause s).trail k t → (t.app ≡ s.app) ⊎ (t.app ≡ None) }
{}

/// A start finds an image if golden is sound, or if program memory is set to golden. So it finds no image only if neither
/// holds.
pub fn golden_can_be_started()
    ensures sound { (cause : StartCause) (s : Store) → sound s 0 ≡ true → IsSome (boot cause s).runs }
    ensures set { (cause : StartCause) (s : Store) → is_set_to s.app 0 golden_version ≡ true → IsSome (boot cause s).runs }
{}
