//! The program memories of two chips.
ghost use Rattle.std.specs.Prelude.{◌≡◌, ◌↔◌, ℕ, List, Option, IfSome, IsTrue};
ghost use Rattle.dg_volume.specs.Store.{App, Store};
ghost use Rattle.dg_volume.specs.Stands.{HoldsApp};
ghost use Rattle.dg_inspect.specs.Chip.{still_device};
ghost use Rattle.dg_inspect.specs.Seen.{ShowsProgram};
ghost use Rattle.dg_compare.specs.Alike.{app_pages, SetToOne, Shares, ComparesProgram};

use crate::pages::{compare_pages, is_equal};
use crate::results::{ProgramCompared, SharedPages};
use dg_inspect::{ImageVersion, ProgramSeen, StillChip};
use dg_slot::PROGRAM_SECTOR;

/// Whether both are one version of one image.
fn is_one_version(one: ImageVersion, other: ImageVersion) -> bool
    ensures { IsTrue result ↔ ((one.image ≡ other.image) × (one.version ≡ other.version)) }
{
    one.image == other.image && one.version == other.version
}

/// The pages that both chips have in program memory, where they are set to one version.
fn shared_pages(
    one: &StillChip,
    other: &StillChip,
    set: &Option<ProgramSeen>,
    other_set: &Option<ProgramSeen>,
) -> SharedPages
    ensures { (a b : Option App) → IfSome a (HoldsApp (still_device one.now).image)
        → IfSome b (HoldsApp (still_device other.now).image) → ShowsProgram a set.now → ShowsProgram b other_set.now
        → Shares (SetToOne a b) (app_pages a) (app_pages b) result }
{
    let Some(set) = set else {
        return SharedPages::Nothing;
    };
    let Some(other_set) = other_set else {
        return SharedPages::Nothing;
    };
    let one_version = is_one_version(set.set, other_set.set);
    if !one_version {
        return SharedPages::Nothing;
    }
    let count = set.pages.descriptor.pages;
    let other_count = other_set.pages.descriptor.pages;
    let both = count.min(other_count);
    compare_pages(one, other, PROGRAM_SECTOR, both)
}

/// Whether both are blank, or set to the same, where they share these pages.
fn is_set_alike(one: &Option<ProgramSeen>, other: &Option<ProgramSeen>, shared: SharedPages) -> bool
    ensures { (c d : List ℕ) (a b : Option App) → IfSome a (HoldsApp c) → IfSome b (HoldsApp d)
        → ShowsProgram a one.now → ShowsProgram b other.now
        → Shares (SetToOne a b) (app_pages a) (app_pages b) shared → IsTrue result ↔ (a ≡ b) }
{
    let Some(one) = one else {
        return other.is_none();
    };
    let Some(other) = other else {
        return false;
    };
    is_equal(shared) && one.pages.descriptor.pages == other.pages.descriptor.pages
}

/// How the program memories of two chips compare.
pub(crate) fn compare_programs(
    one: &StillChip,
    other: &StillChip,
    set: &Option<ProgramSeen>,
    other_set: &Option<ProgramSeen>,
) -> ProgramCompared
    ensures { (s t : Store) → IfSome s.app (HoldsApp (still_device one.now).image)
        → IfSome t.app (HoldsApp (still_device other.now).image)
        → ShowsProgram s.app set.now → ShowsProgram t.app other_set.now → ComparesProgram s t result }
{
    let shared = shared_pages(one, other, set, other_set);
    ProgramCompared {
        shared,
        alike: is_set_alike(set, other_set, shared),
    }
}
