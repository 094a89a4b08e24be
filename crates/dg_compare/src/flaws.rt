//! What is not sound in a chip.
ghost use Rattle.std.specs.Prelude.{◌≡◌, ◌↔◌, ℕ, ◌<◌, List, length, drop, None, Option, IfSome, IsSomeAnd, IsTrue, MatchOption};
ghost use Rattle.std.specs.Prelude.{slice_index_or};
ghost use Rattle.dg_slot.specs.Kept.{Held, KeepsImage};
ghost use Rattle.dg_volume.specs.Sizes.{images};
ghost use Rattle.dg_volume.specs.Store.{App, Store, held};
ghost use Rattle.dg_volume.specs.Stands.{HoldsApp, Stands};
ghost use Rattle.dg_volume.specs.Consistent.{FitFirst, IsSoundSoFar};
ghost use Rattle.dg_chain.specs.Checking.{Answer, Fine, answer_of};
ghost use Rattle.dg_inspect.specs.Pages.{ShowsKept, ShowsPages};
ghost use Rattle.dg_inspect.specs.Seen.{ShowsProgram, ShowsStore};
ghost use Rattle.dg_compare.specs.Sound.{IsFirstUnfit, IsSoundProgram, IsSound, SoundTo, HasRoot, HasRoots, IsFirstFlaw};
ghost use Rattle.dg_compare.specs.declared.results.Rooted.{Rooted};

use crate::results::{Flaw, Rooted};
use dg_chain::DIGEST_SIZE;
use dg_control::IMAGES;
use dg_inspect::{ImageSeen, PagesSeen, ProgramSeen, VolumeSeen};

/// The first data page whose CRC is not the one that page 0 keeps of it.
fn unfit_page(pages: &PagesSeen) -> Option<u8>
    ensures { (ps : List (List ℕ)) → ShowsPages ps pages.now → MatchOption result (FitFirst ps) (IsFirstUnfit ps) }
{
    pages.unsound.first()
}

/// The first page of an image that is not sound.
fn image_flaw(seen: &Option<ImageSeen>) -> Option<u8>
    ensures { (c : List ℕ) (i : ℕ) (h : Option Held) → IfSome h (KeepsImage c i) → ShowsKept h seen.now
        → MatchOption result (IfSome h (IsSoundSoFar i)) (λ p. IsSomeAnd h (λ g. IsFirstUnfit g.complete p)) }
{
    let Some(seen) = seen else {
        return None;
    };
    match &seen.complete {
        None => None,
        Some(pages) => unfit_page(pages),
    }
}

/// The first page in program memory that is not sound.
fn program_flaw(seen: &Option<ProgramSeen>) -> Option<u8>
    ensures { (c : List ℕ) (o : Option App) → IfSome o (HoldsApp c) → ShowsProgram o seen.now
        → MatchOption result (IfSome o IsSoundProgram) (λ p. IsSomeAnd o (λ app. IsFirstUnfit app.pages p)) }
{
    match seen {
        None => None,
        Some(seen) => unfit_page(&seen.pages),
    }
}

/// The first page of the images that is not sound.
fn first_image_flaw(seen: &[Option<ImageSeen>]) -> Option<Flaw>
    requires { length seen.now ≡ images }
    ensures { (c : List ℕ) (s : Store) (r : Option Rooted) → Stands c s
        → ((i : ℕ) → i < images → ShowsKept (held s i) (slice_index_or seen.now i None))
        → MatchOption result (SoundTo s images) (IsFirstFlaw s r) }
{
    for image in 0..IMAGES {
        if let Some(page) = image_flaw(&seen[image]) {
            return Some(Flaw::Image {
                image: image as u8,
                page,
            });
        }
    }
    None
}

/// Whether an image is whole, and its pages are those that the root names.
fn is_chained(seen: &Option<ImageSeen>, root: &[u8; DIGEST_SIZE]) -> bool
    ensures { (h : Option Held) → ShowsKept h seen.now → IsTrue result
        ↔ IsSomeAnd h (λ g. (length g.complete ≡ g.pages) × ((n : ℕ) × (answer_of root.now (drop 1 g.complete) ≡ Fine n))) }
{
    let Some(seen) = seen else {
        return false;
    };
    match &seen.chain {
        None => false,
        Some(chain) => chain.root == *root,
    }
}

/// Whether the root names its image.
fn has_root(seen: &[Option<ImageSeen>], rooted: &Rooted) -> bool
    requires { length seen.now ≡ images }
    ensures { (c : List ℕ) (s : Store) → Stands c s
        → ((i : ℕ) → i < images → ShowsKept (held s i) (slice_index_or seen.now i None))
        → IsTrue result ↔ HasRoot s rooted.now }
{
    let image = usize::from(rooted.image);
    if image >= IMAGES {
        return false;
    }
    is_chained(&seen[image], &rooted.root)
}

/// The image that a root does not name, where there is a root.
fn root_flaw(seen: &[Option<ImageSeen>], rooted: &Option<Rooted>) -> Option<Flaw>
    requires { length seen.now ≡ images }
    ensures { (c : List ℕ) (s : Store) → Stands c s → IsSound s
        → ((i : ℕ) → i < images → ShowsKept (held s i) (slice_index_or seen.now i None))
        → MatchOption result (HasRoots s rooted.now) (IsFirstFlaw s rooted.now) }
{
    let Some(rooted) = rooted else {
        return None;
    };
    if has_root(seen, rooted) {
        return None;
    }
    Some(Flaw::Root {
        image: rooted.image,
    })
}

/// The first that is not sound of a volume.
pub(crate) fn find_flaw(volume: &VolumeSeen, rooted: &Option<Rooted>) -> Option<Flaw>
    requires { length volume.now.images.items ≡ images }
    ensures { (c : List ℕ) (s : Store) → Stands c s → ShowsStore s volume.now
        → MatchOption result (IsSound s × HasRoots s rooted.now) (IsFirstFlaw s rooted.now) }
{
    if let Some(flaw) = first_image_flaw(&volume.images) {
        return Some(flaw);
    }
    if let Some(page) = program_flaw(&volume.program) {
        return Some(Flaw::Program { page });
    }
    root_flaw(&volume.images, rooted)
}
