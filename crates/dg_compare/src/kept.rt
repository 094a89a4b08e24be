//! What two chips keep of an image.
ghost use Rattle.std.specs.Prelude.{◌≡◌, ◌↔◌, ℕ, ◌<◌, ◌==◌, ◌&&◌, nat_le, Option, IfSome, IsTrue};
ghost use Rattle.dg_slot.specs.Kept.{Held, KeepsImage};
ghost use Rattle.dg_volume.specs.Sizes.{images, most_take_commits};
ghost use Rattle.dg_volume.specs.Start.{complete_pages};
ghost use Rattle.dg_inspect.specs.Chip.{still_device};
ghost use Rattle.dg_inspect.specs.Pages.{ShowsKept};
ghost use Rattle.dg_compare.specs.Alike.{keeps_more, two_profiles, leads, KeepOneVersion, Shares};

use crate::pages::{compare_pages, is_equal};
use crate::results::{Ahead, SharedPages, Side};
use dg_inspect::{ImageSeen, StillChip};
use dg_object::MOST_PAGES;
use dg_slot::page_sector;
use dg_volume::TAKE_COMMITS;

/// Whether what is kept first is more.
fn keeps_more(one: &Option<ImageSeen>, other: &Option<ImageSeen>) -> bool
    ensures { (a b : Option Held) → ShowsKept a one.now → ShowsKept b other.now → result ≡ keeps_more a b }
{
    let Some(one) = one else {
        return false;
    };
    let Some(other) = other else {
        return 1 <= one.done;
    };
    1 <= one.done
        && (other.version < one.version || other.version == one.version && other.done < one.done)
}

/// Whether both keep one version, in two profiles.
fn has_two_profiles(one: &Option<ImageSeen>, other: &Option<ImageSeen>) -> bool
    ensures { (a b : Option Held) → ShowsKept a one.now → ShowsKept b other.now → result ≡ two_profiles a b }
{
    let Some(one) = one else {
        return false;
    };
    let Some(other) = other else {
        return false;
    };
    one.version == other.version && !(one.pages == other.pages && one.crc == other.crc)
}

/// Whether this many commits are enough to begin another version.
fn has_room(room: u32) -> bool
    ensures { result ≡ nat_le most_take_commits room }
{
    TAKE_COMMITS <= room
}

/// Which chip is ahead, of two that have this many commits left.
pub(crate) fn ahead(
    one: &Option<ImageSeen>,
    other: &Option<ImageSeen>,
    room: u32,
    other_room: u32,
) -> Option<Ahead>
    ensures { (a b : Option Held) → ShowsKept a one.now → ShowsKept b other.now
        → result ≡ leads a b room other_room }
{
    let other_profile = has_two_profiles(one, other);
    if keeps_more(one, other) {
        return Some(Ahead {
            side: Side::First,
            has_room: has_room(other_room),
            other_profile,
        });
    }
    if keeps_more(other, one) {
        return Some(Ahead {
            side: Side::Second,
            has_room: has_room(room),
            other_profile,
        });
    }
    None
}

/// The pages that both chips keep of one version.
pub(crate) fn shared_pages(
    one: &StillChip,
    other: &StillChip,
    image: u8,
    kept: &Option<ImageSeen>,
    other_kept: &Option<ImageSeen>,
) -> SharedPages
    requires { image < images }
    ensures { (a b : Option Held) → IfSome a (KeepsImage (still_device one.now).image image)
        → IfSome b (KeepsImage (still_device other.now).image image) → ShowsKept a kept.now → ShowsKept b other_kept.now
        → Shares (KeepOneVersion a b) (complete_pages a) (complete_pages b) result }
{
    let Some(kept) = kept else {
        return SharedPages::Nothing;
    };
    let Some(other_kept) = other_kept else {
        return SharedPages::Nothing;
    };
    if kept.version != other_kept.version {
        return SharedPages::Nothing;
    }
    let both = kept.done.min(other_kept.done);
    let count = both.min(MOST_PAGES);
    compare_pages(one, other, page_sector(image, 0), count)
}

/// Whether as many pages are kept of one profile.
fn is_one_state(one: &ImageSeen, other: &ImageSeen) -> bool
    ensures { result ≡ (((one.now.pages == other.now.pages) && (one.now.crc == other.now.crc))
        && (one.now.done == other.now.done)) }
{
    one.pages == other.pages && one.crc == other.crc && one.done == other.done
}

/// Whether both keep the same, where they share these pages.
pub(crate) fn is_kept_alike(
    one: &Option<ImageSeen>,
    other: &Option<ImageSeen>,
    shared: SharedPages,
) -> bool
    ensures { (a b : Option Held) → ShowsKept a one.now → ShowsKept b other.now
        → Shares (KeepOneVersion a b) (complete_pages a) (complete_pages b) shared → IsTrue result ↔ (a ≡ b) }
{
    let Some(one) = one else {
        return other.is_none();
    };
    let Some(other) = other else {
        return false;
    };
    is_equal(shared) && is_one_state(one, other)
}
