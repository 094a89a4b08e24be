//! The versions and the order number that may be used next.
ghost use Rattle.std.specs.Prelude.{◌≡◌, ℕ, ◌<◌, ◌≤◌, length, None, Option, slice_index_or};
ghost use Rattle.dg_slot.specs.Kept.{Held};
ghost use Rattle.dg_volume.specs.Sizes.{images};
ghost use Rattle.dg_volume.specs.Store.{Store, held};
ghost use Rattle.dg_inspect.specs.Pages.{ShowsKept};
ghost use Rattle.dg_inspect.specs.Seen.{ShowsStore};
ghost use Rattle.dg_inspect.specs.Numbers.{above, version_above, next_version, next_number};

use crate::seen::{ImageSeen, NextNumbers, VolumeSeen};
use dg_control::IMAGES;
use dg_volume::TAKE_COMMITS;

/// The number above this one, where there is one.
fn above(number: u32) -> Option<u32>
    ensures { result ≡ above number }
{
    number.checked_add(1)
}

/// The least version above the one that is kept.
fn version_above(seen: &Option<ImageSeen>) -> Option<u32>
    ensures { (h : Option Held) → ShowsKept h seen.now → result ≡ version_above h }
{
    match seen {
        None => Some(1),
        Some(image) => above(image.version),
    }
}

/// The least version of an image that may be injected next, where this many commits are left.
fn next_version(room: u32, seen: &Option<ImageSeen>) -> Option<u32>
    ensures { (h : Option Held) → ShowsKept h seen.now → result ≡ next_version room h }
{
    if room < TAKE_COMMITS {
        None
    } else {
        version_above(seen)
    }
}

/// The least version of an image that may be injected next, where each shows this.
fn next_version_at(seen: &[Option<ImageSeen>], room: u32, image: usize) -> Option<u32>
    requires { image < length seen.now }
    ensures { (h : Option Held) → ShowsKept h (slice_index_or seen.now image None) → result ≡ next_version room h }
{
    next_version(room, &seen[image])
}

/// The order number that may be used next, where this many commits are left.
fn next_number(room: u32, kept: u32) -> Option<u32>
    ensures { result ≡ next_number room kept }
{
    if room == 0 { None } else { above(kept) }
}

/// The numbers that may be used next on a volume. For each image this is the least version above the kept one, if there is room
/// for a take. For the order it is the least number above the kept one, if a commit is left. Image 0 is golden, and has none.
pub fn next_numbers(volume: &VolumeSeen) -> NextNumbers
    requires { length volume.now.images.items ≡ images }
    ensures versions { (s : Store) → ShowsStore s volume.now → (i : ℕ) → 1 ≤ i → i < images
        → slice_index_or result.versions i None ≡ next_version s.room (held s i) }
    ensures golden { slice_index_or result.versions 0 None ≡ None }
    ensures number { (s : Store) → ShowsStore s volume.now → result.number ≡ next_number s.room s.order.number }
{
    let mut versions = [None; IMAGES];
    for image in 1..IMAGES {
        versions[image] = next_version_at(&volume.images, volume.room, image);
    }
    NextNumbers {
        versions,
        number: next_number(volume.room, volume.order.number),
    }
}
