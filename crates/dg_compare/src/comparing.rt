//! Two chips beside each other.
ghost use Rattle.std.specs.Prelude.{◌≡◌, ◌↔◌, ◌&&◌, ℕ, ◌<◌, length, slice_index_or, IfOk, IsTrue};
ghost use Rattle.std.specs.List.{All};
ghost use Rattle.dg_volume.specs.Sizes.{images};
ghost use Rattle.dg_volume.specs.Store.{Store};
ghost use Rattle.dg_volume.specs.Stands.{Stands};
ghost use Rattle.dg_inspect.specs.Chip.{still_device};
ghost use Rattle.dg_inspect.specs.Seen.{ShowsStore};
ghost use Rattle.dg_compare.specs.Alike.{ComparesImage, Compares, ComparesFiles};
ghost use Rattle.dg_compare.specs.declared.results.ImageCompared.{ImageCompared};

use crate::kept::{ahead, is_kept_alike, shared_pages};
use crate::opening::open;
use crate::orders::compare_orders;
use crate::programs::compare_programs;
use crate::results::{Compared, Comparison, ImageCompared, Side};
use dg_control::IMAGES;
use dg_inspect::{LookFault, StillChip, VolumeSeen};
use std::alloc::{AllocError, Global};

/// How two chips compare in an image.
fn compare_image(
    one: &StillChip,
    seen: &VolumeSeen,
    other: &StillChip,
    other_seen: &VolumeSeen,
    image: u8,
) -> ImageCompared
    requires known_image { image < images }
    requires count { length seen.now.images.items ≡ images }
    requires other_count { length other_seen.now.images.items ≡ images }
    ensures { (s t : Store) → Stands (still_device one.now).image s → Stands (still_device other.now).image t
        → ShowsStore s seen.now → ShowsStore t other_seen.now → ComparesImage s t image result }
{
    let kept = &seen.images[usize::from(image)];
    let other_kept = &other_seen.images[usize::from(image)];
    let shared = shared_pages(one, other, image, kept, other_kept);
    ImageCompared {
        ahead: ahead(kept, other_kept, seen.room, other_seen.room),
        shared,
        alike: is_kept_alike(kept, other_kept, shared),
    }
}

/// How two chips compare in each image.
fn compare_images(
    alloc: Global,
    one: &StillChip,
    seen: &VolumeSeen,
    other: &StillChip,
    other_seen: &VolumeSeen,
) -> Result<Vec<ImageCompared>, AllocError>
    requires count { length seen.now.images.items ≡ images }
    requires other_count { length other_seen.now.images.items ≡ images }
    ensures count { IfOk result (λ found. length found.items ≡ images) }
    ensures compares { IfOk result (λ found. (s t : Store) → Stands (still_device one.now).image s
        → Stands (still_device other.now).image t → ShowsStore s seen.now → ShowsStore t other_seen.now
        → (i : ℕ) (d : ImageCompared) → i < images → ComparesImage s t i (slice_index_or found.items i d)) }
{
    let mut found = Vec::new(alloc);
    for image in 0..IMAGES as u8 {
        found.push(compare_image(one, seen, other, other_seen, image))?;
    }
    Ok(found)
}

/// Whether all images are alike.
fn are_alike(found: &[ImageCompared]) -> bool
    ensures { IsTrue result ↔ All (λ x. IsTrue x.alike) found.now }
{
    found.iter().all(|image| image.alike)
}

/// Whether all three are so.
fn all_three(images: bool, program: bool, order: bool) -> bool
    ensures { result ≡ ((images && program) && order) }
{
    images && program && order
}

/// How two volumes compare.
fn compare_volumes(
    alloc: Global,
    one: &StillChip,
    seen: &VolumeSeen,
    other: &StillChip,
    other_seen: &VolumeSeen,
) -> Result<Comparison, AllocError>
    requires count { length seen.now.images.items ≡ images }
    requires other_count { length other_seen.now.images.items ≡ images }
    ensures compares { IfOk result (λ found. (s t : Store) → Stands (still_device one.now).image s
        → Stands (still_device other.now).image t → ShowsStore s seen.now → ShowsStore t other_seen.now
        → Compares s t found) }
{
    let images = compare_images(alloc, one, seen, other, other_seen)?;
    let program = compare_programs(one, other, &seen.program, &other_seen.program);
    let order = compare_orders(seen, other_seen);
    let images_alike = are_alike(&images);
    let alike = all_three(images_alike, program.alike, order.alike);
    Ok(Comparison {
        images,
        program,
        order,
        alike,
    })
}

/// How the chips in two files compare. For each image this is which of them is ahead, as completion counts, and whether the pages
/// that both keep of one version are equal, byte for byte. Program memory and the order are compared likewise.
pub fn compare(alloc: Global, first: &[u8], second: &[u8]) -> Result<Compared, LookFault>
    ensures compares { IfOk result (ComparesFiles first.now second.now) }
{
    let Some(one) = open(alloc, first)? else {
        return Ok(Compared::NoVolume(Side::First));
    };
    let Some(other) = open(alloc, second)? else {
        return Ok(Compared::NoVolume(Side::Second));
    };
    let found = compare_volumes(alloc, &one.chip, &one.volume, &other.chip, &other.volume)?;
    Ok(Compared::Volumes(found))
}
