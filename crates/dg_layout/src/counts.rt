//! The largest count of pages that is reported of each version of an image.
ghost use Rattle.std.specs.Prelude.{◌≡◌, ◌==◌, ◌&&◌, ℕ, max, unwrap_or, if◌then◌else◌, IfOk, OnOk};
ghost use Rattle.dg_layout.specs.Counts.{held, counted_of};
ghost use Rattle.dg_story.specs.Reports.{counted, largest};

use dg_script::Report;
use dg_story::{Pages, Told};
use std::alloc::{AllocError, Global};
use std::collections::BTreeMap;

// The pages that a line reports of an image.
fn counted(image: u8, report: &Report) -> Option<Pages>
    ensures { (version : ℕ) → counted_of version result ≡ counted image version report.now }
{
    match *report {
        Report::Have {
            image: of,
            version,
            pages,
            ..
        } => of_image(image, of, version, pages),
        Report::Kept {
            image: of,
            version,
            pages,
            ..
        } => of_image(image, of, version, pages),
        _ => None,
    }
}

fn of_image(image: u8, of: u8, version: u32, count: u8) -> Option<Pages>
    ensures { (v : ℕ) → counted_of v result ≡ (if of == image && version == v then count else 0) }
{
    if of != image {
        return None;
    }
    Some(Pages { version, count })
}

/// The largest count of a version.
pub fn largest_of(counts: &BTreeMap<u32, u8>, version: u32) -> u8
    ensures { result ≡ held counts.now version }
{
    counts.get(&version).copied().unwrap_or(0)
}

// Keeps a count where it is larger than the one of its version.
fn raise(counts: &mut BTreeMap<u32, u8>, pages: Pages) -> Result<(), AllocError>
    ensures { OnOk result ((version : ℕ) → held counts.new version
        ≡ max (held counts.old version) (if pages.version == version then pages.count else 0)) }
{
    if pages.count <= largest_of(counts, pages.version) {
        return Ok(());
    }
    counts.insert(pages.version, pages.count)?;
    Ok(())
}

// Keeps what a line reports of an image.
fn keep(counts: &mut BTreeMap<u32, u8>, image: u8, report: &Report) -> Result<(), AllocError>
    ensures { OnOk result ((version : ℕ) → held counts.new version
        ≡ max (held counts.old version) (counted image version report.now)) }
{
    match counted(image, report) {
        None => Ok(()),
        Some(pages) => raise(counts, pages),
    }
}

/// The largest count of each version of an image.
pub fn largest(alloc: Global, image: u8, told: &[Told]) -> Result<BTreeMap<u32, u8>, AllocError>
    ensures { IfOk result (λ counts. (version : ℕ) → held counts version ≡ largest image version told.now) }
{
    let mut counts = BTreeMap::new(alloc);
    for here in told {
        keep(&mut counts, image, &here.report)?;
    }
    Ok(counts)
}
