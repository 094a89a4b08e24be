//! The verb `check`.
ghost use Rattle.std.specs.Prelude.{◌≡◌, ◌<◌, Some, map};
ghost use Rattle.dg_slot.specs.Kept.{Held, KeepsImage};
ghost use Rattle.dg_nor.specs.Reads.{Looked, ReadStopped};
ghost use Rattle.dg_volume.specs.Sizes.{images};
ghost use Rattle.dg_volume.specs.Store.{Store, held};
ghost use Rattle.dg_volume.specs.Stands.{Mounted, IsMounted};
ghost use Rattle.dg_volume.specs.Told.{told_held};
ghost use Rattle.dg_end.specs.Lines.{text_outcome};
ghost use Rattle.dg_tool.specs.Done.{OnBoards};
ghost use Rattle.dg_tool.specs.inner.OneBoard.{OnStore};
ghost use Rattle.dg_tool.specs.Rules.{reading_rule};
ghost use Rattle.dg_chain_tool.specs.Verbs.{check_by};

use dg_chain::{DIGEST_SIZE, check};
use dg_end::{End, Refusal, line_of};
use dg_nor::Nor;
use dg_volume::{Kept, Volume};
use std::alloc::Global;

/// Checks an image of which this is kept.
fn check_kept<N: Nor>(
    alloc: Global,
    image: u8,
    root: &[u8; DIGEST_SIZE],
    nor: &mut N,
    kept: &Kept,
) -> Result<Vec<u8>, End>
    requires known_image { image < images }
    requires keeps { (h : Held) × KeepsImage (N.device nor.old).image image h × (kept.now ≡ told_held h) }
    ensures done { (h : Held) → KeepsImage (N.device nor.old).image image h → kept.now ≡ told_held h
        → OnStore (text_outcome (λ text. text.items) result) (check_by root.now (Some h)) Looked ReadStopped (N.device nor.old)
        (N.device nor.new) }
    ensures unchanged { (N.device nor.new).image ≡ (N.device nor.old).image }
{
    let Kept { done, pages, .. } = *kept;
    if done != pages {
        return Err(End::Refused(Refusal::NotWhole { done, pages }));
    }
    let length = check(nor, image, root)?;
    let line = line_of(alloc, b"chain", &[length])?;
    Ok(line)
}

/// Checks an image on a board that is mounted.
fn check_mounted<N: Nor>(
    alloc: Global,
    image: u8,
    root: &[u8; DIGEST_SIZE],
    nor: &mut N,
    volume: &Volume,
) -> Result<Vec<u8>, End>
    requires known_image { image < images }
    requires mounted { IsMounted (N.device nor.old).image volume.now }
    ensures done { (s : Store) → Mounted (N.device nor.old).image volume.now s
        → OnStore (text_outcome (λ text. text.items) result) (check_by root.now (held s image)) Looked ReadStopped
        (N.device nor.old) (N.device nor.new) }
    ensures unchanged { (N.device nor.new).image ≡ (N.device nor.old).image }
{
    match volume.kept(image) {
        None => Err(End::Refused(Refusal::Absent)),
        Some(kept) => check_kept(alloc, image, root, nor, &kept),
    }
}

/// Checks an image on the first of the boards, and gives the line that reports it.
pub(crate) fn check_first<N: Nor>(
    alloc: Global,
    image: u8,
    root: &[u8; DIGEST_SIZE],
    boards: &mut [N],
) -> Result<Vec<u8>, End>
    requires known_image { image < images }
    ensures done { OnBoards (text_outcome (λ text. text.items) result)
        (reading_rule (map N.device boards.old) (λ s. check_by root.now (held s image))) ⊥ (map N.device boards.old)
        (map N.device boards.new) }
    ensures unchanged { map (λ board. (N.device board).image) boards.new ≡ map (λ board. (N.device board).image) boards.old }
{
    if boards.is_empty() {
        return Err(End::NoBoard { need: 1, have: 0 });
    }
    let nor = &mut boards[0];
    let volume = Volume::mount(nor)?;
    check_mounted(alloc, image, root, nor, &volume)
}
