//! The verb `dump`.
ghost use Rattle.std.specs.Prelude.{◌≡◌, ◌<◌, map, length, Some};
ghost use Rattle.dg_slot.specs.Kept.{Held, KeepsImage};
ghost use Rattle.dg_nor.specs.Reads.{Looked, ReadStopped};
ghost use Rattle.dg_volume.specs.Sizes.{images};
ghost use Rattle.dg_volume.specs.Store.{Store, held};
ghost use Rattle.dg_volume.specs.Stands.{Mounted, IsMounted};
ghost use Rattle.dg_volume.specs.Told.{told_held};
ghost use Rattle.dg_end.specs.Lines.{text_outcome};
ghost use Rattle.dg_tool.specs.Verbs.{dump_by};
ghost use Rattle.dg_tool.specs.Done.{OnBoards};
ghost use Rattle.dg_tool.specs.inner.OneBoard.{OnStore};
ghost use Rattle.dg_tool.specs.Rules.{reading_rule};

use crate::pages::read_bytes;
use dg_end::{End, Refusal};
use dg_ihex::write_ihex;
use dg_nor::Nor;
use dg_volume::{Kept, Volume};
use std::alloc::Global;

/// The HEX file of an image of which this is kept.
fn dump_kept<N: Nor>(alloc: Global, image: u8, nor: &mut N, kept: &Kept) -> Result<Vec<u8>, End>
    requires known_image { image < images }
    requires keeps { (h : Held) × KeepsImage (N.device nor.old).image image h × (kept.now ≡ told_held h) }
    ensures done { (h : Held) → KeepsImage (N.device nor.old).image image h → kept.now ≡ told_held h
        → OnStore (text_outcome (λ text. text.items) result) (dump_by (Some h)) Looked ReadStopped (N.device nor.old)
        (N.device nor.new) }
    ensures unchanged { (N.device nor.new).image ≡ (N.device nor.old).image }
{
    let Kept { done, pages, .. } = *kept;
    if done != pages {
        return Err(End::Refused(Refusal::NotWhole { done, pages }));
    }
    let bytes = read_bytes(alloc, nor, image, pages)?;
    let file = write_ihex(alloc, &bytes)?;
    Ok(file)
}

/// The HEX file of an image on a board that is mounted.
fn dump_mounted<N: Nor>(
    alloc: Global,
    image: u8,
    nor: &mut N,
    volume: &Volume,
) -> Result<Vec<u8>, End>
    requires known_image { image < images }
    requires mounted { IsMounted (N.device nor.old).image volume.now }
    ensures done { (s : Store) → Mounted (N.device nor.old).image volume.now s
        → OnStore (text_outcome (λ text. text.items) result) (dump_by (held s image)) Looked ReadStopped (N.device nor.old)
        (N.device nor.new) }
    ensures unchanged { (N.device nor.new).image ≡ (N.device nor.old).image }
{
    match volume.kept(image) {
        None => Err(End::Refused(Refusal::Absent)),
        Some(kept) => dump_kept(alloc, image, nor, &kept),
    }
}

/// The HEX file of an image on the first of the boards.
pub(crate) fn dump_first<N: Nor>(alloc: Global, image: u8, boards: &mut [N]) -> Result<Vec<u8>, End>
    requires known_image { image < images }
    ensures done { OnBoards (text_outcome (λ text. text.items) result)
        (reading_rule (map N.device boards.old) (λ s. dump_by (held s image))) ⊥
        (map N.device boards.old) (map N.device boards.new) }
    ensures unchanged { map (λ board. (N.device board).image) boards.new ≡ map (λ board. (N.device board).image) boards.old }
{
    if boards.is_empty() {
        return Err(End::NoBoard { need: 1, have: 0 });
    }
    let nor = &mut boards[0];
    let volume = Volume::mount(nor)?;
    dump_mounted(alloc, image, nor, &volume)
}
