//! What slots keep of their images.
ghost use Rattle.std.specs.Prelude.{◌≡◌, ℕ, ◌<◌, ◌==◌, if◌then◌else◌, length, drop, Option, None, Some, IfOk, OnOk};
ghost use Rattle.dg_nor.specs.Reads.{ReadEnds};
ghost use Rattle.dg_slot.specs.Kept.{Held, KeepsImage};
ghost use Rattle.dg_volume.specs.Sizes.{images};
ghost use Rattle.dg_volume.specs.Store.{Store, held};
ghost use Rattle.dg_volume.specs.Stands.{Mounted, IsMounted};
ghost use Rattle.dg_volume.specs.Told.{told_held};
ghost use Rattle.dg_chain.specs.Answers.{IsKeptWhole};
ghost use Rattle.dg_inspect.specs.Pages.{chain_in, ShowsHeld, ShowsKept, ShowsComplete};

use crate::pages::see_pages;
use crate::seen::{ChainSeen, ImageSeen, PagesSeen};
use dg_chain::{ChainFault, check};
use dg_nor::{Nor, Stopped, read_in};
use dg_object::PAGE_SIZE;
use dg_slot::page_sector;
use dg_volume::{Kept, Volume};
use sha2::{Digest, Sha256};

/// The hash chain of an image that is kept whole.
fn see_chain<N: Nor>(nor: &mut N, image: u8) -> Result<Option<ChainSeen>, Stopped>
    requires known_image { image < images }
    requires whole { IsKeptWhole (N.device nor.old).image image }
    ensures chain { IfOk result (λ seen. (h : Held) → KeepsImage (N.device nor.old).image image h
        → length h.complete ≡ h.pages → seen ≡ chain_in (drop 1 h.complete)) }
    ensures ends { ReadEnds result (N.device nor.old) (N.device nor.new) }
{
    let mut page = [0; PAGE_SIZE];
    read_in(nor, page_sector(image, 1), 0, &mut page)?;
    let root = Sha256::digest(page.as_slice());
    match check(nor, image, &root) {
        Ok(length) => Ok(Some(ChainSeen { root, length })),
        Err(ChainFault::Stopped) => Err(Stopped),
        Err(ChainFault::Broken { .. }) => Ok(None),
        Err(ChainFault::Shape) => Ok(None),
    }
}

/// The hash chain of an image of which this is kept, where it is whole.
fn see_chain_if_whole<N: Nor>(
    nor: &mut N,
    image: u8,
    kept: &Kept,
) -> Result<Option<ChainSeen>, Stopped>
    requires known_image { image < images }
    requires keeps { (h : Held) × KeepsImage (N.device nor.old).image image h × (kept.now ≡ told_held h) }
    ensures chain { IfOk result (λ seen. (h : Held) → KeepsImage (N.device nor.old).image image h → kept.now ≡ told_held h
        → seen ≡ (if length h.complete == h.pages then chain_in (drop 1 h.complete) else None)) }
    ensures ends { ReadEnds result (N.device nor.old) (N.device nor.new) }
{
    if kept.done != kept.pages {
        return Ok(None);
    }
    see_chain(nor, image)
}

/// The complete pages of an image of which this is kept.
fn see_complete<N: Nor>(nor: &mut N, image: u8, kept: &Kept) -> Result<Option<PagesSeen>, Stopped>
    requires known_image { image < images }
    requires keeps { (h : Held) × KeepsImage (N.device nor.old).image image h × (kept.now ≡ told_held h) }
    ensures complete { IfOk result (λ seen. (h : Held) → KeepsImage (N.device nor.old).image image h → kept.now ≡ told_held h
        → ShowsComplete h.complete seen) }
    ensures ends { ReadEnds result (N.device nor.old) (N.device nor.new) }
{
    if kept.done == 0 {
        return Ok(None);
    }
    see_pages(nor, page_sector(image, 0), kept.done)
}

/// What an image of which this is kept shows.
fn see_kept<N: Nor>(nor: &mut N, image: u8, kept: &Kept) -> Result<ImageSeen, Stopped>
    requires known_image { image < images }
    requires keeps { (h : Held) × KeepsImage (N.device nor.old).image image h × (kept.now ≡ told_held h) }
    ensures shows { IfOk result (λ seen. (h : Held) → KeepsImage (N.device nor.old).image image h → kept.now ≡ told_held h
        → ShowsHeld h seen) }
    ensures ends { ReadEnds result (N.device nor.old) (N.device nor.new) }
{
    let complete = see_complete(nor, image, kept)?;
    let chain = see_chain_if_whole(nor, image, kept)?;
    Ok(ImageSeen {
        version: kept.version,
        pages: kept.pages,
        done: kept.done,
        crc: kept.crc,
        complete,
        chain,
    })
}

/// What an image shows.
pub(crate) fn see_image<N: Nor>(
    nor: &mut N,
    volume: &Volume,
    image: u8,
) -> Result<Option<ImageSeen>, Stopped>
    requires known_image { image < images }
    requires mounted { IsMounted (N.device nor.old).image volume.now }
    ensures shows { IfOk result (λ seen. (s : Store) → Mounted (N.device nor.old).image volume.now s
        → ShowsKept (held s image) seen) }
    ensures ends { ReadEnds result (N.device nor.old) (N.device nor.new) }
{
    match volume.kept(image) {
        None => Ok(None),
        Some(kept) => {
            let seen = see_kept(nor, image, &kept)?;
            Ok(Some(seen))
        }
    }
}
