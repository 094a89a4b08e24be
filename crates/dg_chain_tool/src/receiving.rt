//! The verb `receive`.
ghost use Rattle.std.specs.Prelude.{◌≡◌, ◌≤◌, ◌<◌, Some, map, IsTrue};
ghost use Rattle.dg_base.specs.Texts.{spells_name};
ghost use Rattle.dg_object.specs.Object.{row_of};
ghost use Rattle.dg_volume.specs.Sizes.{images};
ghost use Rattle.dg_volume.specs.Store.{Store};
ghost use Rattle.dg_volume.specs.Stands.{kept_at, Mounted, IsMounted, NothingLent};
ghost use Rattle.dg_volume.specs.Acts.{Stops};
ghost use Rattle.dg_volume.specs.declared.volume.Kept.{Kept};
ghost use Rattle.dg_outside.specs.Outside.{input_of};
ghost use Rattle.dg_end.specs.Lines.{text_outcome};
ghost use Rattle.dg_tool.specs.Verbs.{have_text};
ghost use Rattle.dg_tool.specs.Done.{Completed, FedBoards};
ghost use Rattle.dg_tool.specs.inner.OneBoard.{OnStore};
ghost use Rattle.dg_chain_tool.specs.Receiving.{receive_trail};
ghost use Rattle.dg_chain_tool.specs.inner.Words.{receive_to};
ghost use Rattle.dg_chain_tool.specs.Done.{receive_rule};
ghost use Rattle.dg_volume.specs.Filling.{new_row};

use crate::filling::receive_rest;
use dg_base::Source;
use dg_chain::DIGEST_SIZE;
use dg_end::{End, Refusal, end_of_injection, line_of};
use dg_nor::Nor;
use dg_object::PAGE_SIZE;
use dg_tool::read_image;
use dg_volume::{
    Kept, NewImage, Volume, a_row_is_filled_page_by_page, differs_from_kept, injection_fault,
};
use std::alloc::Global;

/// Fills what is missing of a version that is kept, if that is this image.
fn receive_kept<N: Nor>(
    volume: &mut Volume,
    nor: &mut N,
    new: &NewImage<'_>,
    kept: &Kept,
    root: &[u8; DIGEST_SIZE],
) -> Result<(), End>
    requires mounted { IsMounted (N.device nor.old).image volume.old }
    requires free { NothingLent volume.old }
    requires not_golden { 1 ≤ new.now.image }
    requires known_image { new.now.image < images }
    requires kept { kept_at volume.old new.now.image ≡ Some kept.now }
    requires same_version { kept.now.version ≡ new.now.version }
    ensures ends { (s : Store) → Mounted (N.device nor.old).image volume.old s → let row = new_row new.now in
        OnStore (text_outcome (λ u. have_text row) result)
        (receive_to root.now row s) (Completed (receive_trail root.now s row))
        (Stops (receive_trail root.now s row)) (N.device nor.old) (N.device nor.new) }
{
    let other = differs_from_kept(nor, new, kept)?;
    if other {
        return Err(End::Refused(Refusal::Taken));
    }
    a_row_is_filled_page_by_page();
    receive_rest(volume, nor, new, kept.done, root)?;
    Ok(())
}

/// Takes the slot for a version that is not kept, and fills its pages.
fn receive_anew<N: Nor>(
    volume: &mut Volume,
    nor: &mut N,
    new: &NewImage<'_>,
    root: &[u8; DIGEST_SIZE],
) -> Result<(), End>
    requires mounted { IsMounted (N.device nor.old).image volume.old }
    requires free { NothingLent volume.old }
    requires not_golden { 1 ≤ new.now.image }
    requires known_image { new.now.image < images }
    requires older { (k : Kept) → kept_at volume.old new.now.image ≡ Some k → k.version < new.now.version }
    ensures ends { (s : Store) → Mounted (N.device nor.old).image volume.old s → let row = new_row new.now in
        OnStore (text_outcome (λ u. have_text row) result)
        (receive_to root.now row s) (Completed (receive_trail root.now s row))
        (Stops (receive_trail root.now s row)) (N.device nor.old) (N.device nor.new) }
{
    let mut first = [0; PAGE_SIZE];
    new.page(0, &mut first);
    let slot = volume.take(nor, new.image, &new.profile(&first))?;
    volume.put_back(slot);
    a_row_is_filled_page_by_page();
    receive_rest(volume, nor, new, 0, root)?;
    Ok(())
}

/// Keeps an image, of which no larger version is kept.
fn receive_new<N: Nor>(
    volume: &mut Volume,
    nor: &mut N,
    new: &NewImage<'_>,
    root: &[u8; DIGEST_SIZE],
) -> Result<(), End>
    requires mounted { IsMounted (N.device nor.old).image volume.old }
    requires free { NothingLent volume.old }
    requires not_golden { 1 ≤ new.now.image }
    requires known_image { new.now.image < images }
    requires newest { (k : Kept) → kept_at volume.old new.now.image ≡ Some k → k.version ≤ new.now.version }
    ensures ends { (s : Store) → Mounted (N.device nor.old).image volume.old s → let row = new_row new.now in
        OnStore (text_outcome (λ u. have_text row) result)
        (receive_to root.now row s) (Completed (receive_trail root.now s row))
        (Stops (receive_trail root.now s row)) (N.device nor.old) (N.device nor.new) }
{
    match volume.kept(new.image) {
        Some(kept) if kept.version == new.version => receive_kept(volume, nor, new, &kept, root),
        _ => receive_anew(volume, nor, new, root),
    }
}

/// Keeps an image, of which no larger version is kept, and reports that it is kept whole.
fn receive_told<N: Nor>(
    alloc: Global,
    volume: &mut Volume,
    nor: &mut N,
    new: &NewImage<'_>,
    root: &[u8; DIGEST_SIZE],
) -> Result<Vec<u8>, End>
    requires mounted { IsMounted (N.device nor.old).image volume.old }
    requires free { NothingLent volume.old }
    requires not_golden { 1 ≤ new.now.image }
    requires known_image { new.now.image < images }
    requires newest { (k : Kept) → kept_at volume.old new.now.image ≡ Some k → k.version ≤ new.now.version }
    ensures ends { (s : Store) → Mounted (N.device nor.old).image volume.old s → let row = new_row new.now in
        OnStore (text_outcome (λ text. text.items) result)
        (receive_to root.now row s) (Completed (receive_trail root.now s row))
        (Stops (receive_trail root.now s row)) (N.device nor.old) (N.device nor.new) }
{
    receive_new(volume, nor, new, root)?;
    let number = u32::from(new.image);
    let pages = u32::from(new.pages());
    let line = line_of(alloc, b"have", &[0, number, new.version, pages])?;
    Ok(line)
}

/// Receives an image on a board that is mounted.
fn receive_mounted<N: Nor>(
    alloc: Global,
    image: u8,
    version: u32,
    name: &[u8],
    root: &[u8; DIGEST_SIZE],
    bytes: &[u8],
    nor: &mut N,
    volume: &mut Volume,
) -> Result<Vec<u8>, End>
    requires mounted { IsMounted (N.device nor.old).image volume.old }
    requires free { NothingLent volume.old }
    requires image { image < images }
    requires version { 1 ≤ version }
    requires named { IsTrue (spells_name name.now) }
    ensures { (s : Store) → Mounted (N.device nor.old).image volume.old s → let row = row_of image version name.now bytes.now in
        OnStore (text_outcome (λ text. text.items) result)
        (receive_to root.now row s) (Completed (receive_trail root.now s row))
        (Stops (receive_trail root.now s row)) (N.device nor.old) (N.device nor.new) }
{
    match injection_fault(volume.kept(image), image, version, bytes) {
        Some(fault) => Err(end_of_injection(fault, bytes.len())),
        None => {
            let new = NewImage {
                image,
                version,
                name,
                bytes,
            };
            receive_told(alloc, volume, nor, &new, root)
        }
    }
}

/// Receives the image that an input spells on the first of the boards, and gives the line that reports it.
pub(crate) fn receive_first<S: Source, N: Nor>(
    alloc: Global,
    image: u8,
    version: u32,
    name: &[u8],
    root: &[u8; DIGEST_SIZE],
    input: &mut S,
    boards: &mut [N],
) -> Result<Vec<u8>, End>
    requires image { image < images }
    requires version { 1 ≤ version }
    requires named { IsTrue (spells_name name.now) }
    ensures done { FedBoards (text_outcome (λ text. text.items) result)
        (receive_rule (map N.device boards.old) root.now (row_of image version name.now)) (input_of (S.Source, input.old))
        (input_of (S.Source, input.new)) (map N.device boards.old) (map N.device boards.new) }
    ensures counts { S.faults input.old ≤ S.faults input.new }
{
    if boards.is_empty() {
        return Err(End::NoBoard { need: 1, have: 0 });
    }
    let bytes = read_image(alloc, input)?;
    let nor = &mut boards[0];
    let mut volume = Volume::mount(nor)?;
    receive_mounted(alloc, image, version, name, root, &bytes, nor, &mut volume)
}
