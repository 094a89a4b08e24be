//! Pages of an image that is received, one after the other, each compared with the digest that is expected of it.
ghost use Rattle.std.specs.Prelude.{◌≡◌, ℕ, ◌<◌, ◌≤◌, false, OnOk, Some, drop, length};
ghost use Rattle.dg_object.specs.Object.{pages_for, object};
ghost use Rattle.dg_slot.specs.Kept.{Held};
ghost use Rattle.dg_volume.specs.Sizes.{images};
ghost use Rattle.dg_volume.specs.Store.{Store, held};
ghost use Rattle.dg_volume.specs.Stands.{Mounted, IsMounted, is_lent};
ghost use Rattle.dg_volume.specs.Changes.{FitAll};
ghost use Rattle.dg_volume.specs.Filling.{new_row};
ghost use Rattle.dg_chain.specs.Checking.{first_break};
ghost use Rattle.dg_chain_tool.specs.Receiving.{expected};
ghost use Rattle.dg_chain_tool.specs.inner.Words.{foreign_from, first_foreign};
ghost use Rattle.dg_chain_tool.specs.inner.Filling.{FitsData, NextEnds, fill_to, FillEnds};

use dg_chain::{ChainSealing, DIGEST_SIZE, PIECE_SIZE, receive_page};
use dg_end::{End, Refusal};
use dg_nor::{Nor, Stopped};
use dg_object::PAGE_SIZE;
use dg_volume::{NewImage, Volume};

/// Fills the next page of an image, a data page with this number, and makes it complete where it is the expected one. 50
/// operations, and 49 where it is foreign.
fn receive_next<N: Nor>(
    volume: &mut Volume,
    nor: &mut N,
    image: u8,
    number: u8,
    page: &[u8; PAGE_SIZE],
    expected: &[u8; DIGEST_SIZE],
) -> Result<(), End>
    requires mounted { IsMounted (N.device nor.old).image volume.old }
    requires not_golden { 1 ≤ image }
    requires known_image { image < images }
    requires not_lent { is_lent volume.old image ≡ false }
    requires fits { (s : Store) × Mounted (N.device nor.old).image volume.old s × FitsData image page.now s }
    ensures ends { (s : Store) → Mounted (N.device nor.old).image volume.old s
        → NextEnds result (record { image = image; number = number; page = page.now; digest = expected.now }) s
        (N.device nor.old) (N.device nor.new) volume.new }
    ensures lent { OnOk result ((i : ℕ) → is_lent volume.new i ≡ is_lent volume.old i) }
{
    match volume.slot(image) {
        Some(slot) => match receive_page(nor, slot, page, expected) {
            Ok(ChainSealing::Sealed { slot, next: _next }) => {
                volume.put_back(slot);
                Ok(())
            }
            Ok(
                ChainSealing::Foreign {
                    found: _found,
                    slot,
                },
            ) => {
                volume.put_back(slot);
                Err(End::Refused(Refusal::Foreign { page: number }))
            }
            Ok(
                ChainSealing::Bad {
                    kept: _kept,
                    found: _found,
                    slot,
                },
            ) => {
                volume.put_back(slot);
                Err(End::Refused(Refusal::Foreign { page: number }))
            }
            Err(Stopped) => Err(End::FlashFault),
        },
        None => Err(End::Refused(Refusal::Absent)),
    }
}

/// The digest that a page carries.
fn field_of(page: &[u8; PAGE_SIZE]) -> [u8; DIGEST_SIZE]
    ensures { result ≡ drop PIECE_SIZE page.now }
{
    let mut field = [0; DIGEST_SIZE];
    field.copy_from_slice(&page[PIECE_SIZE..]);
    field
}

/// Fills the data pages of an image from page `done` on, up to the first foreign one. `first` is the digest that is
/// expected of that page.
fn receive_data<N: Nor>(
    volume: &mut Volume,
    nor: &mut N,
    new: &NewImage<'_>,
    done: u8,
    first: &[u8; DIGEST_SIZE],
) -> Result<(), End>
    requires mounted { IsMounted (N.device nor.old).image volume.old }
    requires not_golden { 1 ≤ new.now.image }
    requires known_image { new.now.image < images }
    requires not_lent { is_lent volume.old new.now.image ≡ false }
    requires some { 1 ≤ done }
    requires within { done ≤ pages_for (length new.now.bytes.now) }
    requires fit { (s : Store) → Mounted (N.device nor.old).image volume.old s
        → FitAll new.now.image (drop done (object (new_row new.now))) s }
    requires data { (s : Store) → Mounted (N.device nor.old).image volume.old s → (h : Held)
        × (held s new.now.image ≡ Some h) × (1 ≤ length h.complete) }
    ensures ends { (s : Store) → Mounted (N.device nor.old).image volume.old s
        → let pages = drop done (object (new_row new.now)) in
        let found = first_break first.now done pages in
        FillEnds result found (fill_to found done s new.now.image pages)
        (N.device nor.old) (N.device nor.new) volume.new }
{
    let mut kept = *first;
    for p in done..new.pages() {
        let mut page = [0; PAGE_SIZE];
        new.page(p, &mut page);
        receive_next(volume, nor, new.image, p, &page, &kept)?;
        kept = field_of(&page);
    }
    Ok(())
}

/// The digest that a data page of an image is expected to have.
fn expected_of(new: &NewImage<'_>, page: u8, root: &[u8; DIGEST_SIZE]) -> [u8; DIGEST_SIZE]
    requires data_page { 1 ≤ page }
    requires within { page ≤ pages_for (length new.now.bytes.now) }
    ensures { result ≡ expected root.now (object (new_row new.now)) page }
{
    if page == 1 {
        return *root;
    }
    let mut before = [0; PAGE_SIZE];
    new.page(page - 1, &mut before);
    field_of(&before)
}

/// Fills the pages of an image without a complete page, up to the first foreign one.
fn receive_whole<N: Nor>(
    volume: &mut Volume,
    nor: &mut N,
    new: &NewImage<'_>,
    root: &[u8; DIGEST_SIZE],
) -> Result<(), End>
    requires mounted { IsMounted (N.device nor.old).image volume.old }
    requires not_golden { 1 ≤ new.now.image }
    requires known_image { new.now.image < images }
    requires not_lent { is_lent volume.old new.now.image ≡ false }
    requires fit { (s : Store) → Mounted (N.device nor.old).image volume.old s
        → FitAll new.now.image (object (new_row new.now)) s }
    requires complete { (s : Store) → Mounted (N.device nor.old).image volume.old s → (h : Held)
        × (held s new.now.image ≡ Some h) × (length h.complete ≡ 0) }
    ensures ends { (s : Store) → Mounted (N.device nor.old).image volume.old s → let pages = object (new_row new.now) in
        let found = foreign_from root.now pages 1 in
        FillEnds result found (fill_to found 0 s new.now.image pages)
        (N.device nor.old) (N.device nor.new) volume.new }
{
    let mut page = [0; PAGE_SIZE];
    new.page(0, &mut page);
    match volume.fill_page(nor, new.image, &page) {
        Ok(()) => receive_data(volume, nor, new, 1, root),
        Err(Stopped) => Err(End::FlashFault),
    }
}

/// Fills the pages of an image from page `done` on, up to the first foreign one.
pub(crate) fn receive_rest<N: Nor>(
    volume: &mut Volume,
    nor: &mut N,
    new: &NewImage<'_>,
    done: u8,
    root: &[u8; DIGEST_SIZE],
) -> Result<(), End>
    requires mounted { IsMounted (N.device nor.old).image volume.old }
    requires not_golden { 1 ≤ new.now.image }
    requires known_image { new.now.image < images }
    requires not_lent { is_lent volume.old new.now.image ≡ false }
    requires within { done ≤ pages_for (length new.now.bytes.now) }
    requires fit { (s : Store) → Mounted (N.device nor.old).image volume.old s
        → FitAll new.now.image (drop done (object (new_row new.now))) s }
    requires complete { (s : Store) → Mounted (N.device nor.old).image volume.old s → (h : Held)
        × (held s new.now.image ≡ Some h) × (length h.complete ≡ done) }
    ensures ends { (s : Store) → Mounted (N.device nor.old).image volume.old s → let pages = object (new_row new.now) in
        let found = first_foreign root.now pages done in
        FillEnds result found
        (fill_to found done s new.now.image (drop done pages)) (N.device nor.old) (N.device nor.new) volume.new }
{
    if done == 0 {
        return receive_whole(volume, nor, new, root);
    }
    let first = expected_of(new, done, root);
    receive_data(volume, nor, new, done, &first)
}
