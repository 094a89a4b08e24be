//! Images that are injected, page by page.
ghost use Rattle.std.specs.Prelude.{◌≡◌, ◌≢◌, ◌⊎◌, ℕ, ◌<◌, ◌≤◌, true, false, List, Some, Ok, Err, OnOk, OnErr, IfOk, IsNone};
ghost use Rattle.std.specs.Prelude.{IsSomeAnd, IsTrue, length};
ghost use Rattle.dg_base.specs.Texts.{spells_name};
ghost use Rattle.dg_nor.specs.Chip.{Touches};
ghost use Rattle.dg_nor.specs.Device.{Took};
ghost use Rattle.dg_nor.specs.Reads.{Looked, ReadEnds};
ghost use Rattle.dg_object.specs.Object.{row_of, pages_for};
ghost use Rattle.dg_slot.specs.Layout.{page_size, most_bytes, header_sector, slot_end};
ghost use Rattle.dg_slot.specs.Kept.{Held, KeepsImage};
ghost use Rattle.dg_volume.specs.Sizes.{images};
ghost use Rattle.dg_volume.specs.Store.{Store};
ghost use Rattle.dg_volume.specs.Told.{told_held};
ghost use Rattle.dg_volume.specs.Stands.{kept_at, NothingLent, Mounted, IsMounted, Tells};
ghost use Rattle.dg_volume.specs.Changes.{inject_refusal, differs_from_kept, other_profile};
ghost use Rattle.dg_volume.specs.Filling.{new_row};
ghost use Rattle.dg_volume.specs.Injecting.{InjectEnds};
ghost use Rattle.dg_volume.specs.Acts.{TouchesBut};
ghost use Rattle.dg_volume.specs.declared.volume.Kept.{Kept};
ghost use Rattle.dg_volume.specs.declared.volume.Volume.{Volume};
ghost use Rattle.dg_volume.specs.declared.volume.InjectFault.{InjectFault};
ghost use Rattle.dg_volume.specs.declared.volume.InjectFault.TheVariants as inject_faults;

use crate::comparing::is_first_page;
use crate::laws::a_row_is_filled_page_by_page;
use crate::layout::{GOLDEN, PAGE_SIZE};
use crate::new_image::NewImage;
use crate::taking::TAKE_COMMITS;
use crate::volume::{InjectFault, Injected, Kept, Volume};
use dg_nor::{Nor, Stopped};
use dg_object::{SizeFault, check_size};

impl Volume {
    /// Keeps an image whole, in place of an older version of it. A version that is kept in part is resumed at its next page. If
    /// it is whole, nothing changes.
    ///
    /// The image has 1 to 70,656 bytes and number 1 to 6. Refusals are checked in this order: `Empty`, `TooLarge`, `Reserved`,
    /// `Stale`, `Taken` (for which page 0 of the slot may be read), and `Worn`. A refused injection changes nothing.
    pub fn inject<N: Nor>(
        &mut self,
        nor: &mut N,
        image: u8,
        version: u32,
        name: &[u8],
        bytes: &[u8],
    ) -> Result<Injected, InjectFault>
        requires mounted { IsMounted (N.device nor.old).image self.old }
        requires free { NothingLent self.old }
        requires known_image { image < images }
        requires some_version { 1 ≤ version }
        requires named { IsTrue (spells_name name.now) }
        ensures ends { (s : Store) → Mounted (N.device nor.old).image self.old s
            → InjectEnds result s (row_of image version name.now bytes.now) (N.device nor.old) (N.device nor.new) self.new }
        ensures same_reference { (N.device nor.new).references ≡ (N.device nor.old).references }
        ensures free { OnOk result (NothingLent self.new) }
        ensures pages { IfOk result (λ i. i.pages ≡ pages_for (length bytes.now)) }
        // a version that is whole already changes nothing
        ensures again { OnOk result (IsSomeAnd (kept_at self.old image) (λ k. (k.version ≡ version) × (k.done ≡ k.pages))
            → Looked (N.device nor.old) (N.device nor.new) × (self.new ≡ self.old)) }
        ensures awake { OnOk result ((N.device nor.old).stopped ≡ false) }
        ensures unchanged { (e : InjectFault) → result ≡ Err e → e ≢ InjectFault.Stopped → e ≢ InjectFault.Taken
            → (N.device nor.new ≡ N.device nor.old) × (self.new ≡ self.old) }
        // page 0 may have been read
        ensures taken { result ≡ Err InjectFault.Taken
            → Looked (N.device nor.old) (N.device nor.new) × (self.new ≡ self.old) }
        ensures took { result ≡ Err InjectFault.Taken → Took page_size (N.device nor.old) (N.device nor.new) }
        ensures touches { TouchesBut (header_sector image) (slot_end image) (N.device nor.old).image (N.device nor.new).image }
    {
        if let Some(fault) = injection_fault(self.kept(image), image, version, bytes) {
            return Err(fault);
        }
        let new = NewImage {
            image,
            version,
            name,
            bytes,
        };
        match self.kept(image) {
            Some(kept) if kept.version == version => self.resume(nor, &new, &kept),
            _ => self.begin_from_start(nor, &new),
        }
    }

    /// Fills the missing pages of a version that is kept, if it is this image.
    fn resume<N: Nor>(
        &mut self,
        nor: &mut N,
        new: &NewImage<'_>,
        kept: &Kept,
    ) -> Result<Injected, InjectFault>
        requires mounted { IsMounted (N.device nor.old).image self.old }
        requires free { NothingLent self.old }
        requires not_golden { 1 ≤ new.now.image }
        requires kept { kept_at self.old new.now.image ≡ Some kept.now }
        requires same_version { kept.now.version ≡ new.now.version }
        ensures ends { (s : Store) → Mounted (N.device nor.old).image self.old s
            → InjectEnds result s (new_row new.now) (N.device nor.old) (N.device nor.new) self.new }
        ensures same_reference { (N.device nor.new).references ≡ (N.device nor.old).references }
        ensures free { OnOk result (NothingLent self.new) }
        ensures pages { IfOk result (λ i. i.pages ≡ pages_for (length new.now.bytes.now)) }
        ensures again { OnOk result (kept.now.done ≡ kept.now.pages → Looked (N.device nor.old) (N.device nor.new)
            × (self.new ≡ self.old)) }
        ensures awake { OnOk result ((N.device nor.old).stopped ≡ false) }
        ensures only { (e : InjectFault) → result ≡ Err e → (e ≡ inject_faults.Stopped) ⊎ (e ≡ inject_faults.Taken) }
        ensures taken { result ≡ Err inject_faults.Taken → Looked (N.device nor.old) (N.device nor.new) × (self.new ≡ self.old) }
        ensures took { result ≡ Err inject_faults.Taken → Took page_size (N.device nor.old) (N.device nor.new) }
        ensures touches { Touches (header_sector new.now.image) (slot_end new.now.image) (N.device nor.old).image
            (N.device nor.new).image }
    {
        if differs_from_kept(nor, new, kept)? {
            return Err(InjectFault::Taken);
        }
        a_row_is_filled_page_by_page();
        self.fill_rest(nor, new, kept.done)?;
        Ok(Injected { pages: new.pages() })
    }

    /// Takes the slot for a version that is not kept, and fills all of its pages.
    fn begin_from_start<N: Nor>(
        &mut self,
        nor: &mut N,
        new: &NewImage<'_>,
    ) -> Result<Injected, InjectFault>
        requires mounted { IsMounted (N.device nor.old).image self.old }
        requires free { NothingLent self.old }
        requires not_golden { 1 ≤ new.now.image }
        requires older { (k : Kept) → kept_at self.old new.now.image ≡ Some k → k.version < new.now.version }
        ensures ends { (s : Store) → Mounted (N.device nor.old).image self.old s
            → InjectEnds result s (new_row new.now) (N.device nor.old) (N.device nor.new) self.new }
        ensures same_reference { (N.device nor.new).references ≡ (N.device nor.old).references }
        ensures free { OnOk result (NothingLent self.new) }
        ensures pages { IfOk result (λ i. i.pages ≡ pages_for (length new.now.bytes.now)) }
        ensures awake { OnOk result ((N.device nor.old).stopped ≡ false) }
        ensures not_taken { result ≢ Err inject_faults.Taken }
        ensures unchanged { (e : InjectFault) → result ≡ Err e → e ≢ inject_faults.Stopped
            → (N.device nor.new ≡ N.device nor.old) × (self.new ≡ self.old) }
        ensures touches { TouchesBut (header_sector new.now.image) (slot_end new.now.image) (N.device nor.old).image
            (N.device nor.new).image }
    {
        let room = self.room();
        if room < TAKE_COMMITS {
            return Err(InjectFault::Worn { room });
        }
        let mut first = [0; PAGE_SIZE];
        new.page(0, &mut first);
        let slot = self.replace(nor, &new.profile(&first))?;
        self.put_back(slot);
        a_row_is_filled_page_by_page();
        self.fill_rest(nor, new, 0)?;
        Ok(Injected { pages: new.pages() })
    }
}

/// Why an image is refused by its size, its number or a larger version that is kept. [`differs_from_kept`] compares it with an
/// equal version.
pub fn injection_fault(
    kept: Option<Kept>,
    image: u8,
    version: u32,
    bytes: &[u8],
) -> Option<InjectFault>
    ensures refusal { (e : InjectFault) → result ≡ Some e → (v : Volume) (s : Store) (name : List ℕ) → Tells v s
        → kept ≡ kept_at v image → image < images
        → inject_refusal s (row_of image version name bytes.now) ≡ Some e }
    ensures other { (e : InjectFault) → result ≡ Some e → (e ≢ inject_faults.Stopped) × (e ≢ inject_faults.Taken) }
    ensures some { IsNone result → 1 ≤ length bytes.now }
    ensures fits { IsNone result → length bytes.now ≤ most_bytes }
    ensures not_golden { IsNone result → 1 ≤ image }
    ensures newest { IsNone result → (k : Kept) → kept ≡ Some k → k.version ≤ version }
{
    match check_size(bytes.len()) {
        Ok(()) => {}
        Err(SizeFault::Empty) => return Some(InjectFault::Empty),
        Err(SizeFault::TooLarge) => return Some(InjectFault::TooLarge),
    }
    if image == GOLDEN {
        return Some(InjectFault::Reserved);
    }
    match kept {
        Some(kept) if version < kept.version => Some(InjectFault::Stale { kept: kept.version }),
        _ => None,
    }
}

/// Whether the kept version differs from this image, in its profile or in page 0. `Stopped` if the device stops while that page
/// is read.
pub fn differs_from_kept<N: Nor>(
    nor: &mut N,
    new: &NewImage<'_>,
    kept: &Kept,
) -> Result<bool, Stopped>
    ensures other { IfOk result (λ other. (h : Held) → KeepsImage (N.device nor.old).image new.now.image h
        → told_held h ≡ kept.now
        → other ≡ differs_from_kept h (new_row new.now)) }
    ensures unread { OnErr result ((h : Held) → told_held h ≡ kept.now → other_profile h (new_row new.now) ≡ false) }
    ensures awake { result ≡ Ok false → 1 ≤ kept.now.done → (N.device nor.old).stopped ≡ false }
    ensures ends { ReadEnds result (N.device nor.old) (N.device nor.new) }
    ensures took { Took page_size (N.device nor.old) (N.device nor.new) }
{
    let mut first = [0; PAGE_SIZE];
    new.page(0, &mut first);
    let profile = new.profile(&first);
    if kept.pages != profile.pages || kept.crc != profile.crc {
        return Ok(true);
    }
    if kept.done == 0 {
        return Ok(false);
    }
    Ok(!is_first_page(nor, new.image, &first)?)
}
