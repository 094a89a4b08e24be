//! Pages of an image, one after the other.
ghost use Rattle.std.specs.Prelude.{◌≡◌, ℕ, ◌<◌, ◌≤◌, false, OnOk, OnErr, drop, length};
ghost use Rattle.dg_nor.specs.Chip.{Touches};
ghost use Rattle.dg_nor.specs.Trail.{stepping};
ghost use Rattle.dg_object.specs.Object.{pages_for, object};
ghost use Rattle.dg_volume.specs.Filling.{new_row};
ghost use Rattle.dg_volume.specs.Store.{Store};
ghost use Rattle.dg_slot.specs.Layout.{page_operations, header_sector, slot_end};
ghost use Rattle.dg_volume.specs.Sizes.{images};
ghost use Rattle.dg_volume.specs.Stands.{Mounted, IsMounted, is_lent};
ghost use Rattle.dg_volume.specs.Changes.{paged, FitsNext, FitAll};
ghost use Rattle.dg_volume.specs.Trails.{fill_trail};
ghost use Rattle.dg_volume.specs.Acts.{Acted, Stops};

use crate::layout::PAGE_SIZE;
use crate::new_image::NewImage;
use crate::slot_filling::fill_next;
use crate::volume::Volume;
use dg_nor::{Nor, Stopped};

impl Volume {
    /// Fills the next page of an image with this one, which fits, and makes it complete. 50 operations.
    pub fn fill_page<N: Nor>(
        &mut self,
        nor: &mut N,
        image: u8,
        page: &[u8; PAGE_SIZE],
    ) -> Result<(), Stopped>
        requires mounted { IsMounted (N.device nor.old).image self.old }
        requires not_golden { 1 ≤ image }
        requires known_image { image < images }
        requires not_lent { is_lent self.old image ≡ false }
        requires fits { (s : Store) × Mounted (N.device nor.old).image self.old s × FitsNext image page.now s }
        ensures acted { OnOk result ((s : Store) → Mounted (N.device nor.old).image self.old s
            → Acted (stepping s page_operations (paged image page.now s)) (N.device nor.old) (N.device nor.new) self.new) }
        ensures awake { OnOk result ((N.device nor.old).stopped ≡ false) }
        ensures lent { OnOk result ((i : ℕ) → is_lent self.new i ≡ is_lent self.old i) }
        ensures same_reference { (N.device nor.new).references ≡ (N.device nor.old).references }
        ensures touches { Touches (header_sector image) (slot_end image) (N.device nor.old).image (N.device nor.new).image }
        ensures stopped { OnErr result ((s : Store) → Mounted (N.device nor.old).image self.old s
            → Stops (stepping s page_operations (paged image page.now s)) (N.device nor.old) (N.device nor.new)) }
    {
        let slot = self.slot(image).unwrap();
        let filled = fill_next(nor, slot, page)?;
        self.put_back(filled);
        Ok(())
    }

    /// Fills the pages of an image from page `done` on, one after the other.
    pub(crate) fn fill_rest<N: Nor>(
        &mut self,
        nor: &mut N,
        new: &NewImage<'_>,
        done: u8,
    ) -> Result<(), Stopped>
        requires mounted { IsMounted (N.device nor.old).image self.old }
        requires not_golden { 1 ≤ new.now.image }
        requires known_image { new.now.image < images }
        requires not_lent { is_lent self.old new.now.image ≡ false }
        requires within { done ≤ pages_for (length new.now.bytes.now) }
        requires fit { (s : Store) × Mounted (N.device nor.old).image self.old s
            × FitAll new.now.image (drop done (object (new_row new.now))) s }
        ensures acted { OnOk result ((s : Store) → Mounted (N.device nor.old).image self.old s
            → Acted (fill_trail s new.now.image (drop done (object (new_row new.now)))) (N.device nor.old) (N.device nor.new)
            self.new) }
        ensures none { OnOk result (pages_for (length new.now.bytes.now) ≤ done → (N.device nor.new ≡ N.device nor.old)
            × (self.new ≡ self.old)) }
        ensures awake { OnOk result (done < pages_for (length new.now.bytes.now) → (N.device nor.old).stopped ≡ false) }
        ensures lent { OnOk result ((i : ℕ) → is_lent self.new i ≡ is_lent self.old i) }
        ensures stopped { OnErr result ((s : Store) → Mounted (N.device nor.old).image self.old s
            → Stops (fill_trail s new.now.image (drop done (object (new_row new.now)))) (N.device nor.old) (N.device nor.new)) }
        ensures same_reference { (N.device nor.new).references ≡ (N.device nor.old).references }
        ensures touches { Touches (header_sector new.now.image) (slot_end new.now.image) (N.device nor.old).image
            (N.device nor.new).image }
    {
        for p in done..new.pages() {
            let mut page = [0; PAGE_SIZE];
            new.page(p, &mut page);
            self.fill_page(nor, new.image, &page)?;
        }
        Ok(())
    }
}
