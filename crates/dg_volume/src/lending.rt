//! Slots that a volume lends, and takes back.
ghost use Rattle.std.specs.Prelude.{◌≡◌, ◌≢◌, ◌↔◌, ◌⊎◌, ℕ, ◌<◌, ◌≤◌, true, false, List, Some, None, IfSome, IsNone, length};
ghost use Rattle.dg_object.specs.Records.{outline_of};
ghost use Rattle.dg_slot.specs.Layout.{slots, most_pages};
ghost use Rattle.dg_slot.specs.Kept.{Held};
ghost use Rattle.dg_slot.specs.Jobs.{Opens, IsOpen, outline_of_slot, done_of_slot};
ghost use Rattle.dg_volume.specs.Sizes.{images};
ghost use Rattle.dg_volume.specs.Store.{Store, held};
ghost use Rattle.dg_volume.specs.Told.{kept_told};
ghost use Rattle.dg_volume.specs.Stands.{control_of, kept_at, is_lent, MountedBut, Mounted, IsMounted};

use crate::volume::{Kept, Volume};
use dg_object::Profile;
use dg_slot::OpenSlot;

impl Volume {
    /// Lends the slot of an image: `None` if nothing is kept of the image, or its slot is lent already.
    pub fn slot(&mut self, image: u8) -> Option<OpenSlot>
        requires known_image { image < images }
        // it is a mounted volume of some chip
        requires mounted { (c : List ℕ) × IsMounted c self.old }
        ensures lends { IfSome result (λ o. ((outline_of_slot o).image ≡ image)
            × ((c : List ℕ) (s : Store) (h : Held) → Mounted c self.old s → held s image ≡ Some h → IsOpen c o h)) }
        ensures none { IsNone result ↔ ((kept_at self.old image ≡ None) ⊎ (is_lent self.old image ≡ true)) }
        // the slot reports what the volume reports of the image
        ensures told { IfSome result (λ o. kept_at self.old image ≡ Some (kept_told o)) }
        ensures same { IsNone result → self.new ≡ self.old }
        ensures control { control_of self.new ≡ control_of self.old }
        ensures kept { (i : ℕ) → kept_at self.new i ≡ kept_at self.old i }
        ensures lent { IfSome result (λ o. is_lent self.new image ≡ true) }
        ensures others { (i : ℕ) → i ≢ image → is_lent self.new i ≡ is_lent self.old i }
        ensures mounted { (c : List ℕ) (s : Store) → Mounted c self.old s → Mounted c self.new s }
        ensures mounted_but { (c : List ℕ) (s : Store) (i : ℕ) → MountedBut (λ j. j ≡ i) c self.old s
            → MountedBut (λ j. j ≡ i) c self.new s }
    {
        let index = usize::from(image);
        if self.lent[index] {
            return None;
        }
        let kept = self.kept[index]?;
        self.lent[index] = true;
        Some(open_slot(image, &kept))
    }

    /// Takes a lent slot back, possibly with more pages complete.
    pub fn put_back(&mut self, slot: OpenSlot)
        requires { is_lent self.old (outline_of_slot slot).image ≡ true }
        ensures mounted { (c : List ℕ) (s : Store) (h : Held) → MountedBut (λ i. i ≡ (outline_of_slot slot).image) c self.old s
            → held s (outline_of_slot slot).image ≡ Some h → Opens slot h → Mounted c self.new s }
        ensures control { control_of self.new ≡ control_of self.old }
        ensures kept { kept_at self.new (outline_of_slot slot).image ≡ Some (kept_told slot) }
        ensures others_kept { (i : ℕ) → i ≢ (outline_of_slot slot).image → kept_at self.new i ≡ kept_at self.old i }
        ensures back { is_lent self.new (outline_of_slot slot).image ≡ false }
        ensures others { (i : ℕ) → i ≢ (outline_of_slot slot).image → is_lent self.new i ≡ is_lent self.old i }
    {
        let profile = slot.profile();
        let index = usize::from(profile.image);
        self.kept[index] = Some(Kept {
            version: profile.version,
            pages: profile.pages,
            done: slot.done(),
            crc: profile.crc,
        });
        self.lent[index] = false;
    }
}

/// The open slot of an image, for what is kept of it.
fn open_slot(image: u8, kept: &Kept) -> OpenSlot
    requires known_image { image < images }
    requires some_version { 1 ≤ kept.now.version }
    requires some_pages { 2 ≤ kept.now.pages }
    requires most_pages { kept.now.pages ≤ most_pages }
    requires within { kept.now.done ≤ kept.now.pages }
    ensures told { outline_of_slot result ≡ record {
      image = image;
      version = kept.now.version;
      pages = kept.now.pages;
      crc = kept.now.crc;
    } }
    ensures done { done_of_slot result ≡ kept.now.done }
{
    let profile = Profile {
        image,
        version: kept.version,
        pages: kept.pages,
        crc: kept.crc,
    };
    OpenSlot::new(profile, kept.done)
}
