//! What a mounted volume reports of its chip, without a read.
ghost use Rattle.std.specs.Prelude.{◌≡◌, ◌⊎◌, ◌<◌, ℕ, List, None, slice_index_or};
ghost use Rattle.dg_control.specs.Store.{HasForm};
ghost use Rattle.dg_volume.specs.Sizes.{images, old_form, new_form};
ghost use Rattle.dg_volume.specs.Stands.{snapshot_of, form_of, room_of, kept_at, IsMounted};

use crate::volume::{Kept, Volume};
use dg_control::{IMAGES, Snapshot, a_chip_has_one_form};

impl Volume {
    /// What the volume commits as a whole.
    pub fn snapshot(&self) -> Snapshot
        ensures { result ≡ snapshot_of self.now }
    {
        self.control.now()
    }

    /// How many commits are left, 0 to 520,223.
    pub fn room(&self) -> u32
        ensures { result ≡ room_of self.now }
    {
        self.control.room()
    }

    /// The number of the form in which the chip's last commit is written, 1 or 2.
    pub fn form(&self) -> u8
        ensures value { result ≡ form_of self.now }
        ensures known { (c : List ℕ) → IsMounted c self.now → (result ≡ old_form) ⊎ (result ≡ new_form) }
        ensures told { (c : List ℕ) → IsMounted c self.now → HasForm c result }
    {
        a_chip_has_one_form();
        self.control.form()
    }

    /// What is kept of an image.
    pub fn kept(&self, image: u8) -> Option<Kept>
        requires { image < images }
        ensures { result ≡ kept_at self.now image }
    {
        self.kept[usize::from(image)]
    }

    /// What is kept of each image, by its number.
    pub fn kept_images(&self) -> [Option<Kept>; IMAGES]
        ensures { (i : ℕ) → i < images → slice_index_or result i None ≡ kept_at self.now i }
    {
        self.kept
    }
}
