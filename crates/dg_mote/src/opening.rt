//! Opens the slot of an image, and begins its next page.
ghost use Rattle.std.specs.Prelude.{◌≡◌, ◌≢◌, ℕ, true, false, IfOk, OnOk, OnErr};
ghost use Rattle.dg_nor.specs.Trail.{last};
ghost use Rattle.dg_volume.specs.Store.{Store};
ghost use Rattle.dg_volume.specs.Stands.{Mounted, is_lent};
ghost use Rattle.dg_volume.specs.Acts.{Acted, Stops};
ghost use Rattle.dg_mote.specs.Adverts.{ask_trail};
ghost use Rattle.dg_mote.specs.Hearing.{MayTake, slot_trail, Opened, Begun};

use crate::adverts::keeps_version;
use dg_frame::Entry;
use dg_nor::{Nor, Stopped};
use dg_object::Profile;
use dg_slot::{OpenSlot, PageJob};
use dg_volume::{
    Volume, a_lent_slot_is_filled, acts_end, what_is_after_the_commits_does_not_count,
};

/// Begins the next page of an image, whose slot is taken unless this version is kept.
pub(crate) fn begin_page<N: Nor>(
    nor: &mut N,
    volume: &mut Volume,
    image: u8,
    entry: Entry,
) -> Result<PageJob, Stopped>
    requires mounted { (s : Store) × Mounted (N.device nor.old).image volume.old s × MayTake s image entry }
    requires not_lent { is_lent volume.old image ≡ false }
    ensures begun { IfOk result (λ job. (s : Store) → Mounted (N.device nor.old).image volume.old s → MayTake s image entry
        → Acted (ask_trail s image entry) (N.device nor.old) (N.device nor.new) volume.new
        × Begun (N.device nor.new).image (last (ask_trail s image entry)) image entry job) }
    ensures lent { OnOk result (is_lent volume.new image ≡ true) }
    ensures others { (i : ℕ) → i ≢ image → is_lent volume.new i ≡ is_lent volume.old i }
    ensures same_reference { (N.device nor.new).references ≡ (N.device nor.old).references }
    ensures stopped { OnErr result ((s : Store) → Mounted (N.device nor.old).image volume.old s → MayTake s image entry
        → Stops (ask_trail s image entry) (N.device nor.old) (N.device nor.new)) }
{
    what_is_after_the_commits_does_not_count();
    a_lent_slot_is_filled();
    let slot = open(nor, volume, image, entry)?;
    slot.begin_page(nor)
}

/// The slot of an image, taken unless this version is kept.
fn open<N: Nor>(
    nor: &mut N,
    volume: &mut Volume,
    image: u8,
    entry: Entry,
) -> Result<OpenSlot, Stopped>
    requires mounted { (s : Store) × Mounted (N.device nor.old).image volume.old s × MayTake s image entry }
    requires not_lent { is_lent volume.old image ≡ false }
    ensures opened { IfOk result (λ o. (s : Store) → Mounted (N.device nor.old).image volume.old s → MayTake s image entry
        → Acted (slot_trail s image entry) (N.device nor.old) (N.device nor.new) volume.new
        × Opened (N.device nor.new).image (last (slot_trail s image entry)) image entry o) }
    ensures lent { OnOk result (is_lent volume.new image ≡ true) }
    ensures others { (i : ℕ) → i ≢ image → is_lent volume.new i ≡ is_lent volume.old i }
    ensures same_reference { (N.device nor.new).references ≡ (N.device nor.old).references }
    ensures stopped { OnErr result ((s : Store) → Mounted (N.device nor.old).image volume.old s → MayTake s image entry
        → Stops (slot_trail s image entry) (N.device nor.old) (N.device nor.new)) }
{
    if keeps_version(volume.kept(image), entry.version) {
        return Ok(volume.slot(image).unwrap());
    }
    acts_end();
    let profile = Profile {
        image,
        version: entry.version,
        pages: entry.pages,
        crc: entry.crc,
    };
    match volume.take(nor, image, &profile) {
        Ok(slot) => Ok(slot),
        // it may be taken, so the only possible fault is a stop
        Err(_) => Err(Stopped),
    }
}
