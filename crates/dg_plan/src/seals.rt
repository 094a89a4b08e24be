//! A page whose packets are all there, planned to be made complete.
ghost use Rattle.std.specs.Prelude.{◌≡◌, ◌≢◌, ℕ, ◌<◌, ◌≤◌, true, false, Ok, Some, Err, OnOk, OnErr};
ghost use Rattle.dg_base.specs.Crc.{crc_of};
ghost use Rattle.dg_nor.specs.Device.{Ran};
ghost use Rattle.dg_nor.specs.Reads.{Looked, ReadStopped};
ghost use Rattle.dg_nor.specs.Trail.{operations, last};
ghost use Rattle.dg_slot.specs.Kept.{Held, kept_crc};
ghost use Rattle.dg_slot.specs.Fits.{may_seal};
ghost use Rattle.dg_volume.specs.Sizes.{images};
ghost use Rattle.dg_volume.specs.Store.{Store, held};
ghost use Rattle.dg_volume.specs.Stands.{Stands, IsNoVolume, NothingLent, Mounted, IsMounted};
ghost use Rattle.dg_volume.specs.Trails.{sealing_trail};
ghost use Rattle.dg_volume.specs.Acts.{Stops};
ghost use Rattle.dg_plan.specs.Plans.{planned, lists_of, chip_of, plan_device};
ghost use Rattle.dg_plan.specs.Acts.{IsPlanOf};
ghost use Rattle.dg_plan.specs.Packets.{its_page, IsNext, IsElsewhere, IsSealed};

use crate::mounting::{ActFault, mount};
use crate::pages::PageName;
use crate::plan::Plan;
use dg_bits::PageBits;
use dg_control::IMAGES;
use dg_nor::{Nor, Stopped};
use dg_slot::{Sealing, a_slot_holds_its_sectors, packets_stand_in_their_sector};
use dg_volume::{Volume, a_lent_slot_is_filled};

/// Why a page is not made complete.
#[derive(Clone, Copy, Debug, PartialEq, Eq)]
pub enum SealFault {
    /// The list or its bytes have no room.
    Stopped,
    /// This version of the image is not kept.
    NotKept,
    /// Another page of the slot is the next one. If `next` is this page, all pages are complete.
    NotNext { next: u8 },
    /// Its CRC is not the one that is kept of it.
    Bad { kept: u16, found: u16 },
    /// Page 0 is not the descriptor of the slot's image.
    Unfit,
}

/// Plans that the next page of a slot is made complete, as it is there. The chip is mounted, and the page is checked against
/// what is kept of it.
pub fn seal(plan: &mut Plan<'_>, name: PageName) -> Result<(), ActFault<SealFault>>
    ensures planned { OnOk result ((s : Store) → Stands (planned plan.old) s
        → (h : Held) × IsSealed name h (its_page (planned plan.old) name) s
        × IsPlanOf (sealing_trail s name.image h (its_page (planned plan.old) name)) plan.old plan.new) }
    ensures same_lists { lists_of plan.new ≡ lists_of plan.old }
    // the plan holds the chip that was handed in
    ensures same_chip { chip_of plan.new ≡ chip_of plan.old }
    ensures out_of_range { result ≡ Err ActFault.OutOfRange → images ≤ name.image }
    ensures unread { result ≡ Err ActFault.Unread → ReadStopped (plan_device plan.old) (plan_device plan.new) }
    ensures no_volume { result ≡ Err ActFault.NotAVolume → IsNoVolume (planned plan.old) }
    ensures not_kept { result ≡ Err (ActFault.Act SealFault.NotKept) → (s : Store) (h : Held) → Stands (planned plan.old) s
        → held s name.image ≡ Some h → h.version ≢ name.version }
    ensures not_next { (next : ℕ) → result ≡ Err (ActFault.Act (SealFault.NotNext next)) → (s : Store) (h : Held)
        → Stands (planned plan.old) s → held s name.image ≡ Some h → IsElsewhere name next h }
    ensures bad { (kept found : ℕ) → result ≡ Err (ActFault.Act (SealFault.Bad kept found)) → (s : Store) (h : Held)
        → Stands (planned plan.old) s → held s name.image ≡ Some h
        → (kept ≡ kept_crc h) × (found ≡ crc_of (its_page (planned plan.old) name)) × (found ≢ kept) }
    ensures unfit { result ≡ Err (ActFault.Act SealFault.Unfit) → (s : Store) (h : Held)
        → Stands (planned plan.old) s → held s name.image ≡ Some h
        → (name.page ≡ 0) × (may_seal name.image h (its_page (planned plan.old) name) ≡ false) }
    // what is refused leaves the plan unchanged
    ensures looked { (e : ActFault SealFault) → result ≡ Err e → e ≢ ActFault.Unread → e ≢ ActFault.Act SealFault.Stopped
        → Looked (plan_device plan.old) (plan_device plan.new) }
    ensures stopped { result ≡ Err (ActFault.Act SealFault.Stopped) → (s : Store) (h : Held) → Stands (planned plan.old) s
        → held s name.image ≡ Some h
        → Stops (sealing_trail s name.image h (its_page (planned plan.old) name)) (plan_device plan.old) (plan_device plan.new) }
{
    if name.image >= IMAGES as u8 {
        return Err(ActFault::OutOfRange);
    }
    let volume = match mount(plan) {
        Ok(volume) => volume,
        Err(fault) => return Err(fault),
    };
    match seal_next(plan, volume, name) {
        Ok(()) => Ok(()),
        Err(fault) => Err(ActFault::Act(fault)),
    }
}

/// Makes the next page of a slot complete, as it is there.
fn seal_next<N: Nor>(nor: &mut N, mut volume: Volume, name: PageName) -> Result<(), SealFault>
    requires known_image { name.image < images }
    requires mounted { IsMounted (N.device nor.old).image volume }
    requires free { NothingLent volume }
    ensures sealed { OnOk result ((s : Store) → Mounted (N.device nor.old).image volume s
        → (h : Held) × IsSealed name h (its_page (N.device nor.old).image name) s
        × Ran (operations (sealing_trail s name.image h (its_page (N.device nor.old).image name))) (N.device nor.old)
        (N.device nor.new)
        × Stands (N.device nor.new).image (last (sealing_trail s name.image h (its_page (N.device nor.old).image name)))) }
    ensures same_reference { (N.device nor.new).references ≡ (N.device nor.old).references }
    ensures not_kept { result ≡ Err SealFault.NotKept → (s : Store) (h : Held) → Mounted (N.device nor.old).image volume s
        → held s name.image ≡ Some h → h.version ≢ name.version }
    ensures not_next { (next : ℕ) → result ≡ Err (SealFault.NotNext next) → (s : Store) (h : Held)
        → Mounted (N.device nor.old).image volume s → held s name.image ≡ Some h → IsElsewhere name next h }
    ensures bad { (kept found : ℕ) → result ≡ Err (SealFault.Bad kept found) → (s : Store) (h : Held)
        → Mounted (N.device nor.old).image volume s → held s name.image ≡ Some h
        → (kept ≡ kept_crc h) × (found ≡ crc_of (its_page (N.device nor.old).image name)) × (found ≢ kept) }
    ensures unfit { result ≡ Err SealFault.Unfit → (s : Store) (h : Held)
        → Mounted (N.device nor.old).image volume s → held s name.image ≡ Some h
        → (name.page ≡ 0) × (may_seal name.image h (its_page (N.device nor.old).image name) ≡ false) }
    ensures looked { (e : SealFault) → result ≡ Err e → e ≢ SealFault.Stopped → Looked (N.device nor.old) (N.device nor.new) }
    ensures stopped { result ≡ Err SealFault.Stopped → (s : Store) (h : Held) → Mounted (N.device nor.old).image volume s
        → held s name.image ≡ Some h
        → Stops (sealing_trail s name.image h (its_page (N.device nor.old).image name)) (N.device nor.old) (N.device nor.new) }
{
    a_lent_slot_is_filled();
    a_slot_holds_its_sectors();
    packets_stand_in_their_sector();
    let slot = match volume.slot(name.image) {
        Some(slot) => slot,
        None => return Err(SealFault::NotKept),
    };
    if slot.profile().version != name.version {
        return Err(SealFault::NotKept);
    }
    let next = slot.done();
    if next != name.page {
        return Err(SealFault::NotNext { next });
    }
    if next == slot.profile().pages {
        return Err(SealFault::NotNext { next });
    }
    let job = slot.resume_page(PageBits::all());
    match job.seal(nor) {
        Ok(Sealing::Sealed(_)) => Ok(()),
        Ok(Sealing::Bad { kept, found, .. }) => Err(SealFault::Bad { kept, found }),
        Ok(Sealing::Unfit { .. }) => Err(SealFault::Unfit),
        Err(Stopped) => Err(SealFault::Stopped),
    }
}
