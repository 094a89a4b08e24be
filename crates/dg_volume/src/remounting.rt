//! A chip that is known to be an orderly volume is mounted again: its control is found by halving, and only the header of each
//! Live slot is read.
ghost use Rattle.std.specs.Prelude.{◌≡◌, ◌↔◌, ◌*◌, ◌<◌, ◌≤◌, ℕ, List, false, Option, None, OnOk, OnErr, IfOk, IsTrue};
ghost use Rattle.std.specs.Prelude.{slice_index_or};
ghost use Rattle.dg_nor.specs.Device.{Took};
ghost use Rattle.dg_nor.specs.Reads.{Looked, ReadStopped, ReadEnds};
ghost use Rattle.dg_control.specs.Mounted.{IsControlOf};
ghost use Rattle.dg_control.specs.Ranges.{slot_fits};
ghost use Rattle.dg_control.specs.Store.{IsOrderlyChip};
ghost use Rattle.dg_slot.specs.Kept.{Held, KeepsImage};
ghost use Rattle.dg_volume.specs.Sizes.{images};
ghost use Rattle.dg_volume.specs.Store.{Store};
ghost use Rattle.dg_volume.specs.Told.{told, told_held};
ghost use Rattle.dg_volume.specs.Stands.{Stands, IsVolume, NothingLent, Mounted, IsMounted, control_of};
ghost use Rattle.dg_volume.specs.Reading.{SlotKeeps};
ghost use Rattle.dg_volume.specs.Remount.{header_most, live, slots_live, RemountBytes};
ghost use Rattle.dg_control.specs.declared.snapshot.SlotState.TheVariants as slot_states;

use crate::mounting::kept_in;
use crate::volume::{Kept, Volume};
use dg_control::{Control, IMAGES, SlotState, Snapshot};
use dg_nor::{Nor, Stopped};
use dg_slot::OpenSlot;

impl Volume {
    /// Mounts again a chip that is known to be an orderly volume. It gives the value that `mount` gives, and reads less:
    /// neither pages nor program memory, and the control by halving.
    pub fn remount<N: Nor>(nor: &mut N) -> Result<Volume, Stopped>
        requires volume { IsVolume (N.device nor.old).image }
        requires orderly { IsOrderlyChip (N.device nor.old).image }
        ensures mounted { IfOk result (λ v. (s : Store) → Stands (N.device nor.old).image s
            → Mounted (N.device nor.old).image v s) }
        ensures volume { IfOk result (λ v. IsMounted (N.device nor.old).image v) }
        ensures free { IfOk result NothingLent }
        ensures same_image { (N.device nor.new).image ≡ (N.device nor.old).image }
        ensures same_reference { (N.device nor.new).references ≡ (N.device nor.old).references }
        ensures looked { OnOk result (Looked (N.device nor.old) (N.device nor.new)) }
        ensures awake { OnOk result ((N.device nor.old).stopped ≡ false) }
        ensures stopped { OnErr result (ReadStopped (N.device nor.old) (N.device nor.new)) }
        ensures took { (n : ℕ) → RemountBytes (N.device nor.old).image n → Took n (N.device nor.old) (N.device nor.new) }
    {
        let control = Control::remount(nor)?;
        let snapshot = control.now();
        let kept = remount_slots(nor, &snapshot)?;
        Ok(Volume {
            control,
            kept,
            lent: [false; IMAGES],
        })
    }

    /// Whether the chip may be mounted again by `remount`: in the control sector no blank place comes before one that is not
    /// blank.
    pub fn orderly(&self) -> bool
        ensures { (c : List ℕ) → IsControlOf c (control_of self.now) → IsTrue result ↔ IsOrderlyChip c }
    {
        self.control.orderly()
    }
}

/// What each slot keeps. It is known that each keeps what its state says.
fn remount_slots<N: Nor>(
    nor: &mut N,
    snapshot: &Snapshot,
) -> Result<[Option<Kept>; IMAGES], Stopped>
    requires keeps { (i : ℕ) → i < images → (h : Option Held)
        × SlotKeeps (N.device nor.old).image i (slice_index_or snapshot.now.slots i slot_states.Dirty) h }
    ensures kept { IfOk result (λ kept. (i : ℕ) → i < images → (h : Option Held)
        × SlotKeeps (N.device nor.old).image i (slice_index_or snapshot.now.slots i slot_states.Dirty) h
        × (slice_index_or kept i None ≡ told h)) }
    ensures awake { OnOk result (1 ≤ live (slice_index_or snapshot.now.slots 0 slot_states.Dirty)
        → (N.device nor.old).stopped ≡ false) }
    ensures ends { ReadEnds result (N.device nor.old) (N.device nor.new) }
    ensures took { Took (header_most * slots_live snapshot.now) (N.device nor.old) (N.device nor.new) }
{
    let mut kept = [None; IMAGES];
    for image in 0..IMAGES {
        kept[image] = remount_slot(nor, image as u8, snapshot.slots[image])?;
    }
    Ok(kept)
}

/// What a slot keeps. It is known that it keeps what its state says.
fn remount_slot<N: Nor>(nor: &mut N, image: u8, slot: SlotState) -> Result<Option<Kept>, Stopped>
    requires known_image { image < images }
    requires in_range { IsTrue (slot_fits slot) }
    requires keeps { (h : Option Held) × SlotKeeps (N.device nor.old).image image slot h }
    ensures kept { IfOk result (λ k. (h : Option Held) × SlotKeeps (N.device nor.old).image image slot h × (k ≡ told h)) }
    ensures awake { OnOk result (1 ≤ live slot → (N.device nor.old).stopped ≡ false) }
    ensures ends { ReadEnds result (N.device nor.old) (N.device nor.new) }
    ensures took { Took (header_most * live slot) (N.device nor.old) (N.device nor.new) }
{
    match slot {
        SlotState::Dirty => Ok(None),
        SlotState::Live { version } => Ok(Some(remount_live(nor, image, version)?)),
    }
}

/// What a slot that is known to be Live with this version keeps.
fn remount_live<N: Nor>(nor: &mut N, image: u8, version: u32) -> Result<Kept, Stopped>
    requires known_image { image < images }
    requires some_version { 1 ≤ version }
    requires keeps { (h : Held) × (h.version ≡ version) × KeepsImage (N.device nor.old).image image h }
    ensures kept { IfOk result (λ k. (h : Held) × (h.version ≡ version) × KeepsImage (N.device nor.old).image image h
        × (k ≡ told_held h)) }
    ensures awake { OnOk result ((N.device nor.old).stopped ≡ false) }
    ensures ends { ReadEnds result (N.device nor.old) (N.device nor.new) }
    ensures took { Took header_most (N.device nor.old) (N.device nor.new) }
{
    let slot = OpenSlot::remount(nor, image, version)?;
    Ok(kept_in(&slot))
}
