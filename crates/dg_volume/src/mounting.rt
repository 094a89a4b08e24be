//! A chip is mounted: its control, what its slots keep, and the descriptor in program memory.
ghost use Rattle.std.specs.Prelude.{◌≡◌, ◌↔◌, ◌<◌, ◌≤◌, ℕ, true, false, Option, None, Ok, OnOk, IfOk, IsErrOf, IsTrue, IsSomeAnd};
ghost use Rattle.std.specs.Prelude.{slice_index_or, length};
ghost use Rattle.dg_nor.specs.Reads.{Looked, ReadStopped};
ghost use Rattle.dg_control.specs.Ranges.{slot_fits};
ghost use Rattle.dg_slot.specs.Kept.{Held, KeepsImage};
ghost use Rattle.dg_slot.specs.Jobs.{Opens};
ghost use Rattle.dg_volume.specs.Sizes.{images, golden_version};
ghost use Rattle.dg_volume.specs.Store.{Store, App};
ghost use Rattle.dg_volume.specs.Told.{told, told_held};
ghost use Rattle.dg_volume.specs.Stands.{Stands, IsNoVolume, NothingLent, Mounted, IsMounted};
ghost use Rattle.dg_volume.specs.Reading.{MountEnds, SlotKeeps, ProgramHolds};
ghost use Rattle.dg_control.specs.declared.snapshot.SlotState.TheVariants as slot_states;

use crate::layout::PROGRAM;
use crate::volume::{Kept, MountFault, Volume};
use dg_control::{Control, GOLDEN_VERSION, IMAGES, Program, SlotState, Snapshot};
use dg_nor::Nor;
use dg_slot::{OpenSlot, find_descriptor};

impl Volume {
    /// Mounts a chip, whatever its bytes are.
    pub fn mount<N: Nor>(nor: &mut N) -> Result<Volume, MountFault>
        ensures mounted { IfOk result (λ v. (s : Store) → Stands (N.device nor.old).image s
            → Mounted (N.device nor.old).image v s) }
        ensures volume { IfOk result (λ v. IsMounted (N.device nor.old).image v) }
        ensures free { IfOk result NothingLent }
        ensures not_a_volume { IsErrOf result MountFault.NotAVolume → IsNoVolume (N.device nor.old).image }
        ensures same_image { (N.device nor.new).image ≡ (N.device nor.old).image }
        ensures same_reference { (N.device nor.new).references ≡ (N.device nor.old).references }
        ensures looked { OnOk result (Looked (N.device nor.old) (N.device nor.new)) }
        ensures awake { OnOk result ((N.device nor.old).stopped ≡ false) }
        ensures refused { IsErrOf result MountFault.NotAVolume → Looked (N.device nor.old) (N.device nor.new) }
        ensures stopped { IsErrOf result MountFault.Stopped → ReadStopped (N.device nor.old) (N.device nor.new) }
    {
        let control = Control::mount(nor)?;
        let snapshot = control.now();
        let kept = mount_slots(nor, &snapshot)?;
        if !is_golden(&kept[0]) {
            return Err(MountFault::NotAVolume);
        }
        mount_program(nor, snapshot.program)?;
        Ok(Volume {
            control,
            kept,
            lent: [false; IMAGES],
        })
    }
}

/// Whether this is golden: it has golden's version, and is whole.
fn is_golden(kept: &Option<Kept>) -> bool
    ensures { IsTrue result ↔ IsSomeAnd kept.now (λ k. (k.version ≡ golden_version) × (k.done ≡ k.pages)) }
{
    match kept {
        None => false,
        Some(kept) => kept.version == GOLDEN_VERSION && kept.done == kept.pages,
    }
}

/// What each slot keeps.
fn mount_slots<N: Nor>(
    nor: &mut N,
    snapshot: &Snapshot,
) -> Result<[Option<Kept>; IMAGES], MountFault>
    ensures kept { IfOk result (λ kept. (i : ℕ) → i < images → (h : Option Held)
        × SlotKeeps (N.device nor.old).image i (slice_index_or snapshot.now.slots i slot_states.Dirty) h
        × (slice_index_or kept i None ≡ told h)) }
    ensures none { IsErrOf result MountFault.NotAVolume → (i : ℕ) × (i < images)
        × ((h : Option Held) → SlotKeeps (N.device nor.old).image i (slice_index_or snapshot.now.slots i slot_states.Dirty) h
        → ⊥) }
    ensures ends { MountEnds result (N.device nor.old) (N.device nor.new) }
{
    let mut kept = [None; IMAGES];
    for image in 0..IMAGES {
        kept[image] = mount_slot(nor, image as u8, snapshot.slots[image])?;
    }
    Ok(kept)
}

/// What a slot keeps.
fn mount_slot<N: Nor>(nor: &mut N, image: u8, slot: SlotState) -> Result<Option<Kept>, MountFault>
    requires known_image { image < images }
    requires in_range { IsTrue (slot_fits slot) }
    ensures kept { IfOk result (λ k. (h : Option Held) × SlotKeeps (N.device nor.old).image image slot h × (k ≡ told h)) }
    ensures none { IsErrOf result MountFault.NotAVolume → (h : Option Held) → SlotKeeps (N.device nor.old).image image slot h
        → ⊥ }
    ensures ends { MountEnds result (N.device nor.old) (N.device nor.new) }
{
    match slot {
        SlotState::Dirty => Ok(None),
        SlotState::Live { version } => Ok(Some(mount_live(nor, image, version)?)),
    }
}

/// What a slot that is Live with this version keeps.
fn mount_live<N: Nor>(nor: &mut N, image: u8, version: u32) -> Result<Kept, MountFault>
    requires known_image { image < images }
    requires some_version { 1 ≤ version }
    ensures kept { IfOk result (λ k. (h : Held) × (h.version ≡ version) × KeepsImage (N.device nor.old).image image h
        × (k ≡ told_held h)) }
    ensures none { IsErrOf result MountFault.NotAVolume → (h : Held) → h.version ≡ version
        → KeepsImage (N.device nor.old).image image h → ⊥ }
    ensures ends { MountEnds result (N.device nor.old) (N.device nor.new) }
{
    match OpenSlot::mount(nor, image, version)? {
        Some(slot) => Ok(kept_in(&slot)),
        None => Err(MountFault::NotAVolume),
    }
}

/// What an open slot reports of its image.
pub(crate) fn kept_in(slot: &OpenSlot) -> Kept
    ensures { (h : Held) → Opens slot.now h → result ≡ told_held h }
{
    let profile = slot.profile();
    Kept {
        version: profile.version,
        pages: profile.pages,
        done: slot.done(),
        crc: profile.crc,
    }
}

/// Checks that program memory, if it is Set, begins with its descriptor.
fn mount_program<N: Nor>(nor: &mut N, program: Program) -> Result<(), MountFault>
    ensures app { OnOk result ((app : Option App) × ProgramHolds (N.device nor.old).image program app) }
    ensures none { IsErrOf result MountFault.NotAVolume → (app : Option App)
        → ProgramHolds (N.device nor.old).image program app → ⊥ }
    ensures ends { MountEnds result (N.device nor.old) (N.device nor.new) }
{
    let Program::Set { image, version } = program else {
        return Ok(());
    };
    let Some(descriptor) = find_descriptor(nor, PROGRAM)? else {
        return Err(MountFault::NotAVolume);
    };
    if descriptor.image == image && descriptor.version == version {
        Ok(())
    } else {
        Err(MountFault::NotAVolume)
    }
}
