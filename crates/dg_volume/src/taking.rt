//! A slot is taken: what was kept there is given up, and an image is begun.
ghost use Rattle.std.specs.Prelude.{◌≡◌, ◌≢◌, ℕ, ◌+◌, ◌<◌, ◌≤◌, true, false, Option, Some, None, Err, OnOk, OnErr, IfOk, IfSome};
ghost use Rattle.std.specs.Prelude.{IfNone, IsNone, IsErrOf};
ghost use Rattle.dg_nor.specs.Chip.{Touches};
ghost use Rattle.dg_object.specs.Object.{Outline};
ghost use Rattle.dg_object.specs.Records.{outline_of};
ghost use Rattle.dg_slot.specs.Layout.{header_sector, slot_end};
ghost use Rattle.dg_slot.specs.Kept.{Held, KeepsImage, held_begun};
ghost use Rattle.dg_slot.specs.Jobs.{IsOpen, outline_of_slot};
ghost use Rattle.dg_volume.specs.Sizes.{images, control_sectors, most_take_commits, new_form};
ghost use Rattle.dg_volume.specs.Store.{Store};
ghost use Rattle.dg_volume.specs.Told.{told, told_held};
ghost use Rattle.dg_volume.specs.Stands.{form_of, room_of, kept_at, is_lent, Mounted, IsMounted, Tells};
ghost use Rattle.dg_volume.specs.Changes.{spent, keeping, take_refusal, UnlessTakeRefused};
ghost use Rattle.dg_volume.specs.Trails.{committing, drop_trail, open_trail, take_trail};
ghost use Rattle.dg_volume.specs.Acts.{Acted, Stops, TouchesBut};
ghost use Rattle.dg_volume.specs.declared.volume.TakeFault.TheVariants as take_faults;
ghost use Rattle.dg_control.specs.declared.snapshot.SlotState.TheVariants as slot_states;

use crate::layout::GOLDEN;
use crate::volume::{Kept, TakeFault, Volume};
use dg_control::SlotState;
use dg_nor::{Nor, Stopped};
use dg_object::Profile;
use dg_slot::{DirtySlot, OpenSlot};

/// The commits of a take if the slot is Live: it becomes Dirty, and then Live.
pub const TAKE_COMMITS: u32 = 2;

impl Volume {
    /// Takes the slot of an image for a profile, of which no page is complete. The slot is lent.
    ///
    /// Refusals are checked in this order: `Reserved` for golden, `Stale` if this version or a larger one is kept, `Worn` if
    /// fewer than 2 commits are left. A refused take changes nothing.
    pub fn take<N: Nor>(
        &mut self,
        nor: &mut N,
        image: u8,
        profile: &Profile,
    ) -> Result<OpenSlot, TakeFault>
        requires mounted { IsMounted (N.device nor.old).image self.old }
        requires known_image { image < images }
        requires names_it { profile.now.image ≡ image }
        requires not_lent { is_lent self.old image ≡ false }
        ensures acted { OnOk result ((s : Store) → Mounted (N.device nor.old).image self.old s
            → Acted (take_trail s (outline_of profile.now)) (N.device nor.old) (N.device nor.new) self.new) }
        ensures open { IfOk result (λ o. (outline_of_slot o ≡ outline_of profile.now)
            × IsOpen (N.device nor.new).image o (held_begun (outline_of profile.now)) × (is_lent self.new image ≡ true)) }
        ensures form { OnOk result (form_of self.new ≡ new_form) }
        ensures awake { OnOk result ((N.device nor.old).stopped ≡ false) }
        ensures others { (i : ℕ) → i ≢ image → is_lent self.new i ≡ is_lent self.old i }
        ensures same_reference { (N.device nor.new).references ≡ (N.device nor.old).references }
        ensures allowed { (s : Store) → Mounted (N.device nor.old).image self.old s
            → UnlessTakeRefused result (take_refusal s (outline_of profile.now)) }
        ensures refused { (e : TakeFault) → result ≡ Err e → e ≢ TakeFault.Stopped → (s : Store)
            → Mounted (N.device nor.old).image self.old s
            → take_refusal s (outline_of profile.now) ≡ Some e }
        ensures unchanged { (e : TakeFault) → result ≡ Err e → e ≢ TakeFault.Stopped
            → (N.device nor.new ≡ N.device nor.old) × (self.new ≡ self.old) }
        ensures touches { TouchesBut (header_sector image) (slot_end image) (N.device nor.old).image (N.device nor.new).image }
        ensures stopped { IsErrOf result TakeFault.Stopped → (s : Store) → Mounted (N.device nor.old).image self.old s
            → Stops (take_trail s (outline_of profile.now)) (N.device nor.old) (N.device nor.new) }
    {
        match self.take_fault(image, profile.version) {
            Some(fault) => Err(fault),
            None => Ok(self.replace(nor, profile)?),
        }
    }

    /// Why a take is refused.
    fn take_fault(&self, image: u8, version: u32) -> Option<TakeFault>
        requires known_image { image < images }
        ensures refusal { (s : Store) (p : Outline) → Tells self.now s → p.image ≡ image → p.version ≡ version
            → result ≡ take_refusal s p }
        ensures not_stopped { result ≢ Some take_faults.Stopped }
        ensures not_golden { IsNone result → 1 ≤ image }
        ensures room { IsNone result → most_take_commits ≤ room_of self.now }
    {
        if image == GOLDEN {
            return Some(TakeFault::Reserved);
        }
        if let Some(kept) = self.kept(image)
            && version <= kept.version
        {
            return Some(TakeFault::Stale { kept: kept.version });
        }
        let room = self.room();
        if room < TAKE_COMMITS {
            return Some(TakeFault::Worn { room });
        }
        None
    }

    /// Takes the slot of an image. The take is not refused.
    pub(crate) fn replace<N: Nor>(
        &mut self,
        nor: &mut N,
        profile: &Profile,
    ) -> Result<OpenSlot, Stopped>
        requires mounted { IsMounted (N.device nor.old).image self.old }
        requires not_golden { 1 ≤ profile.now.image }
        requires known_image { profile.now.image < images }
        requires room { most_take_commits ≤ room_of self.old }
        ensures acted { OnOk result ((s : Store) → Mounted (N.device nor.old).image self.old s
            → Acted (take_trail s (outline_of profile.now)) (N.device nor.old) (N.device nor.new) self.new) }
        ensures open { IfOk result (λ o. (outline_of_slot o ≡ outline_of profile.now)
            × IsOpen (N.device nor.new).image o (held_begun (outline_of profile.now))
            × (is_lent self.new profile.now.image ≡ true)) }
        ensures form { OnOk result (form_of self.new ≡ new_form) }
        ensures awake { OnOk result ((N.device nor.old).stopped ≡ false) }
        ensures others { (i : ℕ) → i ≢ profile.now.image → is_lent self.new i ≡ is_lent self.old i }
        ensures same_reference { (N.device nor.new).references ≡ (N.device nor.old).references }
        ensures touches { TouchesBut (header_sector profile.now.image) (slot_end profile.now.image) (N.device nor.old).image
            (N.device nor.new).image }
        ensures stopped { OnErr result ((s : Store) → Mounted (N.device nor.old).image self.old s
            → Stops (take_trail s (outline_of profile.now)) (N.device nor.old) (N.device nor.new)) }
    {
        self.give_up(nor, profile.image)?;
        self.begin(nor, profile)
    }

    /// Commits a slot as Dirty, if it is Live.
    fn give_up<N: Nor>(&mut self, nor: &mut N, image: u8) -> Result<(), Stopped>
        requires mounted { IsMounted (N.device nor.old).image self.old }
        requires not_golden { 1 ≤ image }
        requires known_image { image < images }
        requires room { 1 ≤ room_of self.old }
        ensures acted { OnOk result ((s : Store) → Mounted (N.device nor.old).image self.old s
            → Acted (drop_trail s image) (N.device nor.old) (N.device nor.new) self.new) }
        ensures none { OnOk result (kept_at self.new image ≡ None) }
        ensures room { OnOk result (room_of self.old ≤ room_of self.new + 1) }
        ensures lent { (i : ℕ) → is_lent self.new i ≡ is_lent self.old i }
        ensures same_reference { (N.device nor.new).references ≡ (N.device nor.old).references }
        ensures touches { Touches 0 control_sectors (N.device nor.old).image (N.device nor.new).image }
        ensures awake { OnOk result ((N.device nor.new).stopped ≡ (N.device nor.old).stopped) }
        ensures stopped { OnErr result ((s : Store) → Mounted (N.device nor.old).image self.old s
            → Stops (drop_trail s image) (N.device nor.old) (N.device nor.new)) }
    {
        if self.kept(image).is_none() {
            return Ok(());
        }
        self.commit_kept(nor, image, None)
    }

    /// Writes the header of a Dirty slot, and commits it as Live. The slot is lent.
    fn begin<N: Nor>(&mut self, nor: &mut N, profile: &Profile) -> Result<OpenSlot, Stopped>
        requires mounted { IsMounted (N.device nor.old).image self.old }
        requires not_golden { 1 ≤ profile.now.image }
        requires known_image { profile.now.image < images }
        requires dirty { kept_at self.old profile.now.image ≡ None }
        requires room { 1 ≤ room_of self.old }
        ensures acted { OnOk result ((s : Store) → Mounted (N.device nor.old).image self.old s
            → Acted (open_trail s (outline_of profile.now)) (N.device nor.old) (N.device nor.new) self.new) }
        ensures open { IfOk result (λ o. (outline_of_slot o ≡ outline_of profile.now)
            × IsOpen (N.device nor.new).image o (held_begun (outline_of profile.now))
            × (is_lent self.new profile.now.image ≡ true)) }
        ensures form { OnOk result (form_of self.new ≡ new_form) }
        ensures awake { OnOk result ((N.device nor.old).stopped ≡ false) }
        ensures others { (i : ℕ) → i ≢ profile.now.image → is_lent self.new i ≡ is_lent self.old i }
        ensures same_reference { (N.device nor.new).references ≡ (N.device nor.old).references }
        ensures touches { TouchesBut (header_sector profile.now.image) (slot_end profile.now.image) (N.device nor.old).image
            (N.device nor.new).image }
        ensures stopped { OnErr result ((s : Store) → Mounted (N.device nor.old).image self.old s
            → Stops (open_trail s (outline_of profile.now)) (N.device nor.old) (N.device nor.new)) }
    {
        let image = profile.image;
        let slot = DirtySlot::new(image).prepare(nor, profile)?;
        self.commit_kept(nor, image, Some(begun(profile)))?;
        self.lent[usize::from(image)] = true;
        Ok(slot)
    }

    /// Commits what is kept of an image. It is in the slot already.
    fn commit_kept<N: Nor>(
        &mut self,
        nor: &mut N,
        image: u8,
        kept: Option<Kept>,
    ) -> Result<(), Stopped>
        requires mounted { IsMounted (N.device nor.old).image self.old }
        requires not_golden { 1 ≤ image }
        requires known_image { image < images }
        requires some_version { IfSome kept (λ k. 1 ≤ k.version) }
        requires room { 1 ≤ room_of self.old }
        ensures acted { OnOk result ((s : Store) (h : Option Held) → Mounted (N.device nor.old).image self.old s → told h ≡ kept
            → IfSome h (KeepsImage (N.device nor.old).image image)
            → Acted (committing s (keeping image h (spent s))) (N.device nor.old) (N.device nor.new) self.new) }
        ensures kept { OnOk result (kept_at self.new image ≡ kept) }
        ensures room { OnOk result (room_of self.new + 1 ≡ room_of self.old) }
        ensures lent { (i : ℕ) → is_lent self.new i ≡ is_lent self.old i }
        ensures form { OnOk result (form_of self.new ≡ new_form) }
        ensures awake { OnOk result ((N.device nor.old).stopped ≡ false) }
        ensures still { OnOk result ((N.device nor.new).stopped ≡ (N.device nor.old).stopped) }
        ensures same_reference { (N.device nor.new).references ≡ (N.device nor.old).references }
        ensures touches { Touches 0 control_sectors (N.device nor.old).image (N.device nor.new).image }
        ensures stopped { OnErr result ((s : Store) (h : Option Held) → Mounted (N.device nor.old).image self.old s
            → told h ≡ kept
            → IfSome h (KeepsImage (N.device nor.old).image image)
            → Stops (committing s (keeping image h (spent s))) (N.device nor.old) (N.device nor.new)) }
    {
        let next = self.control.now().with_slot(image, slot_state(&kept));
        self.control.keep(nor, next)?;
        self.set_kept(image, kept);
        Ok(())
    }

    fn set_kept(&mut self, image: u8, kept: Option<Kept>)
        requires { image < images }
        ensures kept { kept_at self.new image ≡ kept }
        ensures others { (i : ℕ) → i ≢ image → kept_at self.new i ≡ kept_at self.old i }
        ensures control { self.new.control ≡ self.old.control }
        ensures lent { self.new.lent ≡ self.old.lent }
    {
        self.kept[usize::from(image)] = kept;
    }
}

/// What is reported of an image of which no page is complete yet.
fn begun(profile: &Profile) -> Kept
    ensures { result ≡ told_held (held_begun (outline_of profile.now)) }
{
    Kept {
        version: profile.version,
        pages: profile.pages,
        done: 0,
        crc: profile.crc,
    }
}

/// The state of a slot, for what is kept in it.
fn slot_state(kept: &Option<Kept>) -> SlotState
    ensures dirty { IfNone kept.now (result ≡ slot_states.Dirty) }
    ensures live { IfSome kept.now (λ k. result ≡ slot_states.Live k.version) }
{
    match kept {
        None => SlotState::Dirty,
        Some(kept) => SlotState::Live {
            version: kept.version,
        },
    }
}
