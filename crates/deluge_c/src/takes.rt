//! A slot that is taken, planned over a chip that C reads in place.
ghost use Rattle.std.specs.Prelude.{◌≡◌, ◌≢◌, ◌↔◌, ◌⊎◌, ◌≤◌, ◌<◌, Some, None, Err, OnOk, IfSome, length};
ghost use Rattle.dg_nor.specs.Sizes.{chip_size};
ghost use Rattle.dg_object.specs.Records.{outline_of};
ghost use Rattle.dg_volume.specs.Sizes.{images};
ghost use Rattle.dg_volume.specs.Store.{Store};
ghost use Rattle.dg_volume.specs.Stands.{Stands, IsNoVolume};
ghost use Rattle.dg_volume.specs.Changes.{take_refusal};
ghost use Rattle.dg_volume.specs.Trails.{take_trail};
ghost use Rattle.deluge_c.specs.Answers.{done, IsRefusal, take_answer};
ghost use Rattle.deluge_c.specs.Plans.{AreActOf, BeginActOf, outline_of_fields, IsProfile};

use crate::answers::{DONE, LENGTH, NO_VOLUME, RANGE, RESERVED, ROOM, STALE, WORN};
use dg_control::IMAGES;
use dg_nor::CHIP_SIZE;
use dg_object::{FEWEST_PAGES, MOST_PAGES, Profile};
use dg_plan::{ActFault, Command, Plan, take};
use dg_volume::TakeFault;

/// What is known of an image before any of its pages.
#[repr(C)]
#[derive(Clone, Copy)]
pub struct ProfileFields {
    pub version: u32,
    /// The CRC of page 0.
    pub crc: u16,
    pub image: u8,
    pub pages: u8,
}

/// Plans that the slot of an image is taken for a profile: at most 8 commands, which program 139 bytes.
#[unsafe(no_mangle)]
pub extern "C" fn deluge_plan_take(
    chip: &[u8],
    profile: &ProfileFields,
    commands: &mut [Command],
    bytes: &mut [u8],
    count: &mut usize,
) -> u32
    ensures planned { result ≡ done → (s : Store) → Stands chip.now s
        → AreActOf (take_trail s (outline_of_fields profile.now)) chip.now commands.new bytes.new count.new }
    ensures length { (result ≡ LENGTH) ↔ (length chip.now ≢ chip_size) }
    ensures range { result ≡ RANGE → IsProfile profile.now → ⊥ }
    ensures no_volume { result ≡ NO_VOLUME → IsNoVolume chip.now }
    ensures refused { IsRefusal result → (s : Store) → Stands chip.now s
        → (e : TakeFault) × (take_refusal s (outline_of_fields profile.now) ≡ Some e) × (result ≡ take_answer e) }
    ensures room { result ≡ ROOM → (s : Store) → Stands chip.now s → (count.new ≡ 0)
        ⊎ BeginActOf (take_trail s (outline_of_fields profile.now)) chip.now commands.new bytes.new count.new }
    ensures nothing { result ≢ done → result ≢ ROOM → count.new ≡ 0 }
{
    *count = 0;
    if chip.len() != CHIP_SIZE as usize {
        return LENGTH;
    }
    let Some(profile) = profile_in(profile) else {
        return RANGE;
    };
    let mut planned = 0;
    match plan_take(chip, &profile, commands, bytes, &mut planned) {
        Ok(()) => {
            *count = planned;
            DONE
        }
        Err(ActFault::Act(TakeFault::Stopped)) => {
            *count = planned;
            ROOM
        }
        Err(ActFault::Act(TakeFault::Reserved)) => RESERVED,
        Err(ActFault::Act(TakeFault::Stale { .. })) => STALE,
        Err(ActFault::Act(TakeFault::Worn { .. })) => WORN,
        Err(ActFault::NotAVolume) => NO_VOLUME,
        Err(ActFault::Unread) | Err(ActFault::OutOfRange) => ROOM,
    }
}

/// The profile of these fields, where there is one.
fn profile_in(fields: &ProfileFields) -> Option<Profile>
    ensures found { IfSome result (λ p. (outline_of p ≡ outline_of_fields fields.now) × (p.image < images)) }
    ensures none { result ≡ None → IsProfile fields.now → ⊥ }
{
    if usize::from(fields.image) >= IMAGES
        || fields.version == 0
        || fields.pages < FEWEST_PAGES
        || fields.pages > MOST_PAGES
    {
        return None;
    }
    Some(Profile {
        image: fields.image,
        version: fields.version,
        pages: fields.pages,
        crc: fields.crc,
    })
}

/// Plans a taking over a chip of the whole size.
fn plan_take(
    chip: &[u8],
    profile: &Profile,
    commands: &mut [Command],
    bytes: &mut [u8],
    count: &mut usize,
) -> Result<(), ActFault<TakeFault>>
    requires whole { length chip.now ≡ chip_size }
    requires known { profile.now.image < images }
    ensures planned { OnOk result ((s : Store) → Stands chip.now s
        → AreActOf (take_trail s (outline_of profile.now)) chip.now commands.new bytes.new count.new) }
    ensures no_volume { result ≡ Err ActFault.NotAVolume → IsNoVolume chip.now }
    ensures refused { (e : TakeFault) → result ≡ Err (ActFault.Act e) → e ≢ TakeFault.Stopped → (s : Store) → Stands chip.now s
        → take_refusal s (outline_of profile.now) ≡ Some e }
    ensures room { result ≡ Err (ActFault.Act TakeFault.Stopped) → (s : Store) → Stands chip.now s
        → BeginActOf (take_trail s (outline_of profile.now)) chip.now commands.new bytes.new count.new }
{
    let mut plan = Plan::new(chip, commands, bytes);
    let told = take(&mut plan, profile);
    *count = plan.count();
    told
}
