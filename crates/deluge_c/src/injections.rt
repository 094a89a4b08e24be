//! An injection, planned over a chip that C reads in place.
ghost use Rattle.std.specs.Prelude.{◌≡◌, ◌≢◌, ◌↔◌, ◌⊎◌, ◌≤◌, false, Some, Err, OnOk, length};
ghost use Rattle.dg_base.specs.Texts.{spells_name};
ghost use Rattle.dg_nor.specs.Sizes.{chip_size};
ghost use Rattle.dg_object.specs.Object.{row_of};
ghost use Rattle.dg_volume.specs.Sizes.{images};
ghost use Rattle.dg_volume.specs.Store.{Store};
ghost use Rattle.dg_volume.specs.Stands.{Stands, IsNoVolume};
ghost use Rattle.dg_volume.specs.Changes.{inject_refusal};
ghost use Rattle.dg_volume.specs.Trails.{inject_trail};
ghost use Rattle.deluge_c.specs.Answers.{done, IsRefusal, inject_answer};
ghost use Rattle.deluge_c.specs.Plans.{AreActOf, BeginActOf};

use crate::answers::{
    DONE, EMPTY, LENGTH, NO_VOLUME, RANGE, RESERVED, ROOM, STALE, TAKEN, TOO_LARGE, WORN,
};
use dg_nor::CHIP_SIZE;
use dg_plan::{ActFault, Command, Plan, inject};
use dg_volume::{InjectFault, Injected};

/// Plans that an image is kept whole, in place of an older version of it. A version that is kept in part is resumed at its next
/// page. One of 65 pages has 3,258 commands at most, which program 71,964 bytes. A list with less room is a prefix. Whoever
/// carries it out and plans again gets further if a page has room, which is 50 commands and 1,105 bytes.
#[unsafe(no_mangle)]
pub extern "C" fn deluge_plan_inject(
    chip: &[u8],
    image: u8,
    version: u32,
    name: &[u8],
    content: &[u8],
    commands: &mut [Command],
    bytes: &mut [u8],
    count: &mut usize,
) -> u32
    ensures planned { result ≡ done → (s : Store) → Stands chip.now s
        → AreActOf (inject_trail s (row_of image version name.now content.now)) chip.now commands.new bytes.new count.new }
    ensures length { (result ≡ LENGTH) ↔ (length chip.now ≢ chip_size) }
    ensures range { result ≡ RANGE → (images ≤ image) ⊎ (version ≡ 0) ⊎ (spells_name name.now ≡ false) }
    ensures no_volume { result ≡ NO_VOLUME → IsNoVolume chip.now }
    ensures refused { IsRefusal result → (s : Store) → Stands chip.now s → (e : InjectFault)
        × (inject_refusal s (row_of image version name.now content.now) ≡ Some e) × (result ≡ inject_answer e) }
    ensures room { result ≡ ROOM → (s : Store) → Stands chip.now s → (count.new ≡ 0) ⊎ BeginActOf
        (inject_trail s (row_of image version name.now content.now)) chip.now commands.new bytes.new count.new }
    ensures nothing { result ≢ done → result ≢ ROOM → count.new ≡ 0 }
{
    *count = 0;
    if chip.len() != CHIP_SIZE as usize {
        return LENGTH;
    }
    let mut planned = 0;
    match plan_inject(
        chip,
        image,
        version,
        name,
        content,
        commands,
        bytes,
        &mut planned,
    ) {
        Ok(_) => {
            *count = planned;
            DONE
        }
        Err(ActFault::Act(InjectFault::Stopped)) => {
            *count = planned;
            ROOM
        }
        Err(ActFault::Act(InjectFault::Empty)) => EMPTY,
        Err(ActFault::Act(InjectFault::TooLarge)) => TOO_LARGE,
        Err(ActFault::Act(InjectFault::Stale { .. })) => STALE,
        Err(ActFault::Act(InjectFault::Reserved)) => RESERVED,
        Err(ActFault::Act(InjectFault::Taken)) => TAKEN,
        Err(ActFault::Act(InjectFault::Worn { .. })) => WORN,
        Err(ActFault::OutOfRange) => RANGE,
        Err(ActFault::NotAVolume) => NO_VOLUME,
        Err(ActFault::Unread) => ROOM,
    }
}

/// Plans an injection over a chip of the whole size.
fn plan_inject(
    chip: &[u8],
    image: u8,
    version: u32,
    name: &[u8],
    content: &[u8],
    commands: &mut [Command],
    bytes: &mut [u8],
    count: &mut usize,
) -> Result<Injected, ActFault<InjectFault>>
    requires { length chip.now ≡ chip_size }
    ensures planned { OnOk result ((s : Store) → Stands chip.now s
        → AreActOf (inject_trail s (row_of image version name.now content.now)) chip.now commands.new bytes.new count.new) }
    ensures range { result ≡ Err ActFault.OutOfRange → (images ≤ image) ⊎ (version ≡ 0) ⊎ (spells_name name.now ≡ false) }
    ensures no_volume { result ≡ Err ActFault.NotAVolume → IsNoVolume chip.now }
    ensures refused { (e : InjectFault) → result ≡ Err (ActFault.Act e) → e ≢ InjectFault.Stopped → (s : Store)
        → Stands chip.now s → inject_refusal s (row_of image version name.now content.now) ≡ Some e }
    ensures room { result ≡ Err (ActFault.Act InjectFault.Stopped) → (s : Store) → Stands chip.now s → BeginActOf
        (inject_trail s (row_of image version name.now content.now)) chip.now commands.new bytes.new count.new }
{
    let mut plan = Plan::new(chip, commands, bytes);
    let told = inject(&mut plan, image, version, name, content);
    *count = plan.count();
    told
}
