//! A page whose packets are all there, planned to be made complete over a chip that C reads in place.
ghost use Rattle.std.specs.Prelude.{◌≡◌, ◌≢◌, ◌↔◌, ◌⊎◌, ◌≤◌, ℕ, false, Some, Err, OnOk, length};
ghost use Rattle.dg_base.specs.Crc.{crc_of};
ghost use Rattle.dg_nor.specs.Sizes.{chip_size};
ghost use Rattle.dg_slot.specs.Kept.{Held, kept_crc};
ghost use Rattle.dg_slot.specs.Fits.{may_seal};
ghost use Rattle.dg_volume.specs.Sizes.{images};
ghost use Rattle.dg_volume.specs.Store.{Store, held};
ghost use Rattle.dg_volume.specs.Stands.{Stands, IsNoVolume};
ghost use Rattle.dg_volume.specs.Trails.{sealing_trail};
ghost use Rattle.dg_plan.specs.Packets.{its_page, IsElsewhere, IsSealed};
ghost use Rattle.deluge_c.specs.Answers.{done};
ghost use Rattle.deluge_c.specs.Plans.{AreActOf, BeginActOf, page_name};

use crate::answers::{CHECK, DONE, LENGTH, NO_VOLUME, NOT_KEPT, NOT_NEXT, RANGE, ROOM, UNFIT};
use dg_nor::CHIP_SIZE;
use dg_plan::{ActFault, Command, PageName, Plan, SealFault, seal};

/// Plans that the next page of an image is made complete, as it is on the chip: 1 command, which programs 1 byte. The chip is
/// mounted, and the page is compared with what is kept of it.
#[unsafe(no_mangle)]
pub extern "C" fn deluge_plan_seal(
    chip: &[u8],
    image: u8,
    version: u32,
    page: u8,
    commands: &mut [Command],
    bytes: &mut [u8],
    count: &mut usize,
) -> u32
    ensures planned { result ≡ done → (s : Store) → Stands chip.now s
        → (h : Held) × IsSealed (page_name image version page) h (its_page chip.now (page_name image version page)) s
        × AreActOf (sealing_trail s image h (its_page chip.now (page_name image version page))) chip.now commands.new bytes.new
        count.new }
    ensures length { (result ≡ LENGTH) ↔ (length chip.now ≢ chip_size) }
    ensures range { result ≡ RANGE → images ≤ image }
    ensures no_volume { result ≡ NO_VOLUME → IsNoVolume chip.now }
    ensures not_kept { result ≡ NOT_KEPT → (s : Store) (h : Held) → Stands chip.now s → held s image ≡ Some h
        → h.version ≢ version }
    ensures not_next { result ≡ NOT_NEXT → (s : Store) (h : Held) → Stands chip.now s → held s image ≡ Some h
        → (next : ℕ) × IsElsewhere (page_name image version page) next h }
    ensures bad { result ≡ CHECK → (s : Store) (h : Held) → Stands chip.now s → held s image ≡ Some h
        → crc_of (its_page chip.now (page_name image version page)) ≢ kept_crc h }
    ensures unfit { result ≡ UNFIT → (s : Store) (h : Held) → Stands chip.now s → held s image ≡ Some h
        → (page ≡ 0) × (may_seal image h (its_page chip.now (page_name image version page)) ≡ false) }
    ensures room { result ≡ ROOM → (s : Store) (h : Held) → Stands chip.now s → held s image ≡ Some h → (count.new ≡ 0)
        ⊎ BeginActOf (sealing_trail s image h (its_page chip.now (page_name image version page))) chip.now commands.new
        bytes.new count.new }
    ensures nothing { result ≢ done → result ≢ ROOM → count.new ≡ 0 }
{
    *count = 0;
    if chip.len() != CHIP_SIZE as usize {
        return LENGTH;
    }
    let name = PageName {
        image,
        version,
        page,
    };
    let mut planned = 0;
    match plan_seal(chip, name, commands, bytes, &mut planned) {
        Ok(()) => {
            *count = planned;
            DONE
        }
        Err(ActFault::Act(SealFault::Stopped)) => {
            *count = planned;
            ROOM
        }
        Err(ActFault::Act(SealFault::NotKept)) => NOT_KEPT,
        Err(ActFault::Act(SealFault::NotNext { .. })) => NOT_NEXT,
        Err(ActFault::Act(SealFault::Bad { .. })) => CHECK,
        Err(ActFault::Act(SealFault::Unfit)) => UNFIT,
        Err(ActFault::OutOfRange) => RANGE,
        Err(ActFault::NotAVolume) => NO_VOLUME,
        Err(ActFault::Unread) => ROOM,
    }
}

/// Plans a seal over a chip of the whole size.
fn plan_seal(
    chip: &[u8],
    name: PageName,
    commands: &mut [Command],
    bytes: &mut [u8],
    count: &mut usize,
) -> Result<(), ActFault<SealFault>>
    requires { length chip.now ≡ chip_size }
    ensures planned { OnOk result ((s : Store) → Stands chip.now s
        → (h : Held) × IsSealed name h (its_page chip.now name) s
        × AreActOf (sealing_trail s name.image h (its_page chip.now name)) chip.now commands.new bytes.new count.new) }
    ensures range { result ≡ Err ActFault.OutOfRange → images ≤ name.image }
    ensures no_volume { result ≡ Err ActFault.NotAVolume → IsNoVolume chip.now }
    ensures not_kept { result ≡ Err (ActFault.Act SealFault.NotKept) → (s : Store) (h : Held) → Stands chip.now s
        → held s name.image ≡ Some h → h.version ≢ name.version }
    ensures not_next { (next : ℕ) → result ≡ Err (ActFault.Act (SealFault.NotNext next)) → (s : Store) (h : Held)
        → Stands chip.now s → held s name.image ≡ Some h → IsElsewhere name next h }
    ensures bad { (kept found : ℕ) → result ≡ Err (ActFault.Act (SealFault.Bad kept found)) → (s : Store) (h : Held)
        → Stands chip.now s → held s name.image ≡ Some h → crc_of (its_page chip.now name) ≢ kept_crc h }
    ensures unfit { result ≡ Err (ActFault.Act SealFault.Unfit) → (s : Store) (h : Held) → Stands chip.now s
        → held s name.image ≡ Some h → (name.page ≡ 0) × (may_seal name.image h (its_page chip.now name) ≡ false) }
    ensures room { result ≡ Err (ActFault.Act SealFault.Stopped) → (s : Store) (h : Held) → Stands chip.now s
        → held s name.image ≡ Some h
        → BeginActOf (sealing_trail s name.image h (its_page chip.now name)) chip.now commands.new bytes.new count.new }
{
    let mut plan = Plan::new(chip, commands, bytes);
    let told = seal(&mut plan, name);
    *count = plan.count();
    told
}
