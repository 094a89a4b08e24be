//! What a chip that C reads in place keeps of an image.
ghost use Rattle.std.specs.Prelude.{◌≡◌, ◌≢◌, ◌↔◌, ◌≤◌, Some, None, length};
ghost use Rattle.dg_nor.specs.Sizes.{chip_size};
ghost use Rattle.dg_slot.specs.Kept.{Held};
ghost use Rattle.dg_volume.specs.Sizes.{images};
ghost use Rattle.dg_volume.specs.Store.{Store, held};
ghost use Rattle.dg_volume.specs.Stands.{Stands, IsNoVolume};
ghost use Rattle.deluge_c.specs.Answers.{done};
ghost use Rattle.deluge_c.specs.Plans.{TellsHeld};

use crate::answers::{DONE, LENGTH, NO_VOLUME, NOT_KEPT, RANGE, ROOM};
use dg_control::IMAGES;
use dg_nor::CHIP_SIZE;
use dg_plan::Plan;
use dg_volume::{MountFault, Volume};

/// What is kept of an image.
#[repr(C)]
#[derive(Clone, Copy)]
pub struct KeptFields {
    pub version: u32,
    /// The CRC of page 0.
    pub crc: u16,
    pub pages: u8,
    /// How many of its pages, the first ones, are complete.
    pub done: u8,
}

/// What a chip keeps of an image.
#[unsafe(no_mangle)]
pub extern "C" fn deluge_kept(chip: &[u8], image: u8, kept: &mut KeptFields) -> u32
    ensures found { result ≡ done → (s : Store) → Stands chip.now s
        → (h : Held) × (held s image ≡ Some h) × TellsHeld kept.new h }
    ensures none { result ≡ NOT_KEPT → (s : Store) → Stands chip.now s → held s image ≡ None }
    ensures length { (result ≡ LENGTH) ↔ (length chip.now ≢ chip_size) }
    ensures range { result ≡ RANGE → images ≤ image }
    ensures no_volume { result ≡ NO_VOLUME → IsNoVolume chip.now }
    ensures same { result ≢ done → kept.new ≡ kept.old }
{
    if chip.len() != CHIP_SIZE as usize {
        return LENGTH;
    }
    if usize::from(image) >= IMAGES {
        return RANGE;
    }
    let mut plan = Plan::new(chip, &mut [], &mut []);
    let volume = match Volume::mount(&mut plan) {
        Ok(volume) => volume,
        Err(MountFault::NotAVolume) => return NO_VOLUME,
        Err(MountFault::Stopped) => return ROOM,
    };
    match volume.kept(image) {
        Some(found) => {
            *kept = KeptFields {
                version: found.version,
                crc: found.crc,
                pages: found.pages,
                done: found.done,
            };
            DONE
        }
        None => NOT_KEPT,
    }
}
