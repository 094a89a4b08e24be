//! A start, planned over a chip that C reads in place.
ghost use Rattle.std.specs.Prelude.{◌≡◌, ◌≢◌, ◌↔◌, ◌⊎◌, ◌≤◌, ◌<◌, ℕ, Some, None, Ok, Err, IfOk, OnOk, length};
ghost use Rattle.dg_nor.specs.Sizes.{chip_size};
ghost use Rattle.dg_volume.specs.Store.{Store};
ghost use Rattle.dg_volume.specs.Stands.{Stands, IsNoVolume};
ghost use Rattle.dg_volume.specs.Start.{boot, Runs};
ghost use Rattle.dg_volume.specs.declared.volume.StartCause.{StartCause};
ghost use Rattle.deluge_c.specs.Answers.{done};
ghost use Rattle.deluge_c.specs.Plans.{AreActOf, BeginActOf, cause_numbered, TellsRuns, TellsStarted};

use crate::answers::{DONE, LENGTH, NO_IMAGE, NO_VOLUME, RANGE, ROOM};
use dg_boot::{BootFault, Kind, Started};
use dg_nor::CHIP_SIZE;
use dg_plan::{Command, Plan, start};

/// What was started.
#[repr(C)]
#[derive(Clone, Copy)]
pub struct StartedFields {
    pub version: u32,
    /// The bytes of the image.
    pub length: u32,
    /// The CRC of these bytes.
    pub crc: u16,
    pub image: u8,
    /// Its pages, the descriptor among them.
    pub pages: u8,
}

/// Plans a start. Cause 0 is that the power came on, 1 that an order waits. `NO_IMAGE` has commands too, which count the start or
/// waive an order.
#[unsafe(no_mangle)]
pub extern "C" fn deluge_plan_start(
    chip: &[u8],
    cause: u32,
    commands: &mut [Command],
    bytes: &mut [u8],
    count: &mut usize,
    started: &mut StartedFields,
) -> u32
    ensures planned { result ≡ done → (k : StartCause) (s : Store) → cause_numbered cause ≡ Some k → Stands chip.now s
        → AreActOf (boot k s).trail chip.now commands.new bytes.new count.new }
    ensures started { result ≡ done → (k : StartCause) (s : Store) → cause_numbered cause ≡ Some k → Stands chip.now s
        → (r : Runs) × ((boot k s).runs ≡ Some r) × TellsRuns started.new r }
    ensures length { (result ≡ LENGTH) ↔ (length chip.now ≢ chip_size) }
    ensures range { result ≡ RANGE → cause_numbered cause ≡ None }
    ensures no_volume { result ≡ NO_VOLUME → IsNoVolume chip.now }
    ensures no_image { result ≡ NO_IMAGE → (k : StartCause) (s : Store) → cause_numbered cause ≡ Some k → Stands chip.now s
        → ((boot k s).runs ≡ None) × AreActOf (boot k s).trail chip.now commands.new bytes.new count.new }
    ensures room { result ≡ ROOM → (k : StartCause) (s : Store) → cause_numbered cause ≡ Some k → Stands chip.now s
        → BeginActOf (boot k s).trail chip.now commands.new bytes.new count.new }
{
    *count = 0;
    if chip.len() != CHIP_SIZE as usize {
        return LENGTH;
    }
    let Some(kind) = cause_numbered(cause) else {
        return RANGE;
    };
    match plan_start(chip, kind, commands, bytes, count) {
        Ok(told) => {
            *started = started_fields(&told);
            DONE
        }
        Err(BootFault::NoImage) => NO_IMAGE,
        Err(BootFault::NotAVolume) => NO_VOLUME,
        Err(BootFault::Stopped) => ROOM,
    }
}

/// Why a chip starts.
fn cause_numbered(number: u32) -> Option<Kind>
    ensures { result ≡ cause_numbered number }
{
    match number {
        0 => Some(Kind::Power),
        1 => Some(Kind::Order),
        _ => None,
    }
}

/// Plans a start of a chip of the whole size.
fn plan_start(
    chip: &[u8],
    kind: Kind,
    commands: &mut [Command],
    bytes: &mut [u8],
    count: &mut usize,
) -> Result<Started, BootFault>
    requires { length chip.now ≡ chip_size }
    ensures planned { OnOk result ((s : Store) → Stands chip.now s
        → AreActOf (boot kind s).trail chip.now commands.new bytes.new count.new) }
    ensures started { IfOk result (λ told. (s : Store) → Stands chip.now s
        → (r : Runs) × ((boot kind s).runs ≡ Some r) × TellsStarted told r) }
    ensures no_volume { result ≡ Err BootFault.NotAVolume → IsNoVolume chip.now }
    ensures no_image { result ≡ Err BootFault.NoImage → (s : Store) → Stands chip.now s
        → ((boot kind s).runs ≡ None) × AreActOf (boot kind s).trail chip.now commands.new bytes.new count.new }
    ensures room { result ≡ Err BootFault.Stopped → (s : Store) → Stands chip.now s
        → BeginActOf (boot kind s).trail chip.now commands.new bytes.new count.new }
{
    let mut plan = Plan::new(chip, commands, bytes);
    let told = start(&mut plan, kind);
    *count = plan.count();
    told
}

/// The fields of what was started.
fn started_fields(told: &Started) -> StartedFields
    ensures { (r : Runs) → TellsStarted told.now r → TellsRuns result r }
{
    StartedFields {
        version: told.version,
        length: told.length,
        crc: told.crc,
        image: told.image,
        pages: told.pages,
    }
}
