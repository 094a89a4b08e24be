//! The cases of a start, after short starts are counted: each makes its commits and copies in their order.
ghost use Rattle.std.specs.Prelude.{◌≡◌, ◌≢◌, ℕ, ◌==◌, ◌<◌, ◌≤◌, true, Bool, Some, IfOk, OnOk, OnErr};
ghost use Rattle.dg_nor.specs.Reads.{ReadEnds};
ghost use Rattle.dg_slot.specs.Layout.{program_sector, program_end};
ghost use Rattle.dg_volume.specs.Sizes.{images, golden_version, short_starts};
ghost use Rattle.dg_volume.specs.Store.{App, Store};
ghost use Rattle.dg_volume.specs.Stands.{snapshot_of, room_of, Mounted, IsMounted, NothingLent};
ghost use Rattle.dg_volume.specs.Start.{behind, boot, is_set_to, order_boot, golden_boot, golden_copied, golden_stays, kept_boot};
ghost use Rattle.dg_volume.specs.Start.{waived_once, boot_counted, order_waits, sound};
ghost use Rattle.dg_volume.specs.Trails.{committing};
ghost use Rattle.dg_volume.specs.Acts.{Stops, TouchesBut};
ghost use Rattle.dg_boot.specs.Ends.{BootOutcome, golden_fits, copied_trail, golden_loaded, ordered_boot, HoldsWhole, CopiedIn};

use crate::choosing::{GOLDEN, chooses_golden, has_three, is_golden, order_waits};
use crate::committing::{blank, count_start, finish, set, waive};
use crate::loaded::Loaded;
use crate::loading::{load, measure};
use crate::sound::is_sound;
use crate::{BootFault, Started};
use dg_control::{GOLDEN_VERSION, Program};
use dg_nor::{Nor, Stopped};
use dg_volume::{StartCause, Volume};

/// Commits that program memory is blank, unless it is already, and copies there the pages of an image that is kept whole.
fn copy_in<N: Nor>(nor: &mut N, volume: &mut Volume, image: u8) -> Result<Loaded, Stopped>
    requires mounted { IsMounted (N.device nor.old).image volume.old }
    requires free { NothingLent volume.old }
    requires known_image { image < images }
    requires room { (snapshot_of volume.old).program ≢ Program.Blank → 1 ≤ room_of volume.old }
    requires whole { (s : Store) → Mounted (N.device nor.old).image volume.old s → HoldsWhole s image }
    ensures copied { IfOk result (λ told. (s : Store) → Mounted (N.device nor.old).image volume.old s
        → CopiedIn s image (N.device nor.old) (N.device nor.new) volume.new told) }
    ensures stopped { OnErr result ((s : Store) → Mounted (N.device nor.old).image volume.old s
        → Stops (copied_trail s image) (N.device nor.old) (N.device nor.new)) }
    ensures free { OnOk result (NothingLent volume.new) }
    ensures touches { TouchesBut (program_sector 0) program_end (N.device nor.old).image (N.device nor.new).image }
{
    blank(nor, volume)?;
    load(nor, image)
}

/// What is reported of the image that runs.
fn started(volume: Volume, image: u8, version: u32, loaded: Loaded) -> Started
    ensures volume { result.volume ≡ volume }
    ensures image { result.image ≡ image }
    ensures version { result.version ≡ version }
    ensures pages { result.pages ≡ loaded.pages }
    ensures length { result.length ≡ loaded.length }
    ensures crc { result.crc ≡ loaded.crc }
{
    Started {
        volume,
        image,
        version,
        pages: loaded.pages,
        length: loaded.length,
        crc: loaded.crc,
    }
}

/// Copies the ordered image, which waits and is sound, and sets program memory to it.
fn start_ordered<N: Nor>(nor: &mut N, mut volume: Volume) -> Result<Started, BootFault>
    requires mounted { IsMounted (N.device nor.old).image volume }
    requires free { NothingLent volume }
    requires waits { (s : Store) → Mounted (N.device nor.old).image volume s → order_waits s ≡ true }
    ensures boots { (s : Store) → Mounted (N.device nor.old).image volume s
        → BootOutcome result (order_boot s) (N.device nor.old) (N.device nor.new) }
    ensures touches { TouchesBut (program_sector 0) program_end (N.device nor.old).image (N.device nor.new).image }
{
    let order = volume.snapshot().order;
    let loaded = copy_in(nor, &mut volume, order.image)?;
    set(nor, &mut volume, order.image, order.version)?;
    Ok(started(volume, order.image, order.version, loaded))
}

/// Copies golden, which is sound, and makes the last commit.
fn load_golden<N: Nor>(nor: &mut N, mut volume: Volume, three: bool) -> Result<Started, BootFault>
    requires mounted { IsMounted (N.device nor.old).image volume }
    requires free { NothingLent volume }
    requires room { (snapshot_of volume).program ≢ Program.Blank → 1 ≤ room_of volume }
    ensures boots { (s : Store) → Mounted (N.device nor.old).image volume s
        → BootOutcome result (golden_loaded s three) (N.device nor.old) (N.device nor.new) }
    ensures touches { TouchesBut (program_sector 0) program_end (N.device nor.old).image (N.device nor.new).image }
{
    let loaded = copy_in(nor, &mut volume, GOLDEN)?;
    finish(nor, &mut volume, three)?;
    Ok(started(volume, GOLDEN, GOLDEN_VERSION, loaded))
}

/// Whether an image that is kept whole is sound.
fn is_image_sound<N: Nor>(nor: &mut N, volume: &Volume, image: u8) -> Result<bool, Stopped>
    requires known_image { image < images }
    requires whole { (s : Store) → Mounted (N.device nor.old).image volume.now s → HoldsWhole s image }
    requires mounted { IsMounted (N.device nor.old).image volume.now }
    ensures sound { IfOk result (λ b. (s : Store) → Mounted (N.device nor.old).image volume.now s → b ≡ sound s image) }
    ensures ends { ReadEnds result (N.device nor.old) (N.device nor.new) }
{
    let kept = volume.kept(image).unwrap();
    is_sound(nor, image, &kept)
}

/// Starts golden, which is not in program memory, if it is sound.
fn start_golden_copied<N: Nor>(
    nor: &mut N,
    volume: Volume,
    three: bool,
) -> Result<Started, BootFault>
    requires mounted { IsMounted (N.device nor.old).image volume }
    requires free { NothingLent volume }
    requires room { (snapshot_of volume).program ≢ Program.Blank → 1 ≤ room_of volume }
    ensures boots { (s : Store) → Mounted (N.device nor.old).image volume s
        → BootOutcome result (golden_copied s three) (N.device nor.old) (N.device nor.new) }
    ensures touches { TouchesBut (program_sector 0) program_end (N.device nor.old).image (N.device nor.new).image }
{
    if !is_image_sound(nor, &volume, GOLDEN)? {
        return Err(BootFault::NoImage);
    }
    load_golden(nor, volume, three)
}

/// Starts golden, which is in program memory.
fn start_golden_kept<N: Nor>(
    nor: &mut N,
    mut volume: Volume,
    three: bool,
) -> Result<Started, BootFault>
    requires mounted { IsMounted (N.device nor.old).image volume }
    requires free { NothingLent volume }
    requires golden { (s : Store) → Mounted (N.device nor.old).image volume s → is_set_to s.app 0 golden_version ≡ true }
    ensures boots { (s : Store) (app : App) → Mounted (N.device nor.old).image volume s → s.app ≡ Some app
        → BootOutcome result (golden_stays s app three) (N.device nor.old) (N.device nor.new) }
    ensures touches { TouchesBut (program_sector 0) program_end (N.device nor.old).image (N.device nor.new).image }
{
    let loaded = measure(nor)?;
    finish(nor, &mut volume, three)?;
    Ok(started(volume, GOLDEN, GOLDEN_VERSION, loaded))
}

/// Starts golden. There is room for it, or it needs no room.
fn start_golden<N: Nor>(nor: &mut N, volume: Volume, three: bool) -> Result<Started, BootFault>
    requires mounted { IsMounted (N.device nor.old).image volume }
    requires free { NothingLent volume }
    requires fits { (s : Store) → Mounted (N.device nor.old).image volume s → golden_fits s ≡ true }
    ensures boots { (s : Store) → Mounted (N.device nor.old).image volume s
        → BootOutcome result (golden_boot s three) (N.device nor.old) (N.device nor.new) }
    ensures touches { TouchesBut (program_sector 0) program_end (N.device nor.old).image (N.device nor.new).image }
{
    if is_golden(volume.snapshot().program) {
        start_golden_kept(nor, volume, three)
    } else {
        start_golden_copied(nor, volume, three)
    }
}

/// Runs what program memory is set to. Nothing is written.
fn run_on<N: Nor>(
    nor: &mut N,
    volume: Volume,
    image: u8,
    version: u32,
) -> Result<Started, BootFault>
    requires mounted { IsMounted (N.device nor.old).image volume }
    requires free { NothingLent volume }
    requires set { (snapshot_of volume).program ≡ Program.Set image version }
    ensures boots { (s : Store) (three : Bool) → Mounted (N.device nor.old).image volume s
        → BootOutcome result (kept_boot s three) (N.device nor.old) (N.device nor.new) }
    ensures touches { TouchesBut (program_sector 0) program_end (N.device nor.old).image (N.device nor.new).image }
{
    let loaded = measure(nor)?;
    Ok(started(volume, image, version, loaded))
}

/// Starts what program memory is set to, else golden.
fn start_kept<N: Nor>(nor: &mut N, volume: Volume) -> Result<Started, BootFault>
    requires mounted { IsMounted (N.device nor.old).image volume }
    requires free { NothingLent volume }
    ensures boots { (s : Store) → Mounted (N.device nor.old).image volume s
        → BootOutcome result (kept_boot s (s.gesture == short_starts)) (N.device nor.old) (N.device nor.new) }
    ensures touches { TouchesBut (program_sector 0) program_end (N.device nor.old).image (N.device nor.new).image }
{
    match volume.snapshot().program {
        Program::Set { image, version } => run_on(nor, volume, image, version),
        Program::Blank => {
            let three = has_three(&volume);
            start_golden(nor, volume, three)
        }
    }
}

/// Waives the order, whose image is not sound, and starts what program memory is set to, else golden.
fn start_waived<N: Nor>(nor: &mut N, mut volume: Volume) -> Result<Started, BootFault>
    requires mounted { IsMounted (N.device nor.old).image volume }
    requires free { NothingLent volume }
    requires waits { (s : Store) → Mounted (N.device nor.old).image volume s → order_waits s ≡ true }
    ensures boots { (s : Store) → Mounted (N.device nor.old).image volume s
        → BootOutcome result (behind (committing s (waived_once s)) (kept_boot (waived_once s) (s.gesture == short_starts)))
        (N.device nor.old) (N.device nor.new) }
    ensures touches { TouchesBut (program_sector 0) program_end (N.device nor.old).image (N.device nor.new).image }
{
    waive(nor, &mut volume)?;
    start_kept(nor, volume)
}

/// Checks whether the ordered image, which waits, is sound. Starts it, or waives the order.
fn try_order<N: Nor>(nor: &mut N, volume: Volume) -> Result<Started, BootFault>
    requires mounted { IsMounted (N.device nor.old).image volume }
    requires free { NothingLent volume }
    requires waits { (s : Store) → Mounted (N.device nor.old).image volume s → order_waits s ≡ true }
    ensures boots { (s : Store) → Mounted (N.device nor.old).image volume s
        → BootOutcome result (ordered_boot s) (N.device nor.old) (N.device nor.new) }
    ensures touches { TouchesBut (program_sector 0) program_end (N.device nor.old).image (N.device nor.new).image }
{
    if is_image_sound(nor, &volume, volume.snapshot().order.image)? {
        start_ordered(nor, volume)
    } else {
        start_waived(nor, volume)
    }
}

/// The choice, once the start was counted.
fn start_counted<N: Nor>(nor: &mut N, volume: Volume) -> Result<Started, BootFault>
    requires mounted { IsMounted (N.device nor.old).image volume }
    requires free { NothingLent volume }
    ensures boots { (s : Store) → Mounted (N.device nor.old).image volume s
        → BootOutcome result (boot_counted s) (N.device nor.old) (N.device nor.new) }
    ensures touches { TouchesBut (program_sector 0) program_end (N.device nor.old).image (N.device nor.new).image }
{
    if chooses_golden(&volume) {
        start_golden(nor, volume, true)
    } else if order_waits(&volume) {
        try_order(nor, volume)
    } else {
        start_kept(nor, volume)
    }
}

/// Counts the start, if it came by power and there is room, and makes the choice.
pub(crate) fn start_mounted<N: Nor>(
    nor: &mut N,
    mut volume: Volume,
    cause: StartCause,
) -> Result<Started, BootFault>
    requires mounted { IsMounted (N.device nor.old).image volume }
    requires free { NothingLent volume }
    ensures boots { (s : Store) → Mounted (N.device nor.old).image volume s
        → BootOutcome result (boot cause s) (N.device nor.old) (N.device nor.new) }
    ensures touches { TouchesBut (program_sector 0) program_end (N.device nor.old).image (N.device nor.new).image }
{
    count_start(nor, &mut volume, cause)?;
    start_counted(nor, volume)
}
