//! The commits of a start.
ghost use Rattle.std.specs.Prelude.{◌≡◌, ◌≢◌, ◌⊎◌, ℕ, ◌≤◌, true, false, Option, Some, None, OnOk, IfSome};
ghost use Rattle.dg_nor.specs.Chip.{Touches};
ghost use Rattle.dg_slot.specs.Kept.{Held};
ghost use Rattle.dg_volume.specs.Sizes.{control_sectors, golden_version, short_starts};
ghost use Rattle.dg_volume.specs.Store.{App, Store};
ghost use Rattle.dg_volume.specs.Told.{program_told};
ghost use Rattle.dg_volume.specs.Stands.{HoldsApp, snapshot_of, room_of, NothingLent, Mounted, IsMounted};
ghost use Rattle.dg_volume.specs.Changes.{spent};
ghost use Rattle.dg_volume.specs.Trails.{committing, advance_trail};
ghost use Rattle.dg_volume.specs.Start.{Runs, app_of, count_trail, blank_trail, finish_trail, waived_once};
ghost use Rattle.dg_boot.specs.Loads.{IsApp};
ghost use Rattle.dg_boot.specs.Ends.{Goes};

use crate::choosing::{GOLDEN, counts, finishes};
use dg_control::{GOLDEN_VERSION, Program};
use dg_nor::{Nor, Stopped};
use dg_volume::{StartCause, Volume};

/// One commit that changes program memory, the short starts and whether the order is waived. There is room for it.
pub(crate) fn commit<N: Nor>(
    nor: &mut N,
    volume: &mut Volume,
    program: Program,
    gesture: u8,
    waived: bool,
) -> Result<(), Stopped>
    requires mounted { IsMounted (N.device nor.old).image volume.old }
    requires free { NothingLent volume.old }
    requires room { 1 ≤ room_of volume.old }
    requires gesture { gesture ≤ short_starts }
    requires waives { waived ≡ true → (snapshot_of volume.old).order.number ≢ 0 }
    requires holds { (app : Option App) × (program ≡ program_told app) × IfSome app (HoldsApp (N.device nor.old).image) }
    ensures goes { (s : Store) (app : Option App) → Mounted (N.device nor.old).image volume.old s → program ≡ program_told app
        → IfSome app (HoldsApp (N.device nor.old).image)
        → Goes result (advance_trail s app gesture waived) (N.device nor.old) (N.device nor.new) volume.new }
    ensures free { OnOk result (NothingLent volume.new) }
    ensures touches { Touches 0 control_sectors (N.device nor.old).image (N.device nor.new).image }
{
    match volume.advance(nor, program, gesture, waived) {
        Ok(()) => Ok(()),
        // there is room, so it was stopped
        Err(_) => Err(Stopped),
    }
}

/// Counts a start by power as a short one, while there is room.
pub(crate) fn count_start<N: Nor>(
    nor: &mut N,
    volume: &mut Volume,
    cause: StartCause,
) -> Result<(), Stopped>
    requires mounted { IsMounted (N.device nor.old).image volume.old }
    requires free { NothingLent volume.old }
    ensures goes { (s : Store) → Mounted (N.device nor.old).image volume.old s
        → Goes result (count_trail cause s) (N.device nor.old) (N.device nor.new) volume.new }
    ensures free { OnOk result (NothingLent volume.new) }
    ensures touches { Touches 0 control_sectors (N.device nor.old).image (N.device nor.new).image }
{
    let now = volume.snapshot();
    if !counts(cause, now.gesture, volume.room()) {
        return Ok(());
    }
    commit(nor, volume, now.program, now.gesture + 1, now.waived)
}

/// Waives the order, whose image is not sound.
pub(crate) fn waive<N: Nor>(nor: &mut N, volume: &mut Volume) -> Result<(), Stopped>
    requires mounted { IsMounted (N.device nor.old).image volume.old }
    requires free { NothingLent volume.old }
    requires room { 1 ≤ room_of volume.old }
    requires ordered { (snapshot_of volume.old).order.number ≢ 0 }
    ensures goes { (s : Store) → Mounted (N.device nor.old).image volume.old s
        → Goes result (committing s (waived_once s)) (N.device nor.old) (N.device nor.new) volume.new }
    ensures free { OnOk result (NothingLent volume.new) }
    ensures touches { Touches 0 control_sectors (N.device nor.old).image (N.device nor.new).image }
{
    let now = volume.snapshot();
    commit(nor, volume, now.program, now.gesture, true)
}

/// Commits that program memory is blank, unless it is already.
pub(crate) fn blank<N: Nor>(nor: &mut N, volume: &mut Volume) -> Result<(), Stopped>
    requires mounted { IsMounted (N.device nor.old).image volume.old }
    requires free { NothingLent volume.old }
    requires room { (snapshot_of volume.old).program ≢ Program.Blank → 1 ≤ room_of volume.old }
    ensures goes { (s : Store) → Mounted (N.device nor.old).image volume.old s
        → Goes result (blank_trail s) (N.device nor.old) (N.device nor.new) volume.new }
    ensures free { OnOk result (NothingLent volume.new) }
    ensures touches { Touches 0 control_sectors (N.device nor.old).image (N.device nor.new).image }
{
    let now = volume.snapshot();
    match now.program {
        Program::Blank => Ok(()),
        Program::Set { .. } => commit(nor, volume, Program::Blank, now.gesture, now.waived),
    }
}

/// Commits that program memory is set to an image whose pages are there.
pub(crate) fn set<N: Nor>(
    nor: &mut N,
    volume: &mut Volume,
    image: u8,
    version: u32,
) -> Result<(), Stopped>
    requires mounted { IsMounted (N.device nor.old).image volume.old }
    requires free { NothingLent volume.old }
    requires room { 1 ≤ room_of volume.old }
    requires holds { (app : App) × IsApp app image version × HoldsApp (N.device nor.old).image app }
    ensures goes { (s : Store) (app : App) → Mounted (N.device nor.old).image volume.old s → IsApp app image version
        → HoldsApp (N.device nor.old).image app
        → Goes result (committing s (record (spent s) { app = Some app })) (N.device nor.old) (N.device nor.new) volume.new }
    ensures free { OnOk result (NothingLent volume.new) }
    ensures touches { Touches 0 control_sectors (N.device nor.old).image (N.device nor.new).image }
{
    let now = volume.snapshot();
    commit(
        nor,
        volume,
        Program::Set { image, version },
        now.gesture,
        now.waived,
    )
}

/// The last commit of a golden start. It is made if there is room, and program memory is not set to golden or short starts
/// chose golden. If they did, their count is reset to 0, and the order is waived, if there is one.
pub(crate) fn finish<N: Nor>(nor: &mut N, volume: &mut Volume, three: bool) -> Result<(), Stopped>
    requires mounted { IsMounted (N.device nor.old).image volume.old }
    requires free { NothingLent volume.old }
    requires holds { (app : App) × IsApp app 0 golden_version × HoldsApp (N.device nor.old).image app }
    ensures goes { (s : Store) (r : Runs) → Mounted (N.device nor.old).image volume.old s → IsApp (app_of r) 0 golden_version
        → HoldsApp (N.device nor.old).image (app_of r)
        → Goes result (finish_trail s r three) (N.device nor.old) (N.device nor.new) volume.new }
    ensures free { OnOk result (NothingLent volume.new) }
    ensures touches { Touches 0 control_sectors (N.device nor.old).image (N.device nor.new).image }
{
    if !finishes(volume, three) {
        return Ok(());
    }
    let now = volume.snapshot();
    let golden = Program::Set {
        image: GOLDEN,
        version: GOLDEN_VERSION,
    };
    if three {
        commit(nor, volume, golden, 0, now.order.number != 0)
    } else {
        commit(nor, volume, golden, now.gesture, now.waived)
    }
}
