//! What boards keep before a run, and how much room is left after it.
ghost use Rattle.std.specs.Prelude.{◌≡◌, map, IfOk};
ghost use Rattle.dg_meter.specs.Meters.{metered_device};
ghost use Rattle.dg_moments.specs.Looking.{ReadsBoard, ReadsBoards};
ghost use Rattle.dg_nor.specs.Device.{WorkedOrStopped, beneath_of};
ghost use Rattle.dg_world.specs.Applied.{SameBoards};

use dg_count::Costs;
use dg_meter::Metered;
use dg_moments::Given;
use dg_nor::Nor;
use dg_volume::{MountFault, Volume};
use std::alloc::{AllocError, Global};

/// What the boards keep before the run.
pub fn look<N: Nor>(
    alloc: Global,
    boards: &mut Vec<Metered<N>>,
) -> Result<Vec<Option<Given>>, AllocError>
    ensures given { IfOk result (λ given. ReadsBoards given.items (map (metered_device N.device) boards.new.items)) }
    // also if memory runs out
    ensures read { SameBoards (map (metered_device N.device) boards.old.items) (map (metered_device N.device) boards.new.items) }
{
    let mut given = Vec::new(alloc);
    for index in 0..boards.len() {
        given.push(look_at(&mut boards[index]))?;
    }
    Ok(given)
}

/// What a board keeps before the run, if it is a volume.
fn look_at<N: Nor>(board: &mut Metered<N>) -> Option<Given>
    ensures given { ReadsBoard result (metered_device N.device board.new) }
    ensures same_image { (metered_device N.device board.new).image ≡ (metered_device N.device board.old).image }
    ensures read { WorkedOrStopped 0 (beneath_of (metered_device N.device board.old))
        (beneath_of (metered_device N.device board.new)) }
{
    match Volume::mount(board) {
        Ok(volume) => Some(Given {
            room: volume.room(),
            kept: volume.kept_images(),
        }),
        Err(MountFault::Stopped) => None,
        Err(MountFault::NotAVolume) => None,
    }
}

/// Reads the room that is left on each chip at the end.
pub fn look_again<N: Nor>(costs: &mut Costs, boards: &mut Vec<Metered<N>>)
    ensures read { SameBoards (map (metered_device N.device) boards.old.items) (map (metered_device N.device) boards.new.items) }
{
    for index in 0..boards.len() {
        if index < boards.len() && index < costs.motes.len() {
            if let Ok(volume) = Volume::mount(&mut boards[index]) {
                costs.motes[index].room_end = Some(u64::from(volume.room()));
            }
        }
    }
}
