//! Mounting: the boards of motes are used as they are.
ghost use Rattle.std.specs.Prelude.{◌≡◌, ◌<◌, ◌≤◌, ℕ, List, false, map, length, slice_get, Some, Ok, Err, OnOk, IsErrOf};
ghost use Rattle.dg_nor.specs.Device.{Device, WorkedOrStopped};
ghost use Rattle.dg_nor.specs.Fuse.{beneath_of};
ghost use Rattle.dg_nor.specs.Reads.{ReadStopped};
ghost use Rattle.dg_volume.specs.Store.{Store};
ghost use Rattle.dg_volume.specs.Stands.{IsVolume, IsNoVolume};
ghost use Rattle.dg_world.specs.Applied.{SameBoards};
ghost use Rattle.dg_world.specs.Counts.{AreSteady, IsSteady};
ghost use Rattle.dg_world.specs.Mounted.{StandFor, MountStops, NoVolumeAt};

use dg_nor::Nor;
use dg_volume::{MountFault, Volume};

/// Why the boards of motes cannot be used as they are.
#[derive(Clone, Copy, Debug, PartialEq, Eq)]
pub enum MountStopped {
    /// This board stopped.
    Flash { board: u8 },
    /// This board is not a volume.
    NotAVolume { board: u8 },
}

/// Mounts the boards of the first motes as they are, in their order, up to the first that stops or is not a volume. They
/// are only read.
pub fn mount_boards<N: Nor>(boards: &mut [N], motes: u8) -> Result<(), MountStopped>
    requires boards { motes ≤ length boards.old }
    ensures read { SameBoards (map N.device boards.old) (map N.device boards.new) }
    ensures stands { OnOk result ((stores : List Store) × StandFor motes stores (map N.device boards.new)) }
    ensures awake { OnOk result ((m : ℕ) (d : Device) → m < motes → slice_get (map N.device boards.old) m ≡ Some d
        → d.stopped ≡ false) }
    ensures others { (m : ℕ) → motes ≤ m → slice_get (map N.device boards.new) m ≡ slice_get (map N.device boards.old) m }
    ensures calm { OnOk result (AreSteady (map N.device boards.old) (map N.device boards.new)) }
    ensures stopped { (board : ℕ) → result ≡ Err (MountStopped.Flash board)
        → MountStops board motes (map N.device boards.old) (map N.device boards.new) }
    ensures no_volume { (board : ℕ) → result ≡ Err (MountStopped.NotAVolume board)
        → NoVolumeAt board motes (map N.device boards.old) (map N.device boards.new) }
    ensures calm_no_volume { (board : ℕ) → result ≡ Err (MountStopped.NotAVolume board)
        → AreSteady (map N.device boards.old) (map N.device boards.new) }
{
    for board in 0..motes {
        match mount_board(&mut boards[usize::from(board)]) {
            Ok(()) => {}
            Err(MountFault::Stopped) => return Err(MountStopped::Flash { board }),
            Err(MountFault::NotAVolume) => return Err(MountStopped::NotAVolume { board }),
        }
    }
    Ok(())
}

/// Mounts one board as it is.
fn mount_board<N: Nor>(nor: &mut N) -> Result<(), MountFault>
    ensures volume { OnOk result (IsVolume (N.device nor.new).image) }
    ensures awake { OnOk result ((N.device nor.old).stopped ≡ false) }
    ensures calm { OnOk result (IsSteady (N.device nor.old) (N.device nor.new)) }
    ensures no_volume { IsErrOf result MountFault.NotAVolume → IsNoVolume (N.device nor.old).image }
    ensures calm_no_volume { IsErrOf result MountFault.NotAVolume → IsSteady (N.device nor.old) (N.device nor.new) }
    ensures stopped { IsErrOf result MountFault.Stopped → ReadStopped (N.device nor.old) (N.device nor.new) }
    ensures same_image { (N.device nor.new).image ≡ (N.device nor.old).image }
    // it is stopped only if it was before, or if its count rose, and if it is not, nothing was made on it
    ensures endures { WorkedOrStopped 0 (beneath_of (N.device nor.old)) (beneath_of (N.device nor.new)) }
{
    match Volume::mount(nor) {
        Ok(_) => Ok(()),
        Err(MountFault::Stopped) => Err(MountFault::Stopped),
        Err(MountFault::NotAVolume) => Err(MountFault::NotAVolume),
    }
}
