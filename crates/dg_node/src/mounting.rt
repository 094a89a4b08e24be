//! Mounts the board of a node.
ghost use Rattle.std.specs.Prelude.{◌≡◌, ℕ, IsTrue};
ghost use Rattle.dg_nor.specs.Device.{Took};
ghost use Rattle.dg_volume.specs.Remount.{RemountBytes};
ghost use Rattle.dg_node.specs.Known.{IsKnownChip, MountDone};

use dg_nor::{Nor, Stopped};
use dg_volume::{MountFault, Volume};

/// Mounts a board, by binary search if it is a known board.
pub fn mount_known<N: Nor>(board: &mut N, known: bool) -> Result<Volume, MountFault>
    requires known { IsTrue known → IsKnownChip (N.device board.old).image }
    ensures done { MountDone result (N.device board.old) (N.device board.new) }
    ensures same_reference { (N.device board.new).references ≡ (N.device board.old).references }
    ensures same_image { (N.device board.new).image ≡ (N.device board.old).image }
    ensures took { IsTrue known → (n : ℕ) → RemountBytes (N.device board.old).image n
        → Took n (N.device board.old) (N.device board.new) }
{
    if known {
        return match Volume::remount(board) {
            Ok(volume) => Ok(volume),
            Err(Stopped) => Err(MountFault::Stopped),
        };
    }
    Volume::mount(board)
}
