//! Formatting: the boards of motes become volumes that keep golden alone.
ghost use Rattle.std.specs.Prelude.{◌≡◌, ◌<◌, ◌≤◌, ℕ, false, map, length, slice_get, Some, Err, OnOk, OnErr, IsTrue};
ghost use Rattle.dg_base.specs.Texts.{spells_name};
ghost use Rattle.dg_nor.specs.Device.{Device, Endures};
ghost use Rattle.dg_nor.specs.Fuse.{beneath_of};
ghost use Rattle.dg_nor.specs.Reads.{ActStopped};
ghost use Rattle.dg_volume.specs.Layout.{most_bytes};
ghost use Rattle.dg_volume.specs.Sizes.{most_room, new_form};
ghost use Rattle.dg_control.specs.Store.{HasForm};
ghost use Rattle.dg_volume.specs.Store.{fresh};
ghost use Rattle.dg_volume.specs.Stands.{Stands};
ghost use Rattle.dg_world.specs.Counts.{AreSteady, IsSteady};
ghost use Rattle.dg_world.specs.Formatted.{FirstBoards, FormatStops};

use dg_nor::{Nor, Stopped};
use dg_volume::{FORM, FormatFault, Volume};

/// A board stopped while it was formatted.
#[derive(Clone, Copy, Debug, PartialEq, Eq)]
pub struct FormatStopped {
    /// The number of the board, from 0.
    pub board: u8,
}

/// Formats the boards of the first motes with golden, in their order, in the current form, and records `used` commits as
/// spent.
pub fn format_boards<N: Nor>(
    boards: &mut [N],
    motes: u8,
    name: &[u8],
    golden: &[u8],
    used: u32,
) -> Result<(), FormatStopped>
    requires boards { motes ≤ length boards.old }
    requires named { IsTrue (spells_name name.now) }
    requires some { 1 ≤ length golden.now }
    requires fits { length golden.now ≤ most_bytes }
    requires used { used ≤ most_room }
    ensures formatted { OnOk result ((m : ℕ) (d : Device) → m < motes → slice_get (map N.device boards.new) m ≡ Some d
        → Stands d.image (fresh name.now golden.now used)) }
    ensures form { OnOk result ((m : ℕ) (d : Device) → m < motes → slice_get (map N.device boards.new) m ≡ Some d
        → HasForm d.image new_form) }
    ensures awake { OnOk result ((m : ℕ) (d : Device) → m < motes → slice_get (map N.device boards.old) m ≡ Some d
        → d.stopped ≡ false) }
    ensures others { FirstBoards motes (map N.device boards.old) (map N.device boards.new) }
    ensures calm { OnOk result (AreSteady (map N.device boards.old) (map N.device boards.new)) }
    ensures stopped { (e : FormatStopped) → result ≡ Err e
        → FormatStops e.board motes (fresh name.now golden.now used) (map N.device boards.old) (map N.device boards.new) }
{
    for board in 0..motes {
        match format_board(&mut boards[usize::from(board)], name, golden, used) {
            Ok(()) => {}
            Err(Stopped) => return Err(FormatStopped { board }),
        }
    }
    Ok(())
}

/// Formats one board with golden.
fn format_board<N: Nor>(nor: &mut N, name: &[u8], golden: &[u8], used: u32) -> Result<(), Stopped>
    requires named { IsTrue (spells_name name.now) }
    requires some { 1 ≤ length golden.now }
    requires fits { length golden.now ≤ most_bytes }
    requires used { used ≤ most_room }
    ensures formatted { OnOk result (Stands (N.device nor.new).image (fresh name.now golden.now used)) }
    ensures form { OnOk result (HasForm (N.device nor.new).image new_form) }
    ensures awake { OnOk result ((N.device nor.old).stopped ≡ false) }
    ensures stopped { OnErr result (ActStopped (N.device nor.old) (N.device nor.new)) }
    ensures calm { OnOk result (IsSteady (N.device nor.old) (N.device nor.new)) }
    // it is stopped only if it was before, or if its count rose
    ensures endures { Endures (beneath_of (N.device nor.old)) (beneath_of (N.device nor.new)) }
{
    match Volume::format(nor, golden, name, used, FORM) {
        Ok(()) => Ok(()),
        // golden fits, so that the board was stopped
        Err(FormatFault::Stopped | FormatFault::Empty | FormatFault::TooLarge) => Err(Stopped),
    }
}
