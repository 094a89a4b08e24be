//! What holds of the definitions alone. These functions do nothing: their contracts are the laws.
ghost use Rattle.std.specs.Prelude.{◌≡◌, ◌≤◌, ℕ, List, ◌++◌, false, length};
ghost use Rattle.std.specs.Str.Lines.{lines};
ghost use Rattle.dg_object.specs.Object.{Row};
ghost use Rattle.dg_script.specs.Places.{first_place};
ghost use Rattle.dg_script.specs.Script.{script_from};
ghost use Rattle.dg_script.specs.Sizes.{most_used_bytes};
ghost use Rattle.dg_replay.specs.Ending.{script_of, whole_lines};
ghost use Rattle.dg_replay.specs.Prefixes.{BeginsAs};
ghost use Rattle.dg_replay.specs.Replayed.{Progress};
ghost use Rattle.dg_replay.specs.Promised.{Headline};
ghost use Rattle.dg_replay.specs.WholeLines.{AreWholeLines};

use dg_completion::{rounds_of_scripts_bring_pages, scripts_end_complete};
use dg_rules::{
    any_frames_leave_stores_consistent, every_step_is_legal, scripts_with_boards,
    scripts_with_golden,
};

/// The whole lines of bytes are their longest prefix that is empty or ends in LF.
pub fn whole_lines_are_longest()
    ensures { (bytes : List ℕ) → AreWholeLines bytes (whole_lines bytes) }
{}

/// The first lines of a script are read the same, whatever follows them. If an input begins with whole lines, of at most
/// 16,777,216 bytes, its script begins with their script, and is their script if one of them has a fault.
pub fn first_lines_are_read_the_same()
    ensures { (front more : List ℕ) → whole_lines front ≡ front → length front ≤ most_used_bytes
        → BeginsAs (script_from false first_place 1 (lines front)) (script_of (front ++ more)) }
{}

/// What holds of a script, however far it was played, and of each part that was played first. There are two premises. Each frame
/// from outside is honest by the table of its moment. Boards that are used as they are agree with a table, and no image version
/// of it is injected with another content, unless the rules refuse it. Then each step is legal, no version falls, and what starts
/// is a row of the table. The chips, the motes that are on and the frames that were sent agree with the table. The store of each
/// half-done chip agrees too, wherever a stop comes in the next event. Without a `boards` line, lines that bring no frame from
/// outside meet both premises. Each round of two wide motes, or of two narrow ones, brought a page to one that was behind. If
/// what was played ends with an undisturbed rest, and all motes are wide, or all are narrow and no image above 3 has a row, pages
/// travel along the links as in a pipeline. After enough sweeps of such a rest every mote keeps the newest version of every image
/// whole. Whatever bytes frames carry, every store stays consistent, and what starts is golden, or fits its own descriptor.
pub fn replays_keep_the_rules()
    ensures { (table : List Row) (input : List ℕ) (c : Progress table (script_of input)) → Headline c }
{
    every_step_is_legal();
    scripts_with_golden();
    scripts_with_boards();
    any_frames_leave_stores_consistent();
    rounds_of_scripts_bring_pages();
    scripts_end_complete();
}
