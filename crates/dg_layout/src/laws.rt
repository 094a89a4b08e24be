//! What holds of the definitions alone. These functions do nothing: their contracts are the laws.
ghost use Rattle.std.specs.Prelude.{◌≡◌, ℕ, ◌≤◌, ◌<◌, Bool, true, List};
ghost use Rattle.std.specs.List.{AllByRecursion, list_any};
ghost use Rattle.dg_story.specs.Lines.{told_of, end_of};
ghost use Rattle.dg_story.specs.Reports.{is_change_of, last_reported, report_motes, report_image};
ghost use Rattle.dg_layout.specs.Layout.{grid_of, left_of, shown, rows_of, lane_bottom, foot, height_to, changes_of};
ghost use Rattle.dg_story.specs.Reading.{IsLineOf};
ghost use Rattle.dg_story.specs.declared.lines.Line.{Line};
ghost use Rattle.dg_story.specs.declared.told.Told.{Told};

/// The picture of a replay is at most 1,000 units high, however many lines there are, and its columns end within 1,300 units.
/// Each mote and each image that is reported has a row and a lane, and the lanes lie within the rows.
pub fn a_picture_fits()
    ensures rows { (told : List Told) → AllByRecursion (λ (t : Told). report_motes t.report ≤ (rows_of told).rows) told }
    ensures lanes { (told : List Told) → AllByRecursion (λ (t : Told). report_image t.report ≤ (rows_of told).images) told }
    ensures low { (told : List Told) (mote image : ℕ) → mote < (rows_of told).rows → image ≤ (rows_of told).images
        → lane_bottom (rows_of told) mote image ≤ foot (rows_of told) }
    ensures high { (timed : Bool) (lines : List Line) → AllByRecursion (IsLineOf timed) lines
        → height_to (foot (rows_of (told_of lines))) ≤ 1000 }
    ensures wide { (timed : Bool) (n k : ℕ) → k ≤ (grid_of timed n).columns → left_of (grid_of timed n) k ≤ 1300 }
{}

/// The last column shows of each image at each mote the last state that any line of the report has of it.
pub fn the_last_column_shows_the_last_state()
    ensures { (timed : Bool) (mote image : ℕ) (lines : List Line)
        → list_any (λ t. is_change_of mote image t.report) (told_of lines) ≡ true
        → shown mote image (grid_of timed (end_of lines)).per (grid_of timed (end_of lines)).columns
        (changes_of (rows_of (told_of lines)) (told_of lines))
        ≡ last_reported mote image (told_of lines) }
{}
