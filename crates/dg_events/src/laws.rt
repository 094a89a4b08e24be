//! What the lines of an event tell of what motes keep whole. This function does nothing: its contract is the law.
ghost use Rattle.std.specs.Prelude.{◌≡◌, ◌≢◌, ℕ, ◌<◌, ◌≤◌, ◌&&◌, not, cond, true, false, List, length};
ghost use Rattle.std.specs.List.{Contains, count_by};
ghost use Rattle.dg_object.specs.Object.{Row};
ghost use Rattle.dg_volume.specs.Sizes.{images};
ghost use Rattle.dg_rules.specs.World.{World, store_at};
ghost use Rattle.dg_rules.specs.Events.{mote_of};
ghost use Rattle.dg_rules.specs.Runs.{Played, ItemStep};
ghost use Rattle.dg_rules.specs.Steps.{DeclareStep};
ghost use Rattle.dg_base.specs.declared.events.Event.{Event};
ghost use Rattle.dg_script.specs.Items.{Item};
ghost use Rattle.dg_script.specs.declared.report.Report.{Report};
ghost use Rattle.dg_script.specs.declared.report.Report.TheVariants.{Have};
ghost use Rattle.dg_events.specs.Keeps.{keeps_whole};
ghost use Rattle.dg_events.specs.HaveLines.{PageCountsStay, is_held_line, says_whole, IsToldWhole};
ghost use Rattle.dg_events.specs.Noted.{IsEventPlayed};

use dg_mote::{
    a_frame_is_heard_in_silence, a_restart_is_for_the_order, packets_come_in_frames,
    what_a_mote_may_change,
};
use dg_volume::{a_start_ends, a_whole_image_is_sound};

/// Whatever frames come, and wherever power is cut, a version of an image that a mote keeps has the same number of pages after
/// an item of a run. A declaration changes nothing that is kept, and an event only what its mote keeps. If the event makes an
/// image whole there, one `have` line is reported of it, with all pages; otherwise no `have` line is reported of a version that
/// is whole after it. An event reports at most one `have` or `lost` line of an image, and with none of them each mote keeps the
/// same versions of it whole.
pub fn have_lines_tell_what_became_whole()
    ensures pages { (w v : World) (item : Item) (reports : List Report) → ItemStep w item v reports → PageCountsStay w v }
    ensures declared { (w v : World) (row : Row) (reports : List Report) → DeclareStep w row v reports
        → (m : ℕ) → store_at v m ≡ store_at w m }
    ensures others { (e : Event) (lines : List Report) (p : Played) → IsEventPlayed e lines p
        → (m : ℕ) → m ≢ mote_of e → store_at p.after m ≡ store_at p.before m }
    ensures told { (e : Event) (lines : List Report) (p : Played) → IsEventPlayed e lines p
        → (m image version : ℕ) → image < images → keeps_whole p.before m image version ≡ false
        → keeps_whole p.after m image version ≡ true → (m ≡ mote_of e) × IsToldWhole m image version p }
    ensures new { (e : Event) (lines : List Report) (p : Played) → IsEventPlayed e lines p
        → (m image version pages : ℕ) → m < length p.before.sites → Contains p.reports (Have m image version pages)
        → keeps_whole p.after m image version ≡ true → keeps_whole p.before m image version ≡ false }
    ensures untold { (e : Event) (lines : List Report) (p : Played) → IsEventPlayed e lines p
        → (m image version : ℕ) → image < images → count_by (is_held_line image) p.reports ≡ 0
        → keeps_whole p.after m image version ≡ keeps_whole p.before m image version }
    ensures once { (e : Event) (lines : List Report) (p : Played) → IsEventPlayed e lines p
        → (image : ℕ) → count_by (is_held_line image) p.reports ≤ 1 }
    ensures counted { (e : Event) (lines : List Report) (p : Played) → IsEventPlayed e lines p
        → (m image version : ℕ) → m < length p.before.sites → image < images
        → count_by (says_whole p.after m image version) p.reports
        ≡ cond (keeps_whole p.after m image version && not (keeps_whole p.before m image version)) 1 0 }
{
    a_start_ends();
    a_whole_image_is_sound();
    what_a_mote_may_change();
    packets_come_in_frames();
    a_frame_is_heard_in_silence();
    a_restart_is_for_the_order();
}
