//! A mote hears a frame.
ghost use Rattle.std.specs.Prelude.{◌≡◌, ◌^◌, ◌<◌, ℕ, OnOk, OnErr, IsTrue};
ghost use Rattle.dg_rules.specs.World.{World as RuleWorld, site, store_at};
ghost use Rattle.dg_rules.specs.Events.{Does, hear_by, unless_off};
ghost use Rattle.dg_shared.specs.Finds.{IsFound, IsRanged};
ghost use Rattle.dg_world.specs.Worlds.{SiteStands, MayRun};
ghost use Rattle.dg_world.specs.inner.OutcomeEndings.{LeavesChip, OutcomeEnds};
ghost use Rattle.dg_node.specs.Hosts.{host};
ghost use Rattle.dg_shared.specs.Unseen.{RefusesUnseen};
ghost use Rattle.dg_world.specs.inner.EventOutcomes.{Changes};
ghost use Rattle.dg_world.specs.inner.Outcomes.{IsNothing, as_outcome, outcome_of};
ghost use Rattle.dg_node.specs.declared.report.ChipReport.{ChipReport};
ghost use Rattle.dg_world.specs.inner.Sees.{SeesMote};
ghost use Rattle.dg_volume.specs.Store.{Store};
ghost use Rattle.dg_volume.specs.Stands.{Tells};
ghost use Rattle.dg_node.specs.Reports.{IsReportOf};

use crate::outcome::{Fault, Outcome};
use dg_mote::Heard;
use dg_node::{ChipReport, Node, report_chip};
use dg_nor::{Nor, Stopped};
use dg_rules::Cause;
use dg_shared::Found;
use dg_volume::Volume;

/// Whether such an answer surely leaves what a chip keeps, and its order, unchanged.
fn leaves_chip(heard: Heard) -> bool
    ensures { IsTrue result → LeavesChip heard }
{
    match heard {
        Heard::Refused(_)
        | Heard::Dropped
        | Heard::Noted
        | Heard::Same
        | Heard::Serves { .. }
        | Heard::Merged
        | Heard::Took { .. }
        | Heard::Bad { .. } => true,
        Heard::Other | Heard::Asks { .. } | Heard::Sealed { .. } => false,
    }
}

/// Keeps what is reported of a chip before a frame, until the mote answers. The fields are filled in place, so that each is
/// copied once.
#[inline(always)]
fn keep_report(volume: &Volume, report: &mut ChipReport)
    ensures { (s : Store) → Tells volume.now s → IsReportOf report.new s }
{
    report.order = volume.snapshot().order;
    report.kept = volume.kept_images();
}

/// The chip may have changed: what is reported of it now is noted beside what was kept. It is not inlined: most frames change
/// nothing that is reported.
#[inline(never)]
fn note_change(volume: &Volume, outcome: &mut Outcome)
    requires { IsNothing outcome.old }
    ensures outcome { (after : ChipReport) × (outcome_of outcome.new ≡ Changes outcome.old.kept after)
        × ((s : Store) → Tells volume.now s → IsReportOf after s) }
    ensures untold { outcome.new.orderly ≡ None }
{
    outcome.before = Some(outcome.kept);
    outcome.after = Some(report_chip(volume));
    outcome.is_told = true;
}

/// A mote that is on hears a frame: its own volume exposes what its chip keeps. A mote that is off refuses it.
#[inline(never)]
pub(crate) fn hear<N: Nor>(
    runs: &mut Option<Node>,
    now: u64,
    word: u32,
    bytes: &[u8],
    board: &mut N,
    outcome: &mut Outcome,
) -> Result<(), Fault>
    requires mote { MayRun (N.device board.old).image now runs.old }
    requires moment { now < 2 ^ 62 }
    requires nothing { IsNothing outcome.old }
    ensures ends { (w : RuleWorld) (m : ℕ) → SiteStands (N.device board.old) runs.old (site w m)
        → OutcomeEnds (as_outcome result outcome.new) w m (hear_by w (store_at w m)
        (site w m).runs now word bytes.now) (host (N.device board.old) runs.old) (host (N.device board.new) runs.new) }
    ensures unseen { (w : RuleWorld) (m : ℕ) → SiteStands (N.device board.old) runs.old (site w m)
        → RefusesUnseen (hear_by w (store_at w m) (site w m).runs now word bytes.now)
        → (board.new ≡ board.old) × OnErr result ⊥ }
    ensures sees { OnOk result (SeesMote outcome.new runs.new (N.device board.old).image (N.device board.new).image) }
    ensures same_reference { (N.device board.new).references ≡ (N.device board.old).references }
{
    let Some(node) = runs else {
        outcome.refused = Some(Cause::Off);
        outcome.is_told = true;
        return Ok(());
    };
    keep_report(node.volume(), &mut outcome.kept);
    match node.hear(board, now, word, bytes) {
        Ok(heard) => {
            outcome.heard = heard;
            if leaves_chip(heard) {
                return Ok(());
            }
            note_change(node.volume(), outcome);
            Ok(())
        }
        Err(Stopped) => {
            outcome.before = Some(outcome.kept);
            outcome.is_told = true;
            Err(Fault::Stopped)
        }
    }
}

/// A mote that is on hears the frame that was found, if there is one, in the same way.
#[inline(always)]
pub(crate) fn hear_found<N: Nor>(
    runs: &mut Option<Node>,
    now: u64,
    word: u32,
    found: Found<'_>,
    board: &mut N,
    outcome: &mut Outcome,
) -> Result<(), Fault>
    requires mote { MayRun (N.device board.old).image now runs.old }
    requires moment { now < 2 ^ 62 }
    requires range { IsRanged found }
    requires nothing { IsNothing outcome.old }
    ensures ends { (w : RuleWorld) (m : ℕ) (does : Does) → SiteStands (N.device board.old) runs.old (site w m)
        → IsFound found.entry w m now word does
        → OutcomeEnds (as_outcome result outcome.new) w m (unless_off (site w m).runs does)
        (host (N.device board.old) runs.old) (host (N.device board.new) runs.new) }
    ensures unseen { (w : RuleWorld) (m : ℕ) (does : Does) → SiteStands (N.device board.old) runs.old (site w m)
        → IsFound found.entry w m now word does → RefusesUnseen (unless_off (site w m).runs does)
        → (board.new ≡ board.old) × OnErr result ⊥ }
    ensures sees { OnOk result (SeesMote outcome.new runs.new (N.device board.old).image (N.device board.new).image) }
    ensures same_reference { (N.device board.new).references ≡ (N.device board.old).references }
{
    let Some(node) = runs else {
        outcome.refused = Some(Cause::Off);
        outcome.is_told = true;
        return Ok(());
    };
    let message = match found {
        Found::Frame(message) => message,
        Found::Nothing(cause) => {
            outcome.refused = Some(cause);
            outcome.is_told = true;
            return Ok(());
        }
    };
    keep_report(node.volume(), &mut outcome.kept);
    match node.hear_sent(board, now, word, message) {
        Ok(heard) => {
            outcome.heard = heard;
            if leaves_chip(heard) {
                return Ok(());
            }
            note_change(node.volume(), outcome);
            Ok(())
        }
        Err(Stopped) => {
            outcome.before = Some(outcome.kept);
            outcome.is_told = true;
            Err(Fault::Stopped)
        }
    }
}
