//! The call that rehearses.
ghost use Rattle.std.specs.Prelude.{◌≡◌, ◌≢◌, ◌⊎◌, ◌<◌, ◌≤◌, map, length, List, Err, IfOk, OnOk};
ghost use Rattle.dg_netcfg.specs.Readings.{IsAllowed};
ghost use Rattle.dg_script.specs.Ranges.{IsDeclared};
ghost use Rattle.dg_object.specs.Sizes.{most_bytes};
ghost use Rattle.dg_rehearse.specs.Ended.{RehearsalEnded, DeliversAlong};
ghost use Rattle.dg_rehearse.specs.Rehearsed.{Rehearsed, IsPlanned, planned_row};
ghost use Rattle.dg_volume.specs.Store.{Store};
ghost use Rattle.dg_rehearse.specs.Clocked.{IsByClock};
ghost use Rattle.dg_rehearse.specs.declared.plan.Ending.{Ending};
ghost use Rattle.dg_rehearse.specs.declared.stop.Stop.{Stop};

use crate::plan::{Plan, Rehearsal};
use crate::schedule::Schedule;
use crate::stage::Stage;
use crate::stop::{Halt, Stop};
use crate::telling::planned_pages;
use dg_netcfg::NetProfile;
use dg_nor::Nor;
use dg_object::check_size;
use dg_rules::scripts_with_golden;
use std::alloc::Global;

/// Plays a plan by the clock, over chips that are formatted first, and answers the script of it.
pub fn rehearse<N: Nor>(
    alloc: Global,
    profile: &NetProfile,
    plan: &Plan,
    boards: &mut Vec<N>,
) -> Result<Rehearsal, Stop>
    requires allowed { IsAllowed profile.now }
    requires declared { IsDeclared (planned_row plan.now) }
    ensures rehearsed { IfOk result (λ r. Rehearsed profile.now plan.now (map N.device boards.old.items)
        (map N.device boards.new.items) r.script.items) }
    // every mote has the image, or the minutes ran out, or a script has no room for more
    ensures ends { IfOk result (RehearsalEnded profile.now plan.now (map N.device boards.old.items)
        (map N.device boards.new.items)) }
    // the words and the seed alone say what is written, but for what a cut leaves
    ensures by_clock { IfOk result (λ r. r.ending ≢ Ending.TooMany
        → (left : List Store) × IsByClock profile.now plan.now left r) }
    ensures along { IfOk result (λ r. DeliversAlong profile.now plan.now (map N.device boards.old.items)
        (map N.device boards.new.items) r.script.items) }
    ensures no_mote { result ≡ Err Stop.NoMote → profile.now.motes ≤ plan.now.at }
    ensures no_board { result ≡ Err Stop.NoBoard → length boards.old.items < profile.now.motes }
    ensures size { result ≡ Err Stop.Size → (length plan.now.content ≡ 0) ⊎ (most_bytes < length plan.now.content) }
{
    check_plan(profile.motes, plan)?;
    if boards.len() < usize::from(profile.motes) {
        return Err(Stop::NoBoard);
    }
    match play(alloc, profile, plan, boards) {
        Ok(rehearsal) => Ok(rehearsal),
        Err(Halt::Memory) => Err(Stop::Memory),
        Err(Halt::Flash) => Err(Stop::Flash),
    }
}

/// Plays a plan that can be rehearsed.
fn play<N: Nor>(
    alloc: Global,
    profile: &NetProfile,
    plan: &Plan,
    boards: &mut Vec<N>,
) -> Result<Rehearsal, Halt>
    requires allowed { IsAllowed profile.now }
    requires planned { IsPlanned profile.now.motes plan.now }
    requires boards { profile.now.motes ≤ length boards.old.items }
    ensures rehearsed { IfOk result (λ r. Rehearsed profile.now plan.now (map N.device boards.old.items)
        (map N.device boards.new.items) r.script.items) }
    ensures ends { IfOk result (RehearsalEnded profile.now plan.now (map N.device boards.old.items)
        (map N.device boards.new.items)) }
    ensures by_clock { IfOk result (λ r. r.ending ≢ Ending.TooMany
        → (left : List Store) × IsByClock profile.now plan.now left r) }
    ensures along { IfOk result (λ r. DeliversAlong profile.now plan.now (map N.device boards.old.items)
        (map N.device boards.new.items) r.script.items) }
{
    scripts_with_golden();
    let pages = planned_pages(plan);
    let mut stage = Stage::set(alloc, profile, plan, boards)?;
    let mut schedule = Schedule::of(plan, pages);
    let ending = schedule.play(alloc, profile, plan, &mut stage, boards)?;
    let Stage { script, moment, .. } = stage;
    Ok(Rehearsal {
        script,
        ending,
        moment,
    })
}

/// Checks that this many motes can rehearse a plan.
fn check_plan(motes: u8, plan: &Plan) -> Result<(), Stop>
    requires { IsDeclared (planned_row plan.now) }
    ensures ok { OnOk result (IsPlanned motes plan.now) }
    ensures no_mote { result ≡ Err Stop.NoMote → motes ≤ plan.now.at }
    ensures boards { result ≢ Err Stop.NoBoard }
    ensures size { result ≡ Err Stop.Size → (length plan.now.content ≡ 0) ⊎ (most_bytes < length plan.now.content) }
{
    if plan.at >= motes {
        return Err(Stop::NoMote);
    }
    match check_size(plan.content.as_slice().len()) {
        Ok(()) => Ok(()),
        Err(_) => Err(Stop::Size),
    }
}
