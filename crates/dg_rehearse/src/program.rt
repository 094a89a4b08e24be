//! The calls of `deluge_rehearse`, as a program makes them.
ghost use Rattle.std.specs.Prelude.{◌≤◌};
ghost use Rattle.dg_netcfg.specs.Readings.{IsAllowed};
ghost use Rattle.dg_object.specs.Sizes.{fewest_pages, most_pages};
ghost use Rattle.dg_script.specs.Sizes.{most_motes};
ghost use Rattle.dg_script.specs.Ranges.{IsDeclared};
ghost use Rattle.dg_rehearse.specs.Rehearsed.{planned_row};

use crate::call::rehearse;
use crate::plan::{Plan, Rehearsal};
use crate::stop::Stop;
use crate::trial::write_trial;
use dg_netcfg::NetProfile;
use dg_nor::Nor;
use std::alloc::Global;

/// [`rehearse`], for a program. This function promises nothing, so that the proof of the program that calls it need not load what
/// `rehearse` promises.
pub fn rehearse_for_program<N: Nor>(
    alloc: Global,
    profile: &NetProfile,
    plan: &Plan,
    boards: &mut Vec<N>,
) -> Result<Rehearsal, Stop>
    requires allowed { IsAllowed profile.now }
    requires declared { IsDeclared (planned_row plan.now) }
{
    rehearse(alloc, profile, plan, boards)
}

/// [`write_trial`], for a program, in the same way.
pub fn write_trial_for_program<N: Nor>(
    alloc: Global,
    motes: u8,
    pages: u8,
    seed: u32,
    boards: &mut Vec<N>,
) -> Result<Vec<u8>, Stop>
    requires some { 2 ≤ motes }
    requires few { motes ≤ most_motes }
    requires some_pages { fewest_pages ≤ pages }
    requires few_pages { pages ≤ most_pages }
{
    write_trial(alloc, motes, pages, seed, boards)
}
