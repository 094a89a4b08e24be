//! What holds of schedules and their runs. These functions do nothing: their contracts are the laws.
ghost use Rattle.dg_trial.specs.Playing.{PartsGoOnLaw};
ghost use Rattle.dg_trial.specs.Trials.{WholeLaw};

use dg_completion::{
    a_free_event_can_be_applied, a_free_event_keeps_a_good_world, distances_are_paths,
    enough_sweeps_complete, sweeps_are_a_rest,
};
use dg_rules::{agreement_is_kept, golden_is_found, scripts_with_golden};
use dg_volume::{a_start_ends, acts_end};

/// If a list of parts may be played and the first of them were played, those that follow may be played.
pub fn what_is_left_may_be_played()
    ensures { PartsGoOnLaw }
{
    golden_is_found();
}

/// After the schedule of a trial every mote keeps the image whole: the sweeps at its end are enough.
pub fn trials_end_whole()
    ensures { WholeLaw }
{
    agreement_is_kept();
    scripts_with_golden();
    a_start_ends();
    acts_end();
    a_free_event_can_be_applied();
    a_free_event_keeps_a_good_world();
    sweeps_are_a_rest();
    distances_are_paths();
    enough_sweeps_complete();
}
