//! What holds of every run of a script of nodes.
ghost use Rattle.dg_drip_script.specs.Scripts.{DripScript};
ghost use Rattle.dg_drip_run.specs.Promised.{GreatestIsKept, NothingFalls, SetsMakeAll, RoundsRaise, SweepsBringTheGreatest};

use dg_drip::{a_round_raises, sweeps_bring_the_greatest, the_greatest_is_kept};

/// Values spread in every run of a script.
pub fn values_spread()
    ensures greatest { (s : DripScript) → GreatestIsKept s }
    ensures rises { (s : DripScript) → NothingFalls s }
    ensures made { (s : DripScript) → SetsMakeAll s }
    ensures rounds { (s : DripScript) → RoundsRaise s }
    ensures sweeps { (s : DripScript) → SweepsBringTheGreatest s }
{
    the_greatest_is_kept();
    a_round_raises();
    sweeps_bring_the_greatest();
}
