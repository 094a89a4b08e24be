//! What was counted of the chips of motes.
ghost use Rattle.std.specs.Prelude.{◌≡◌, map, slice_index_or};
ghost use Rattle.dg_meter.specs.Meters.{metered_device};
ghost use Rattle.dg_count.specs.Chips.{no_tally, AreTallies};

use dg_base::MOST_MOTES;
use dg_meter::{Metered, Tally};
use dg_nor::Nor;

/// How many motes a script may have.
const MOTES: usize = MOST_MOTES as usize;

/// The operations that were made on these boards so far.
pub fn tallies_of<N: Nor>(boards: &[Metered<N>]) -> [Tally; MOTES]
    ensures { AreTallies result (map (metered_device N.device) boards.now) }
{
    let mut tallies = [Tally::none(); MOTES];
    for index in 0..boards.len().min(MOTES) {
        tallies[index] = *boards[index].tally();
    }
    tallies
}

/// What was counted of a mote's chip.
pub fn tally_at(tallies: &[Tally; MOTES], mote: usize) -> Tally
    ensures { result ≡ slice_index_or tallies.now mote no_tally }
{
    if mote < MOTES {
        return tallies[mote];
    }
    Tally::none()
}
