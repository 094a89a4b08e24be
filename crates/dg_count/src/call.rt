//! The call that replays a script and counts its events.
ghost use Rattle.std.specs.Prelude.{◌≤◌, [], List, map};
ghost use Rattle.dg_object.specs.Object.{Row};
ghost use Rattle.dg_meter.specs.Meters.{metered_device};
ghost use Rattle.dg_outside.specs.Outside.{Outside, with_input, with_output, with_boards};
ghost use Rattle.dg_replay.specs.Done.{ReplayDone};
ghost use Rattle.dg_replay.specs.Replayed.{Replayed};
ghost use Rattle.dg_count.specs.Runs.{HasSeen, CountedReplay};

use crate::counter::Counter;
use dg_base::{Sink, Source, Status};
use dg_meter::Metered;
use dg_nor::Nor;
use dg_replay::replay;
use std::alloc::Global;

/// Replays a script as `replay` does, and counts the events that are played: how many at each mote are of each kind, are
/// refused by each cause, have a cut that fires, and start an image.
pub fn replay_counted<S: Source, K: Sink, N: Nor>(
    alloc: Global,
    input: &mut S,
    out: &mut K,
    boards: &mut Vec<Metered<N>>,
    counter: &mut Counter,
) -> Status
    ensures done { (rest : Outside) → ReplayDone result
        (with_boards (map (metered_device N.device) boards.old.items)
        (with_output (K.Sink, out.old) (with_input (S.Source, input.old) rest)))
        (with_boards (map (metered_device N.device) boards.new.items)
        (with_output (K.Sink, out.new) (with_input (S.Source, input.new) rest))) }
    ensures reads { S.faults input.old ≤ S.faults input.new }
    ensures writes { K.faults out.old ≤ K.faults out.new }
    // each event that was played is counted once, whatever the status, if the counter was given what the boards keep
    ensures counted { HasSeen counter.old (map (metered_device N.device) boards.old.items)
        (map (metered_device N.device) boards.old.items) [] [] → (rest : Outside) (table : List Row) → (x : Replayed table result
        (with_boards (map (metered_device N.device) boards.old.items)
        (with_output (K.Sink, out.old) (with_input (S.Source, input.old) rest)))
        (with_boards (map (metered_device N.device) boards.new.items)
        (with_output (K.Sink, out.new) (with_input (S.Source, input.new) rest))))
        × CountedReplay result counter.new (map (metered_device N.device) boards.new.items) x.came }
{
    let status = replay(alloc, input, out, boards, counter);
    counter.settle(boards);
    status
}
