//! Events at the board of the mote.
ghost use Rattle.std.specs.Prelude.{◌≡◌, ◌^◌, ◌<◌, List, length, slice_get, slice_index_or, slice_set, Some, None, Result};
ghost use Rattle.dg_nor.specs.Device.{Device};
ghost use Rattle.dg_rules.specs.Events.{mote_of};
ghost use Rattle.dg_mote.specs.declared.outbox.Outbox.{Outbox};
ghost use Rattle.dg_world.specs.declared.outcome.Fault.{Fault};
ghost use Rattle.dg_world.specs.Alone.{IsAlone};
ghost use Rattle.dg_world.specs.Worlds.{MayRun};
ghost use Rattle.dg_serve.specs.Standings.{PlayedAt, at_mote, stops_by};

use dg_base::Event;
use dg_mote::Outbox;
use dg_node::Node;
use dg_nor::Nor;
use dg_serve::Stop;
use dg_world::play_alone;

/// What an event does at a mote and its board, at a moment.
pub(crate) fn play<N: Nor>(
    motes: &mut [Option<Node>],
    mote: u8,
    now: u64,
    event: &Event,
    board: &mut N,
) -> Result<Outbox, Stop>
    requires alone { IsAlone event.now }
    requires motes { mote < length motes.old }
    requires may { MayRun (N.device board.old).image now (slice_index_or motes.old mote None) }
    requires moment { now < 2 ^ 62 }
    ensures motes { motes.new ≡ slice_set motes.old mote (slice_index_or motes.new mote None) }
    ensures played { (boards : List Device) → slice_get boards mote ≡ Some (N.device board.old) → mote_of event.now ≡ mote
        → (r : Result Outbox Fault) × (result ≡ stops_by r) × PlayedAt r event.now mote now
        (at_mote (slice_index_or motes.old mote None) boards)
        (at_mote (slice_index_or motes.new mote None) (slice_set boards mote (N.device board.new))) }
{
    let index = usize::from(mote);
    let runs = &mut motes[index];
    match play_alone(runs, now, event, board) {
        Ok(sent) => Ok(sent),
        Err(fault) => Err(Stop::from(fault)),
    }
}
