//! An event at a board whose power may be cut in the middle of it.
ghost use Rattle.std.specs.Prelude.{◌≡◌, ◌∷◌, false, ◌&&◌, not, ◌≤◌, ◌<◌, ℕ, Some, None, Ok};
ghost use Rattle.dg_nor.specs.Fuse.{inner_of, name_of, mask_of, fused_device, before, beneath_of};
ghost use Rattle.dg_rules.specs.Sizes.{most_motes};
ghost use Rattle.dg_rules.specs.World.{World as RuleWorld};
ghost use Rattle.dg_rules.specs.Events.{does, mote_of};
ghost use Rattle.dg_script.specs.Ranges.{EventInRange, CutInRange};
ghost use Rattle.dg_world.specs.inner.Contexts.{MayApply, AppliesIn};
ghost use Rattle.dg_world.specs.inner.CutEnds.{ended, EventPlayed};
ghost use Rattle.dg_node.specs.Hosts.{host};
ghost use Rattle.dg_world.specs.inner.Outcomes.{IsNothing, as_outcome, ended_as};
ghost use Rattle.dg_shared.specs.Unseen.{RefusesUnseen};
ghost use Rattle.dg_world.specs.inner.Sees.{EventReads, EventSees};

use crate::dispatch::apply_apart;
use crate::outcome::{Fault, Outcome, Power};
use dg_node::Node;
use dg_nor::{Fused, Nor};
use dg_rules::{Cut, Event};
use dg_shared::EventContext;

/// How an event with a cut ended, by whether the cut fired, and whether the board itself is stopped.
fn end_outcome(blown: bool, stopped: bool, done: Result<(), Fault>) -> Result<Power, Fault>
    ensures { (t : Outcome) → ended_as result t ≡ ended (blown && not stopped) (as_outcome done t) }
{
    match done {
        Ok(()) => Ok(Power::Stays),
        Err(Fault::Stopped) if blown && !stopped => Ok(Power::Cut),
        Err(fault) => Err(fault),
    }
}

/// The fuse of a cut over a board: it interrupts the cut's operation, and leaves the cut's mask there.
fn fuse_of<'a, N: Nor>(cut: &'a Cut, board: &'a mut N) -> Fused<'a, N>
    requires { CutInRange cut.now }
    ensures inner { inner_of result ≡ board.old }
    ensures same_reference { name_of result ≡ board.entry.ghost_name }
    ensures mask { mask_of result ≡ cut.now.mask }
    ensures device { fused_device N.device result ≡ record {
      image = (N.device board.old).image;
      stopped = (N.device board.old).stopped;
      faults = (N.device board.old).faults;
      left = before (Some cut.now.after);
      taken = (N.device board.old).taken;
      blown = false;
      made = None;
      references = board.entry.ghost_name ∷ (N.device board.old).references;
      beneath = Some (beneath_of (N.device board.old));
    } }
{
    Fused::new(board, Some(cut.after), cut.mask.as_slice())
}

/// An event whose power is cut, if it makes this many operations. If the board itself stops in that operation, it is reported
/// as stopped.
pub(crate) fn play_cut<N: Nor>(
    context: &EventContext<'_>,
    runs: &mut Option<Node>,
    event: &Event,
    cut: &Cut,
    board: &mut N,
    outcome: &mut Outcome,
) -> Result<Power, Fault>
    requires fits { (motes : ℕ) × EventInRange motes event.now × (motes ≤ most_motes) }
    requires cut { CutInRange cut.now }
    requires may { MayApply context.now event.now (N.device board.old) runs.old }
    requires nothing { IsNothing outcome.old }
    ensures played { (w : RuleWorld) → AppliesIn context.now w event.now (N.device board.old) runs.old
        → EventPlayed (ended_as result outcome.new) w (mote_of event.now) (does w event.now) (Some cut.now)
        (host (N.device board.old) runs.old) (host (N.device board.new) runs.new) }
    ensures unseen { (w : RuleWorld) → AppliesIn context.now w event.now (N.device board.old) runs.old
        → RefusesUnseen (does w event.now) → (board.new ≡ board.old) × (result ≡ Ok Power.Stays) }
    ensures reads { EventReads event.now context.now.known (result ≡ Ok Power.Stays) outcome.new.refused (N.device board.old)
        (N.device board.new) }
    ensures sees { result ≡ Ok Power.Stays → EventSees event.now outcome.new runs.new (N.device board.old).image
        (N.device board.new).image }
{
    let mut fused = fuse_of(cut, board);
    let done = apply_apart(*context, runs, event, &mut fused, outcome);
    let blown = fused.blown();
    let stopped = board.is_stopped();
    end_outcome(blown, stopped, done)
}
