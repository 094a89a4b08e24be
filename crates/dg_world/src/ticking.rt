//! A mote ticks.
ghost use Rattle.std.specs.Prelude.{◌≡◌, ◌^◌, ◌<◌, ℕ, Option, Some, None, OnOk, OnErr};
ghost use Rattle.dg_volume.specs.Stands.{Stands};
ghost use Rattle.dg_mote.specs.Effects.{tick_effect};
ghost use Rattle.dg_rules.specs.World.{World as RuleWorld, Running, site, store_at};
ghost use Rattle.dg_rules.specs.Events.{of_effect, tick_does};
ghost use Rattle.dg_world.specs.Worlds.{MoteStands, SiteStands, IsTimelyMote, MayRun};
ghost use Rattle.dg_world.specs.inner.OutcomeEndings.{OutcomeEnds};
ghost use Rattle.dg_node.specs.Hosts.{host};
ghost use Rattle.dg_shared.specs.Unseen.{RefusesUnseen};
ghost use Rattle.dg_world.specs.inner.Outcomes.{IsNothing, as_outcome};
ghost use Rattle.dg_world.specs.inner.Sees.{SeesMote};

use crate::outcome::{Fault, Outcome};
use dg_frame::one_reading;
use dg_node::{Node, Ticked};
use dg_nor::Nor;
use dg_rules::Cause;

/// A tick of a mote that is on.
#[inline(always)]
fn tick_on<N: Nor>(
    node: &mut Node,
    now: u64,
    word: u32,
    board: &mut N,
    outcome: &mut Outcome,
) -> Result<(), Fault>
    requires mote { IsTimelyMote (N.device board.old).image now node.old }
    requires moment { now < 2 ^ 62 }
    requires nothing { IsNothing outcome.old }
    ensures ends { (w : RuleWorld) (m : ℕ) (r : Running) → Stands (N.device board.old).image (store_at w m)
        → MoteStands (N.device board.old).image (Some node.old) (store_at w m) (Some r)
        → OutcomeEnds (as_outcome result outcome.new) w m
        (of_effect w (tick_effect r.mote (store_at w m) now word) (Some r.image_version))
        (host (N.device board.old) (Some node.old)) (host (N.device board.new) (Some node.new)) }
    ensures sees { OnOk result (outcome.new.orderly ≡ None) }
    ensures same_reference { (N.device board.new).references ≡ (N.device board.old).references }
{
    one_reading();
    match node.tick(board, now, word, &mut outcome.outbox) {
        Ok(Ticked::Idle) => Ok(()),
        Ok(Ticked::Sent) => Ok(()),
        Ok(Ticked::Restarted(image)) => {
            outcome.started = Some(image);
            outcome.is_told = true;
            Ok(())
        }
        Err(fault) => Err(Fault::from(fault)),
    }
}

/// A tick.
#[inline(always)]
pub(crate) fn tick<N: Nor>(
    runs: &mut Option<Node>,
    now: u64,
    word: u32,
    board: &mut N,
    outcome: &mut Outcome,
) -> Result<(), Fault>
    requires mote { MayRun (N.device board.old).image now runs.old }
    requires moment { now < 2 ^ 62 }
    requires nothing { IsNothing outcome.old }
    ensures ends { (w : RuleWorld) (m : ℕ) → SiteStands (N.device board.old) runs.old (site w m)
        → OutcomeEnds (as_outcome result outcome.new) w m (tick_does w (store_at w m) (site w m).runs now word)
        (host (N.device board.old) runs.old) (host (N.device board.new) runs.new) }
    ensures unseen { (w : RuleWorld) (m : ℕ) → SiteStands (N.device board.old) runs.old (site w m)
        → RefusesUnseen (tick_does w (store_at w m) (site w m).runs now word)
        → (board.new ≡ board.old) × OnErr result ⊥ }
    ensures sees { OnOk result (SeesMote outcome.new runs.new (N.device board.old).image (N.device board.new).image) }
    ensures same_reference { (N.device board.new).references ≡ (N.device board.old).references }
{
    match runs {
        None => {
            outcome.refused = Some(Cause::Off);
            outcome.is_told = true;
            Ok(())
        }
        Some(node) => tick_on(node, now, word, board, outcome),
    }
}
