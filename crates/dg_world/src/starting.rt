//! Starts: a board starts, and a new mote is made.
ghost use Rattle.std.specs.Prelude.{◌≡◌, ◌^◌, ◌<◌, ℕ, None, OnOk};
ghost use Rattle.dg_volume.specs.Stands.{Stands};
ghost use Rattle.dg_mote.specs.Effects.{reset_effect};
ghost use Rattle.dg_rules.specs.World.{World as RuleWorld, store_at, wide_at};
ghost use Rattle.dg_rules.specs.Events.{of_effect};
ghost use Rattle.dg_shared.specs.Shareds.{IsShared};
ghost use Rattle.dg_world.specs.inner.OutcomeEndings.{OutcomeEnds};
ghost use Rattle.dg_node.specs.Hosts.{host};
ghost use Rattle.dg_world.specs.Alone.{Powers};
ghost use Rattle.dg_world.specs.inner.Outcomes.{IsNothing, as_outcome};
ghost use Rattle.dg_world.specs.inner.Sees.{SeesStart};

use crate::outcome::{Fault, Outcome};
use dg_node::{At, Node};
use dg_nor::Nor;
use dg_shared::EventContext;

/// A board starts by power. What ran on it is dropped.
pub(crate) fn reset<N: Nor>(
    runs: &mut Option<Node>,
    id: u16,
    wide: bool,
    now: u64,
    word: u32,
    board: &mut N,
    outcome: &mut Outcome,
) -> Result<(), Fault>
    requires moment { now < 2 ^ 62 }
    requires nothing { IsNothing outcome.old }
    ensures ends { (w : RuleWorld) (m : ℕ) → m ≡ id → Stands (N.device board.old).image (store_at w m)
        → OutcomeEnds (as_outcome result outcome.new) w m (of_effect w (reset_effect
        (store_at w m) m wide now word) None) (host (N.device board.old) runs.old) (host (N.device board.new) runs.new) }
    ensures powers { Powers result (N.device board.old) (N.device board.new) }
    ensures sees { OnOk result (SeesStart outcome.new runs.new) }
    ensures same_reference { (N.device board.new).references ≡ (N.device board.old).references }
{
    let at = At {
        id,
        wide,
        now,
        word,
    };
    let powered = Node::power(board, at)?;
    *runs = Some(powered.node);
    outcome.started = Some(powered.image);
    outcome.is_told = true;
    Ok(())
}

/// The board of the mote starts by power, where the event is applied.
#[inline(never)]
pub(crate) fn reset_here<N: Nor>(
    context: &EventContext<'_>,
    runs: &mut Option<Node>,
    word: u32,
    board: &mut N,
    outcome: &mut Outcome,
) -> Result<(), Fault>
    requires nothing { IsNothing outcome.old }
    ensures ends { (w : RuleWorld) → IsShared context.now.shared.now w
        → Stands (N.device board.old).image (store_at w context.now.mote)
        → OutcomeEnds (as_outcome result outcome.new) w context.now.mote (of_effect w
        (reset_effect (store_at w context.now.mote) context.now.mote
        (wide_at w context.now.mote) context.now.moment word) None)
        (host (N.device board.old) runs.old) (host (N.device board.new) runs.new) }
    ensures sees { OnOk result (SeesStart outcome.new runs.new) }
    ensures same_reference { (N.device board.new).references ≡ (N.device board.old).references }
{
    let wide = context.shared.is_wide(context.mote);
    reset(
        runs,
        u16::from(context.mote),
        wide,
        context.moment,
        word,
        board,
        outcome,
    )
}
