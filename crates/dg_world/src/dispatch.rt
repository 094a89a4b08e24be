//! What an event does at the board of its mote.
ghost use Rattle.std.specs.Prelude.{◌≡◌, ◌≤◌, ℕ, Option, OnOk, OnErr};
ghost use Rattle.dg_rules.specs.World.{World as RuleWorld};
ghost use Rattle.dg_rules.specs.Events.{does, mote_of};
ghost use Rattle.dg_script.specs.Ranges.{EventInRange};
ghost use Rattle.dg_rules.specs.Sizes.{most_motes};
ghost use Rattle.dg_world.specs.inner.OutcomeEndings.{OutcomeEnds};
ghost use Rattle.dg_node.specs.Hosts.{host};
ghost use Rattle.dg_shared.specs.Unseen.{RefusesUnseen};
ghost use Rattle.dg_world.specs.inner.Outcomes.{IsNothing, as_outcome};
ghost use Rattle.dg_world.specs.inner.Sees.{EventSees, EventReads};
ghost use Rattle.dg_world.specs.inner.Contexts.{MayApply, AppliesIn};

use crate::hearing::{hear, hear_found};
use crate::injecting::inject_known;
use crate::ordering::order_known;
use crate::outcome::{Fault, Outcome};
use crate::starting::reset_here;
use crate::ticking::tick;
use dg_node::Node;
use dg_nor::Nor;
use dg_rules::{Event, ImageVersion};
use dg_shared::{EventContext, find_last, find_nth};

/// What an event does at the board of its mote, which runs `runs`. Where the board is known it is mounted again by halving. It is
/// not inlined, and takes the context by value, so that the common events, which pass it by, need none in memory.
#[inline(never)]
pub(crate) fn apply_apart<N: Nor>(
    context: EventContext<'_>,
    runs: &mut Option<Node>,
    event: &Event,
    board: &mut N,
    outcome: &mut Outcome,
) -> Result<(), Fault>
    requires fits { (motes : ℕ) × EventInRange motes event.now × (motes ≤ most_motes) }
    requires may { MayApply context event.now (N.device board.old) runs.old }
    requires nothing { IsNothing outcome.old }
    ensures ends { (w : RuleWorld) → AppliesIn context.entry w event.now (N.device board.old) runs.old
        → OutcomeEnds (as_outcome result outcome.new) w (mote_of event.now) (does w event.now)
        (host (N.device board.old) runs.old) (host (N.device board.new) runs.new) }
    // an event that is refused without a look at the chip uses no board
    ensures unseen { (w : RuleWorld) → AppliesIn context.entry w event.now (N.device board.old) runs.old
        → RefusesUnseen (does w event.now) → (board.new ≡ board.old) × OnErr result ⊥ }
    ensures sees { OnOk result (EventSees event.now outcome.new runs.new (N.device board.old).image (N.device board.new).image) }
    ensures reads { EventReads event.now context.entry.known (OnErr result ⊥) outcome.new.refused (N.device board.old)
        (N.device board.new) }
    ensures same_reference { (N.device board.new).references ≡ (N.device board.old).references }
{
    let now = context.moment;
    match event {
        Event::Tick { word, .. } => tick(runs, now, *word, board, outcome),
        Event::Hear { word, frame, .. } => {
            hear_found(runs, now, *word, find_nth(&context, *frame), board, outcome)
        }
        Event::Last { from, word, .. } => {
            hear_found(runs, now, *word, find_last(&context, *from), board, outcome)
        }
        Event::Frame { word, bytes, .. } => {
            let frame = bytes.as_slice();
            hear(runs, now, *word, frame, board, outcome)
        }
        Event::Reset { word, .. } => reset_here(&context, runs, *word, board, outcome),
        Event::Inject {
            image,
            version,
            word,
            ..
        } => {
            let image_version = ImageVersion {
                image: *image,
                version: *version,
            };
            inject_known(&context, runs, image_version, *word, board, outcome)
        }
        Event::Order {
            number,
            image,
            version,
            word,
            ..
        } => {
            let ordered = ImageVersion {
                image: *image,
                version: *version,
            };
            order_known(&context, runs, *number, ordered, *word, board, outcome)
        }
    }
}
