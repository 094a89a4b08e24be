//! An order is kept.
ghost use Rattle.std.specs.Prelude.{◌≡◌, ◌≢◌, ◌<◌, ◌≤◌, ℕ, if◌then◌else◌, Option, Err, Ok, OnOk, OnErr, IsTrue, IsSomeAnd};
ghost use Rattle.dg_volume.specs.Sizes.{images};
ghost use Rattle.dg_volume.specs.Changes.{order_refusal};
ghost use Rattle.dg_rules.specs.World.{World as RuleWorld, site, store_at, wide_at};
ghost use Rattle.dg_rules.specs.Events.{Refuses, order_cause, order_unless, knows, orders};
ghost use Rattle.dg_shared.specs.Shareds.{IsShared};
ghost use Rattle.dg_world.specs.Worlds.{SiteStands, MayRun};
ghost use Rattle.dg_world.specs.inner.OutcomeEndings.{OutcomeEnds};
ghost use Rattle.dg_node.specs.Hosts.{host};
ghost use Rattle.dg_shared.specs.Unseen.{RefusesUnseen};
ghost use Rattle.dg_world.specs.inner.Outcomes.{IsNothing, as_outcome, outcome_of};
ghost use Rattle.dg_world.specs.inner.Sees.{SeesInjected};
ghost use Rattle.dg_node.specs.Known.{IsKnownChip, SeesOrder, OrderReads};

use crate::act_outcomes::{act_fault, note_ordered};
use crate::outcome::{Fault, Outcome};
use dg_control::Order;
use dg_node::Node;
use dg_nor::Nor;
use dg_rules::{Cause, ImageVersion};
use dg_shared::EventContext;
use dg_volume::a_volume_bounds_a_remount;

/// Keeps an order.
fn order<N: Nor>(
    context: &EventContext<'_>,
    runs: &mut Option<Node>,
    number: u32,
    image_version: ImageVersion,
    word: u32,
    board: &mut N,
    outcome: &mut Outcome,
) -> Result<(), Fault>
    requires some_number { 1 ≤ number }
    requires known_image { image_version.image < images }
    requires some_version { 1 ≤ image_version.version }
    requires mote { MayRun (N.device board.old).image context.now.moment runs.old }
    requires known_chip { IsTrue context.now.known → IsKnownChip (N.device board.old).image }
    requires nothing { IsNothing outcome.old }
    ensures ends { (w : RuleWorld) (m : ℕ) → SiteStands (N.device board.old) runs.old (site w m)
        → OutcomeEnds (as_outcome result outcome.new) w m
        (order_unless (order_refusal (store_at w m)
        (record { number = number; image = image_version.image; version = image_version.version })) w m
        (record { number = number; image = image_version.image; version = image_version.version }) context.now.moment word)
        (host (N.device board.old) runs.old) (host (N.device board.new) runs.new) }
    ensures sees { OnOk result (IsSomeAnd outcome.new.orderly (λ orderly. SeesOrder orderly (N.device board.new).image)) }
    ensures reads { OrderReads context.now.known (N.device board.old) (N.device board.new) }
    ensures same_reference { (N.device board.new).references ≡ (N.device board.old).references }
{
    let ordered = Order {
        number,
        image: image_version.image,
        version: image_version.version,
    };
    match Node::order(runs, board, context.known, ordered, context.moment, word) {
        Ok(ordered) => {
            note_ordered(ordered, outcome);
            Ok(())
        }
        Err(fault) => Err(act_fault(fault, outcome)),
    }
}

/// Keeps an order, if the mote knows the number of its image.
#[inline(never)]
pub(crate) fn order_known<N: Nor>(
    context: &EventContext<'_>,
    runs: &mut Option<Node>,
    number: u32,
    image_version: ImageVersion,
    word: u32,
    board: &mut N,
    outcome: &mut Outcome,
) -> Result<(), Fault>
    requires some_number { 1 ≤ number }
    requires known_image { image_version.image < images }
    requires some_version { 1 ≤ image_version.version }
    requires mote { MayRun (N.device board.old).image context.now.moment runs.old }
    requires known_chip { IsTrue context.now.known → IsKnownChip (N.device board.old).image }
    requires nothing { IsNothing outcome.old }
    ensures ends { (w : RuleWorld) → IsShared context.now.shared.now w
        → SiteStands (N.device board.old) runs.old (site w context.now.mote)
        → OutcomeEnds (as_outcome result outcome.new) w context.now.mote
        (if knows (wide_at w context.now.mote) image_version.image
        then orders w context.now.mote
        (record { number = number; image = image_version.image; version = image_version.version }) context.now.moment word
        else Refuses Cause.Image)
        (host (N.device board.old) runs.old) (host (N.device board.new) runs.new) }
    ensures unseen { (w : RuleWorld) → IsShared context.now.shared.now w
        → RefusesUnseen (if knows (wide_at w context.now.mote) image_version.image
        then orders w context.now.mote
        (record { number = number; image = image_version.image; version = image_version.version }) context.now.moment word
        else Refuses Cause.Image)
        → (board.new ≡ board.old) × OnErr result ⊥ }
    ensures sees { OnOk result (SeesInjected outcome.new.orderly (outcome_of outcome.new) (N.device board.old).image
        (N.device board.new).image) }
    ensures reads { OrderReads context.now.known (N.device board.old) (N.device board.new) }
    ensures same_reference { (N.device board.new).references ≡ (N.device board.old).references }
{
    a_volume_bounds_a_remount();
    if !context.shared.knows(context.mote, image_version.image) {
        outcome.refused = Some(Cause::Image);
        outcome.is_told = true;
        return Ok(());
    }
    order(context, runs, number, image_version, word, board, outcome)
}
