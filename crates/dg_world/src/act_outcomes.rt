//! What an injection or an order did, as an outcome.
ghost use Rattle.std.specs.Prelude.{◌≡◌, ◌<◌, ◌^◌, Some, length};
ghost use Rattle.dg_object.specs.Object.{Row};
ghost use Rattle.dg_mote.specs.Motes.{sent_in};
ghost use Rattle.dg_node.specs.Acts.{is_orderly_ordered, is_orderly_injected};
ghost use Rattle.dg_rules.specs.Events.{order_cause, inject_cause};
ghost use Rattle.dg_world.specs.inner.ActOutcomes.{ordered_outcome, injected_outcome, injected_refusal, halt_of_act};
ghost use Rattle.dg_world.specs.inner.Outcomes.{IsNothing, outcome_of, halt_of};

use crate::outcome::{Fault, Outcome};
use dg_node::{ActFault, Change, Injected, Ordered};
use dg_rules::Cause;
use dg_volume::{InjectFault, OrderFault};

/// What an order did is its outcome.
pub(crate) fn note_ordered(ordered: Ordered, outcome: &mut Outcome)
    requires { IsNothing outcome.old }
    ensures outcome { outcome_of outcome.new ≡ ordered_outcome ordered }
    ensures orderly { outcome.new.orderly ≡ Some (is_orderly_ordered ordered) }
{
    match ordered {
        Ordered::Kept(change) => note_change(change, outcome),
        Ordered::Refused { why, orderly } => {
            outcome.refused = Some(order_cause(why));
            outcome.is_told = true;
            outcome.orderly = Some(orderly);
        }
    }
}

/// What an injection of this many bytes did is its outcome.
pub(crate) fn note_injected(injected: Injected, bytes: usize, outcome: &mut Outcome)
    requires few { bytes < 2 ^ 32 }
    requires nothing { IsNothing outcome.old }
    ensures outcome { (row : Row) → length row.bytes ≡ bytes → outcome_of outcome.new ≡ injected_outcome row injected }
    ensures refused { (row : Row) → length row.bytes ≡ bytes → outcome.new.refused ≡ injected_refusal row injected }
    ensures orderly { outcome.new.orderly ≡ Some (is_orderly_injected injected) }
{
    match injected {
        Injected::Kept(change) => note_change(change, outcome),
        Injected::Refused { why, orderly } => {
            outcome.refused = Some(inject_cause(why, bytes));
            outcome.is_told = true;
            outcome.orderly = Some(orderly);
        }
    }
}

fn note_change(change: Change, outcome: &mut Outcome)
    ensures before { outcome.new.before ≡ Some change.before }
    ensures after { outcome.new.after ≡ Some change.after }
    ensures orderly { outcome.new.orderly ≡ Some change.orderly }
    ensures refused { outcome.new.refused ≡ outcome.old.refused }
    ensures started { outcome.new.started ≡ outcome.old.started }
    ensures sent { sent_in outcome.new.outbox ≡ sent_in outcome.old.outbox }
{
    outcome.before = Some(change.before);
    outcome.after = Some(change.after);
    outcome.orderly = Some(change.orderly);
    outcome.is_told = true;
}

/// Why an event that was not done ends the run. What was reported of the chip before stays in the outcome.
pub(crate) fn act_fault(fault: ActFault, outcome: &mut Outcome) -> Fault
    ensures { halt_of result outcome.new.before ≡ halt_of_act fault }
{
    match fault {
        ActFault::Stopped { before } => {
            outcome.before = before;
            outcome.is_told = true;
            Fault::Stopped
        }
        ActFault::NotAVolume => Fault::NotAVolume,
    }
}

/// The cause that is reported of a refused order. No refusal is `Stopped`.
fn order_cause(why: OrderFault) -> Cause
    ensures { result ≡ order_cause why }
{
    match why {
        OrderFault::Stopped => Cause::Empty,
        OrderFault::Worn { room } => Cause::Worn { room },
        OrderFault::OldOrder { kept } => Cause::OldOrder { number: kept },
    }
}

/// The cause that is reported of a refused injection of this many bytes. No refusal is `Stopped`.
fn inject_cause(why: InjectFault, bytes: usize) -> Cause
    requires { bytes < 2 ^ 32 }
    ensures { (row : Row) → length row.bytes ≡ bytes → result ≡ inject_cause row why }
{
    match why {
        InjectFault::Stopped | InjectFault::Empty => Cause::Empty,
        InjectFault::TooLarge => Cause::TooLarge {
            length: bytes as u32,
        },
        InjectFault::Stale { kept } => Cause::Stale { version: kept },
        InjectFault::Reserved => Cause::Reserved,
        InjectFault::Worn { room } => Cause::Worn { room },
        InjectFault::Taken => Cause::Taken,
    }
}
