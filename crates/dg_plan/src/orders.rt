//! An order, planned.
ghost use Rattle.std.specs.Prelude.{◌≡◌, ◌≢◌, ◌⊎◌, ◌≤◌, Some, Err, OnOk};
ghost use Rattle.dg_nor.specs.Reads.{Looked, ReadStopped};
ghost use Rattle.dg_volume.specs.Sizes.{images};
ghost use Rattle.dg_volume.specs.Store.{Store};
ghost use Rattle.dg_volume.specs.Stands.{Stands, IsNoVolume};
ghost use Rattle.dg_volume.specs.Changes.{order_refusal};
ghost use Rattle.dg_volume.specs.Trails.{order_trail};
ghost use Rattle.dg_volume.specs.Acts.{Stops};
ghost use Rattle.dg_plan.specs.Plans.{planned, lists_of, chip_of, plan_device};
ghost use Rattle.dg_plan.specs.Acts.{IsPlanOf};

use crate::mounting::{ActFault, mount};
use crate::plan::Plan;
use dg_control::IMAGES;
use dg_volume::{Order, OrderFault};

/// Plans that an order is kept, which is not waived. 2 or 4 commands.
pub fn order(plan: &mut Plan<'_>, order: Order) -> Result<(), ActFault<OrderFault>>
    ensures planned { OnOk result ((s : Store) → Stands (planned plan.old) s
        → IsPlanOf (order_trail s order) plan.old plan.new) }
    ensures same_lists { lists_of plan.new ≡ lists_of plan.old }
    // the plan holds the chip that was handed in
    ensures same_chip { chip_of plan.new ≡ chip_of plan.old }
    ensures out_of_range { result ≡ Err ActFault.OutOfRange
        → (order.number ≡ 0) ⊎ (images ≤ order.image) ⊎ (order.version ≡ 0) }
    ensures unread { result ≡ Err ActFault.Unread → ReadStopped (plan_device plan.old) (plan_device plan.new) }
    ensures no_volume { result ≡ Err ActFault.NotAVolume → IsNoVolume (planned plan.old) }
    ensures refused { (e : OrderFault) → result ≡ Err (ActFault.Act e) → e ≢ OrderFault.Stopped → (s : Store)
        → Stands (planned plan.old) s → order_refusal s order ≡ Some e }
    // what is refused leaves the plan unchanged
    ensures looked { (e : ActFault OrderFault) → result ≡ Err e → e ≢ ActFault.Unread → e ≢ ActFault.Act OrderFault.Stopped
        → Looked (plan_device plan.old) (plan_device plan.new) }
    ensures stopped { result ≡ Err (ActFault.Act OrderFault.Stopped) → (s : Store) → Stands (planned plan.old) s
        → Stops (order_trail s order) (plan_device plan.old) (plan_device plan.new) }
{
    if order.number == 0 {
        return Err(ActFault::OutOfRange);
    }
    if order.image >= IMAGES as u8 {
        return Err(ActFault::OutOfRange);
    }
    if order.version == 0 {
        return Err(ActFault::OutOfRange);
    }
    let mut volume = match mount(plan) {
        Ok(volume) => volume,
        Err(fault) => return Err(fault),
    };
    match volume.order(plan, order.number, order.image, order.version) {
        Ok(()) => Ok(()),
        Err(fault) => Err(ActFault::Act(fault)),
    }
}
