//! A chip is mounted, and why an act on it is not planned.
ghost use Rattle.std.specs.Prelude.{◌≡◌, ◌⊎◌, Err, OnOk, IfOk};
ghost use Rattle.dg_nor.specs.Reads.{Looked, ReadStopped};
ghost use Rattle.dg_volume.specs.Store.{Store};
ghost use Rattle.dg_volume.specs.Stands.{Stands, IsNoVolume, NothingLent, Mounted, IsMounted};
ghost use Rattle.dg_plan.specs.Plans.{planned, lists_of, chip_of, plan_device};

use crate::plan::Plan;
use dg_volume::{MountFault, Volume};

/// Why an act is not planned.
#[derive(Clone, Copy, Debug, PartialEq, Eq)]
pub enum ActFault<E> {
    /// The plan was stopped already.
    Unread,
    /// The bytes of the chip are not a volume.
    NotAVolume,
    /// There is no such image, version, number or name.
    OutOfRange,
    /// The act is refused, or stopped because the list or its bytes have no room.
    Act(E),
}

/// Mounts the chip as the commands so far leave it.
pub(crate) fn mount<E>(plan: &mut Plan<'_>) -> Result<Volume, ActFault<E>>
    ensures mounted { IfOk result (λ v. (s : Store) → Stands (planned plan.old) s → Mounted (planned plan.new) v s) }
    ensures volume { IfOk result (λ v. IsMounted (planned plan.new) v) }
    ensures free { IfOk result NothingLent }
    ensures looked { OnOk result (Looked (plan_device plan.old) (plan_device plan.new)) }
    ensures same_lists { lists_of plan.new ≡ lists_of plan.old }
    // the plan holds the chip that was handed in
    ensures same_chip { chip_of plan.new ≡ chip_of plan.old }
    ensures unread { result ≡ Err ActFault.Unread → ReadStopped (plan_device plan.old) (plan_device plan.new) }
    ensures no_volume { result ≡ Err ActFault.NotAVolume → IsNoVolume (planned plan.old)
        × Looked (plan_device plan.old) (plan_device plan.new) }
    ensures only { (e : ActFault E) → result ≡ Err e → (e ≡ ActFault.Unread) ⊎ (e ≡ ActFault.NotAVolume) }
{
    match Volume::mount(plan) {
        Ok(volume) => Ok(volume),
        Err(MountFault::NotAVolume) => Err(ActFault::NotAVolume),
        Err(MountFault::Stopped) => Err(ActFault::Unread),
    }
}
