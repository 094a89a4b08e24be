//! A take, planned: the chip is mounted, and the slot is taken.
ghost use Rattle.std.specs.Prelude.{◌≡◌, ◌≢◌, ◌<◌, Some, Err, OnOk};
ghost use Rattle.dg_nor.specs.Reads.{Looked, ReadStopped};
ghost use Rattle.dg_object.specs.Records.{outline_of};
ghost use Rattle.dg_volume.specs.Sizes.{images};
ghost use Rattle.dg_volume.specs.Store.{Store};
ghost use Rattle.dg_volume.specs.Stands.{Stands, IsNoVolume};
ghost use Rattle.dg_volume.specs.Changes.{take_refusal};
ghost use Rattle.dg_volume.specs.Trails.{take_trail};
ghost use Rattle.dg_volume.specs.Acts.{Stops};
ghost use Rattle.dg_plan.specs.Plans.{planned, lists_of, chip_of, plan_device};
ghost use Rattle.dg_plan.specs.Acts.{IsPlanOf};

use crate::mounting::ActFault;
use crate::plan::Plan;
use dg_object::Profile;
use dg_volume::{MountFault, TakeFault, Volume};

/// Plans that the slot of an image is taken for a profile.
pub fn take(plan: &mut Plan<'_>, profile: &Profile) -> Result<(), ActFault<TakeFault>>
    requires { profile.now.image < images }
    ensures planned { OnOk result ((s : Store) → Stands (planned plan.old) s
        → IsPlanOf (take_trail s (outline_of profile.now)) plan.old plan.new) }
    ensures same_lists { lists_of plan.new ≡ lists_of plan.old }
    // the plan holds the chip that was handed in
    ensures same_chip { chip_of plan.new ≡ chip_of plan.old }
    ensures unread { result ≡ Err ActFault.Unread → ReadStopped (plan_device plan.old) (plan_device plan.new) }
    ensures no_volume { result ≡ Err ActFault.NotAVolume → IsNoVolume (planned plan.old) }
    ensures stopped { result ≡ Err (ActFault.Act TakeFault.Stopped) → (s : Store) → Stands (planned plan.old) s
        → Stops (take_trail s (outline_of profile.now)) (plan_device plan.old) (plan_device plan.new) }
    // what is refused leaves the plan unchanged
    ensures looked { (e : ActFault TakeFault) → result ≡ Err e → e ≢ ActFault.Unread → e ≢ ActFault.Act TakeFault.Stopped
        → Looked (plan_device plan.old) (plan_device plan.new) }
    ensures refused { (e : TakeFault) → result ≡ Err (ActFault.Act e) → e ≢ TakeFault.Stopped → (s : Store)
        → Stands (planned plan.old) s → take_refusal s (outline_of profile.now) ≡ Some e }
{
    let mut volume = match Volume::mount(plan) {
        Ok(volume) => volume,
        Err(MountFault::NotAVolume) => return Err(ActFault::NotAVolume),
        Err(MountFault::Stopped) => return Err(ActFault::Unread),
    };
    match volume.take(plan, profile.image, profile) {
        Ok(_) => Ok(()),
        Err(fault) => Err(ActFault::Act(fault)),
    }
}
