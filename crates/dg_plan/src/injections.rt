//! An injection, planned.
ghost use Rattle.std.specs.Prelude.{◌≡◌, ◌≢◌, ◌⊎◌, ◌≤◌, false, Some, Err, OnOk, IfOk, length};
ghost use Rattle.dg_base.specs.Texts.{spells_name};
ghost use Rattle.dg_nor.specs.Reads.{Looked, ReadStopped};
ghost use Rattle.dg_object.specs.Object.{row_of, pages_for};
ghost use Rattle.dg_volume.specs.Sizes.{images};
ghost use Rattle.dg_volume.specs.Store.{Store};
ghost use Rattle.dg_volume.specs.Stands.{Stands, IsNoVolume};
ghost use Rattle.dg_volume.specs.Changes.{inject_refusal};
ghost use Rattle.dg_volume.specs.Trails.{inject_trail};
ghost use Rattle.dg_volume.specs.Acts.{Stops};
ghost use Rattle.dg_plan.specs.Plans.{planned, lists_of, chip_of, plan_device};
ghost use Rattle.dg_plan.specs.Acts.{IsPlanOf};

use crate::mounting::{ActFault, mount};
use crate::plan::Plan;
use dg_base::is_name;
use dg_control::IMAGES;
use dg_volume::{InjectFault, Injected};

/// Plans that an image is kept whole, in place of an older version of it. A version that is kept in part is resumed at its next
/// page. One of 65 pages has 3,258 commands at most.
pub fn inject(
    plan: &mut Plan<'_>,
    image: u8,
    version: u32,
    name: &[u8],
    bytes: &[u8],
) -> Result<Injected, ActFault<InjectFault>>
    ensures planned { OnOk result ((s : Store) → Stands (planned plan.old) s
        → IsPlanOf (inject_trail s (row_of image version name.now bytes.now)) plan.old plan.new) }
    ensures pages { IfOk result (λ i. i.pages ≡ pages_for (length bytes.now)) }
    ensures same_lists { lists_of plan.new ≡ lists_of plan.old }
    // the plan holds the chip that was handed in
    ensures same_chip { chip_of plan.new ≡ chip_of plan.old }
    ensures out_of_range { result ≡ Err ActFault.OutOfRange
        → (images ≤ image) ⊎ (version ≡ 0) ⊎ (spells_name name.now ≡ false) }
    ensures unread { result ≡ Err ActFault.Unread → ReadStopped (plan_device plan.old) (plan_device plan.new) }
    ensures no_volume { result ≡ Err ActFault.NotAVolume → IsNoVolume (planned plan.old) }
    ensures refused { (e : InjectFault) → result ≡ Err (ActFault.Act e) → e ≢ InjectFault.Stopped → (s : Store)
        → Stands (planned plan.old) s → inject_refusal s (row_of image version name.now bytes.now) ≡ Some e }
    // what is refused leaves the plan unchanged
    ensures looked { (e : ActFault InjectFault) → result ≡ Err e → e ≢ ActFault.Unread → e ≢ ActFault.Act InjectFault.Stopped
        → Looked (plan_device plan.old) (plan_device plan.new) }
    ensures stopped { result ≡ Err (ActFault.Act InjectFault.Stopped) → (s : Store) → Stands (planned plan.old) s
        → Stops (inject_trail s (row_of image version name.now bytes.now)) (plan_device plan.old) (plan_device plan.new) }
{
    if image >= IMAGES as u8 {
        return Err(ActFault::OutOfRange);
    }
    if version == 0 {
        return Err(ActFault::OutOfRange);
    }
    if !is_name(name) {
        return Err(ActFault::OutOfRange);
    }
    let mut volume = match mount(plan) {
        Ok(volume) => volume,
        Err(fault) => return Err(fault),
    };
    match volume.inject(plan, image, version, name, bytes) {
        Ok(injected) => Ok(injected),
        Err(fault) => Err(ActFault::Act(fault)),
    }
}
