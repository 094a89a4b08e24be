//! A start, planned.
ghost use Rattle.std.specs.Prelude.{◌≡◌, Err, IfOk};
ghost use Rattle.dg_volume.specs.Store.{Store};
ghost use Rattle.dg_volume.specs.Stands.{Stands, IsNoVolume};
ghost use Rattle.dg_volume.specs.Start.{boot};
ghost use Rattle.dg_volume.specs.Acts.{Stops};
ghost use Rattle.dg_nor.specs.Reads.{ActStopped};
ghost use Rattle.dg_boot.specs.Started.{Starts, NoImageFound};
ghost use Rattle.dg_plan.specs.Plans.{planned, lists_of, chip_of, plan_device};
ghost use Rattle.dg_plan.specs.Acts.{IsPlanOf};

use crate::plan::Plan;
use dg_boot::{BootFault, Kind, Started};

/// Plans a start. A start of a whole image of 65 pages has some 590 commands.
pub fn start(plan: &mut Plan<'_>, kind: Kind) -> Result<Started, BootFault>
    ensures started { IfOk result (λ told. (s : Store) → Stands (planned plan.old) s
        → Starts (boot kind s) (plan_device plan.old) (plan_device plan.new) told
        × IsPlanOf (boot kind s).trail plan.old plan.new) }
    ensures same_lists { lists_of plan.new ≡ lists_of plan.old }
    // the plan holds the chip that was handed in
    ensures same_chip { chip_of plan.new ≡ chip_of plan.old }
    ensures no_volume { result ≡ Err BootFault.NotAVolume → IsNoVolume (planned plan.old) }
    ensures no_image { result ≡ Err BootFault.NoImage → (s : Store) → Stands (planned plan.old) s
        → NoImageFound (boot kind s) (plan_device plan.old) (plan_device plan.new) }
    ensures cause { result ≡ Err BootFault.Stopped → ActStopped (plan_device plan.old) (plan_device plan.new) }
    ensures stopped { result ≡ Err BootFault.Stopped → (s : Store) → Stands (planned plan.old) s
        → Stops (boot kind s).trail (plan_device plan.old) (plan_device plan.new) }
{
    dg_boot::start(plan, kind)
}
