//! What is reported of a chip.
ghost use Rattle.dg_volume.specs.Store.{Store};
ghost use Rattle.dg_volume.specs.Stands.{Tells};
ghost use Rattle.dg_node.specs.Reports.{IsReportOf};

use dg_control::{IMAGES, Order};
use dg_volume::{Kept, Volume};

/// What is reported of a chip: the order, and what is kept of each image.
#[derive(Clone, Copy, Debug, PartialEq, Eq)]
pub struct ChipReport {
    pub order: Order,
    pub kept: [Option<Kept>; IMAGES],
}

/// The report of a chip, from its volume.
pub fn report_chip(volume: &Volume) -> ChipReport
    ensures { (s : Store) → Tells volume.now s → IsReportOf result s }
{
    ChipReport {
        order: volume.snapshot().order,
        kept: volume.kept_images(),
    }
}
