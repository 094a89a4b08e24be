//! What is reported of a chip, and the lines of what changed.
ghost use Rattle.std.specs.Prelude.{◌≡◌, ◌+◌, ◌≤◌, ◌++◌, None, vec_len, option_to_list};
ghost use Rattle.std.specs.Vec.{vec_capacity};
ghost use Rattle.dg_volume.specs.Store.{Store};
ghost use Rattle.dg_volume.specs.Stands.{Tells};
ghost use Rattle.dg_volume.specs.Sizes.{images};
ghost use Rattle.dg_rules.specs.Changes.{order_change};
ghost use Rattle.dg_world.specs.inner.ChipReports.{have_line, have_lines, change_lines};
ghost use Rattle.dg_node.specs.Reports.{IsReportOf};

use dg_control::{IMAGES, Order};
use dg_node::ChipReport;
use dg_rules::Report;
use dg_volume::Kept;

/// The most lines of what changed: the order, and what is kept of each image.
pub(crate) const MOST_CHANGES: usize = IMAGES + 1;

/// The line on an image, if what is kept of it changed.
fn have_change(mote: u8, image: u8, before: Option<Kept>, after: Option<Kept>) -> Option<Report>
    ensures { result ≡ have_line mote image before after }
{
    match (before, after) {
        (None, None) => None,
        (Some(_), None) => Some(Report::Lost { mote, image }),
        (None, Some(kept)) => Some(have(mote, image, kept)),
        (Some(old), Some(kept)) => {
            if old.version == kept.version && old.done == kept.done {
                None
            } else {
                Some(have(mote, image, kept))
            }
        }
    }
}

fn have(mote: u8, image: u8, kept: Kept) -> Report
    ensures { result ≡ Report.Have mote image kept.version kept.done }
{
    Report::Have {
        mote,
        image,
        version: kept.version,
        pages: kept.done,
    }
}

/// Appends a line for each image of which what is kept changed. There is capacity for them.
fn push_haves(mote: u8, before: &ChipReport, after: &ChipReport, out: &mut Vec<Report>)
    requires capacity { vec_len out.old + images ≤ vec_capacity out.old }
    ensures reported { out.new.items ≡ out.old.items ++ have_lines mote before.now after.now images }
    ensures capacity { vec_capacity out.new ≡ vec_capacity out.old }
    ensures few { vec_len out.new ≤ vec_len out.old + images }
{
    for image in 0..IMAGES {
        let line = have_change(mote, image as u8, before.kept[image], after.kept[image]);
        push_line(line, out);
    }
}

/// Appends a line, if there is one. There is capacity for it.
pub(crate) fn push_line(line: Option<Report>, out: &mut Vec<Report>)
    requires capacity { vec_len out.old + 1 ≤ vec_capacity out.old }
    ensures reported { out.new.items ≡ out.old.items ++ option_to_list line }
    ensures capacity { vec_capacity out.new ≡ vec_capacity out.old }
    ensures few { vec_len out.new ≤ vec_len out.old + 1 }
{
    if let Some(report) = line {
        out.push_reserved(report);
    }
}

/// Appends the line on the order, if it changed. There is capacity for it.
fn push_order(mote: u8, before: Order, after: Order, out: &mut Vec<Report>)
    requires capacity { vec_len out.old + 1 ≤ vec_capacity out.old }
    ensures reported { out.new.items ≡ out.old.items ++ order_change mote before after }
    ensures capacity { vec_capacity out.new ≡ vec_capacity out.old }
    ensures few { vec_len out.new ≤ vec_len out.old + 1 }
{
    if before == after {
        return;
    }
    out.push_reserved(Report::Order {
        mote,
        number: after.number,
        image: after.image,
        version: after.version,
    });
}

/// Appends the lines of what changed. There is capacity for them.
#[inline(never)]
pub(crate) fn push_changes(mote: u8, before: &ChipReport, after: &ChipReport, out: &mut Vec<Report>)
    requires capacity { vec_len out.old + MOST_CHANGES ≤ vec_capacity out.old }
    ensures reported { out.new.items ≡ out.old.items ++ change_lines mote before.now after.now }
    ensures capacity { vec_capacity out.new ≡ vec_capacity out.old }
    ensures few { vec_len out.new ≤ vec_len out.old + MOST_CHANGES }
{
    push_order(mote, before.order, after.order, out);
    push_haves(mote, before, after, out);
}
