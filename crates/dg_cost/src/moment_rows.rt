//! The rows of moments.
ghost use Rattle.std.specs.Prelude.{◌≡◌, ◌++◌, List, Option, OnOk};
ghost use Rattle.std.specs.List.{flat_map};
ghost use Rattle.std.specs.BTreeMap.{IsOrdered};
ghost use Rattle.dg_moments.specs.Wholes.{whole_cmp, image_version_cmp};
ghost use Rattle.dg_cost.specs.MomentRows.{rows_of_whole, whole_rows, rows_of_all, rows_of_newest, newest_rows};
ghost use Rattle.dg_cost.specs.MomentRows.{AreNewest};
ghost use Rattle.dg_cost_text.specs.Moments.{summed_table};
ghost use Rattle.dg_cost_text.specs.Table.{table_of_rows};
ghost use Rattle.dg_cost_text.specs.declared.moment.Moment.{Moment};

use dg_base::ImageVersion;
use dg_cost_text::{Moment, Rows, What};
use dg_count::Counter;
use dg_meter::SLOTS;
use dg_moments::{Whole, Wholes};
use std::alloc::AllocError;
use std::collections::BTreeMap;

/// The rows of when images became whole at a mote, by image, version and times.
pub fn push_wholes(rows: &mut Rows, mote: usize, wholes: &Wholes) -> Result<(), AllocError>
    ensures rows { OnOk result (table_of_rows rows.new ≡ table_of_rows rows.old
        ++ whole_rows mote wholes.now.moments.entries) }
    ensures sums { OnOk result (summed_table rows.new ≡ summed_table rows.old) }
    ensures ordered { OnOk result (IsOrdered whole_cmp wholes.now.moments) }
{
    for (whole, at) in &wholes.moments {
        push_whole(rows, mote, whole, *at)?;
    }
    Ok(())
}

/// The rows of an image that became whole, if it was at this mote.
fn push_whole(rows: &mut Rows, mote: usize, whole: &Whole, at: Moment) -> Result<(), AllocError>
    ensures rows { OnOk result (table_of_rows rows.new ≡ table_of_rows rows.old ++ rows_of_whole mote (whole.now, at)) }
    ensures sums { OnOk result (summed_table rows.new ≡ summed_table rows.old) }
{
    if usize::from(whole.mote) != mote {
        return Ok(());
    }
    let what = What::Whole {
        image: whole.image,
        version: whole.version,
        times: whole.times,
    };
    rows.moment(what, at)
}

/// The rows of the moments of all motes.
pub fn push_all_moments(rows: &mut Rows, counter: &Counter) -> Result<(), AllocError>
    ensures rows { OnOk result ((newest : List (Option Moment)) × AreNewest counter.now newest
        × (table_of_rows rows.new ≡ table_of_rows rows.old
        ++ (flat_map rows_of_all counter.now.wholes.all.entries ++ newest_rows 1 newest))) }
    ensures ordered { OnOk result (IsOrdered image_version_cmp counter.now.wholes.all) }
{
    push_kept(rows, &counter.wholes.all)?;
    push_newest(rows, counter)?;
    Ok(())
}

/// The rows of when all motes kept a version of an image.
fn push_kept(rows: &mut Rows, kept: &BTreeMap<ImageVersion, Moment>) -> Result<(), AllocError>
    ensures rows { OnOk result (table_of_rows rows.new ≡ table_of_rows rows.old
        ++ flat_map rows_of_all kept.now.entries) }
    ensures ordered { OnOk result (IsOrdered image_version_cmp kept.now) }
{
    for (image_version, at) in kept {
        let what = What::All {
            image: image_version.image,
            version: image_version.version,
        };
        rows.moment(what, *at)?;
    }
    Ok(())
}

/// The rows of when all motes began to keep the newest version of an image.
fn push_newest(rows: &mut Rows, counter: &Counter) -> Result<(), AllocError>
    ensures { OnOk result ((newest : List (Option Moment)) × AreNewest counter.now newest
        × (table_of_rows rows.new ≡ table_of_rows rows.old ++ newest_rows 1 newest)) }
{
    for image in 1..SLOTS as u8 {
        push_newest_of(rows, image, counter.newest(image))?;
    }
    Ok(())
}

/// The rows of when all motes began to keep the newest version of this image, if they do.
fn push_newest_of(rows: &mut Rows, image: u8, at: Option<Moment>) -> Result<(), AllocError>
    ensures { OnOk result (table_of_rows rows.new ≡ table_of_rows rows.old ++ rows_of_newest image at) }
{
    match at {
        Some(at) => rows.moment(What::Newest { image }, at),
        None => Ok(()),
    }
}
