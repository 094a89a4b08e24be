//! Draws a picture.
ghost use Rattle.std.specs.Prelude.{◌≡◌, ℕ, ◌*◌, ◌+◌, ◌^◌, ◌++◌, ◌≤◌, ◌<◌, IfOk, OnOk};
ghost use Rattle.dg_layout.specs.Layout.{each};
ghost use Rattle.dg_picture.specs.Picture.{images_text, starts_text, orders_text, ground_text, events_text};
ghost use Rattle.dg_picture.specs.Picture.{picture_with, drawing_of};

use crate::axis::{push_axis, push_ending};
use crate::bars::push_image;
use crate::marks::push_marks;
use crate::rows::{push_offs, push_rows, push_runs};
use crate::texts::push_head;
use dg_layout::{Frame, Grid, changes, foot_of, frame_for, grid_for, right_of};
use dg_story::{Mark, Told};
use std::alloc::{AllocError, Global};

// Appends all images.
fn push_images(
    alloc: Global,
    out: &mut Vec<u8>,
    frame: Frame,
    grid: Grid,
    told: &[Told],
    changes: &[Told],
) -> Result<(), AllocError>
    requires rows { frame.rows ≤ 256 }
    ensures { OnOk result (out.new.items ≡ out.old.items ++ each (images_text frame grid told.now changes.now) frame.images) }
{
    for before in 0..frame.images {
        push_image(alloc, out, frame, grid, told, changes, before + 1)?;
    }
    Ok(())
}

// Appends the starts of all images.
fn push_starts(
    out: &mut Vec<u8>,
    frame: Frame,
    grid: Grid,
    changes: &[Told],
) -> Result<(), AllocError>
    requires rows { frame.rows ≤ 256 }
    ensures { OnOk result (out.new.items ≡ out.old.items ++ each (starts_text frame grid changes.now) frame.images) }
{
    for before in 0..frame.images {
        let image = before + 1;
        push_marks(out, frame, grid, changes, Mark::Started { image })?;
    }
    Ok(())
}

// Appends the orders of all images.
fn push_orders(
    out: &mut Vec<u8>,
    frame: Frame,
    grid: Grid,
    changes: &[Told],
) -> Result<(), AllocError>
    requires rows { frame.rows ≤ 256 }
    ensures { OnOk result (out.new.items ≡ out.old.items ++ each (orders_text frame grid changes.now) frame.images) }
{
    for before in 0..frame.images {
        let image = before + 1;
        push_marks(out, frame, grid, changes, Mark::Ordered { image })?;
    }
    Ok(())
}

// Appends what comes after the images.
#[tactic(auto, unfolding(crate::specs::Picture::ground_text))]
fn push_ground(
    out: &mut Vec<u8>,
    timed: bool,
    frame: Frame,
    grid: Grid,
    changes: &[Told],
) -> Result<(), AllocError>
    requires rows { frame.rows ≤ 256 }
    requires grid { (k : ℕ) → k < grid.columns → k * grid.per < 2 ^ 64 }
    requires few { grid.columns ≤ 240 }
    ensures { OnOk result (out.new.items ≡ out.old.items ++ ground_text timed frame grid changes.now) }
{
    push_head(out, foot_of(frame))?;
    push_offs(out, frame, grid, changes)?;
    push_axis(out, timed, frame, grid)?;
    push_rows(out, frame, grid)?;
    Ok(())
}

// Appends starts, orders and losses of power.
#[tactic(auto, unfolding(crate::specs::Picture::events_text))]
fn push_events(
    out: &mut Vec<u8>,
    frame: Frame,
    grid: Grid,
    changes: &[Told],
) -> Result<(), AllocError>
    requires rows { frame.rows ≤ 256 }
    ensures { OnOk result (out.new.items ≡ out.old.items ++ events_text frame grid changes.now) }
{
    push_marks(out, frame, grid, changes, Mark::Started { image: 0 })?;
    push_starts(out, frame, grid, changes)?;
    push_marks(out, frame, grid, changes, Mark::Ordered { image: 0 })?;
    push_orders(out, frame, grid, changes)?;
    push_marks(out, frame, grid, changes, Mark::Lost)?;
    Ok(())
}

// Appends a picture.
#[tactic(auto, unfolding(crate::specs::Picture::picture_with))]
fn push_picture(
    alloc: Global,
    out: &mut Vec<u8>,
    timed: bool,
    frame: Frame,
    grid: Grid,
    told: &[Told],
    changes: &[Told],
    words: &[u8],
) -> Result<(), AllocError>
    requires rows { frame.rows ≤ 256 }
    requires grid { (k : ℕ) → k < grid.columns → k * grid.per < 2 ^ 64 }
    requires few { grid.columns ≤ 240 }
    ensures { OnOk result (out.new.items ≡ out.old.items ++ picture_with timed frame grid told.now changes.now words.now) }
{
    push_ground(out, timed, frame, grid, changes)?;
    push_images(alloc, out, frame, grid, told, changes)?;
    push_events(out, frame, grid, changes)?;
    push_runs(out, frame, told)?;
    push_ending(out, right_of(grid), foot_of(frame), words)?;
    out.extend_from_slice(b"</svg>\n")?;
    Ok(())
}

/// The picture of what is reported up to a place, where the report ends in these words.
#[tactic(auto, unfolding(crate::specs::Picture::drawing_of))]
pub fn drawn(
    alloc: Global,
    timed: bool,
    last: u64,
    told: &[Told],
    words: &[u8],
) -> Result<Vec<u8>, AllocError>
    ensures { IfOk result (λ v. v.items ≡ drawing_of timed last told.now words.now) }
{
    let frame = frame_for(told);
    let changes = changes(alloc, told, frame)?;
    let mut out = Vec::new(alloc);
    push_picture(
        alloc,
        &mut out,
        timed,
        frame,
        grid_for(timed, last),
        told,
        &changes,
        words,
    )?;
    Ok(out)
}
