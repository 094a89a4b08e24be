//! Draws the bars of an image, where its versions begin, and what is kept of it at the end.
ghost use Rattle.std.specs.Prelude.{◌≡◌, ◌++◌, ◌-◌, ◌≤◌, ◌<◌, OnOk};
ghost use Rattle.dg_layout.specs.Counts.{held};
ghost use Rattle.dg_layout.specs.Layout.{each, shown, lane_bottom};
ghost use Rattle.dg_picture.specs.Picture.{step_text, bar_height, bar_text, kept_line, kept_text, image_text, group_text};
ghost use Rattle.dg_picture.specs.Picture.{kept_of, versions_text};

use crate::pieces::{Piece, push_pieces};
use crate::steps::{push_close, push_open, push_turn};
use crate::versions::push_versions;
use dg_layout::{
    Frame, Grid, base_of, height_of, largest, largest_of, left_of, next_column, right_of,
};
use dg_story::{Pages, Told, last_reported, total};
use std::alloc::{AllocError, Global};
use std::collections::BTreeMap;

// The height of the bar of pages.
fn bar_height(counts: &BTreeMap<u32, u8>, lane: u8, pages: Pages) -> u32
    ensures { result ≡ bar_height (held counts.now) lane pages }
{
    height_of(lane, pages.count, largest_of(counts, pages.version))
}

// Appends the steps of all columns.
fn push_steps(
    out: &mut Vec<u8>,
    counts: &BTreeMap<u32, u8>,
    frame: Frame,
    grid: Grid,
    changes: &[Told],
    image: u8,
    mote: u32,
) -> Result<(), AllocError>
    requires mote { mote < 256 }
    ensures { OnOk result (out.new.items ≡ out.old.items ++ each (step_text grid (lane_bottom frame mote image)
        (λ k. bar_height (held counts.now) frame.lane (shown mote image grid.per k changes.now))) grid.columns) }
{
    let base = base_of(frame, mote, image);
    let mut kept = Pages {
        version: 0,
        count: 0,
    };
    let mut rest = changes;
    for k in 0..grid.columns {
        let (column, behind) = next_column(rest, grid.per, k);
        let next = last_reported(kept, mote, image, column);
        let old = bar_height(counts, frame.lane, kept);
        let new = bar_height(counts, frame.lane, next);
        push_turn(out, left_of(grid, k), base, old, new)?;
        kept = next;
        rest = behind;
    }
    Ok(())
}

// Appends the bar of an image at a mote.
#[tactic(auto, unfolding(crate::specs::Picture::steps_text))]
fn push_bar(
    out: &mut Vec<u8>,
    counts: &BTreeMap<u32, u8>,
    frame: Frame,
    grid: Grid,
    changes: &[Told],
    image: u8,
    mote: u32,
) -> Result<(), AllocError>
    requires mote { mote < 256 }
    ensures { OnOk result (out.new.items ≡ out.old.items ++ bar_text (held counts.now) frame grid changes.now image mote) }
{
    push_open(out, base_of(frame, mote, image))?;
    push_steps(out, counts, frame, grid, changes, image, mote)?;
    push_close(out, right_of(grid), base_of(frame, mote, image))?;
    Ok(())
}

// Appends the bars of an image at all motes.
fn push_bars(
    out: &mut Vec<u8>,
    counts: &BTreeMap<u32, u8>,
    frame: Frame,
    grid: Grid,
    changes: &[Told],
    image: u8,
) -> Result<(), AllocError>
    requires rows { frame.rows ≤ 256 }
    ensures { OnOk result (out.new.items ≡ out.old.items
        ++ each (bar_text (held counts.now) frame grid changes.now image) frame.rows) }
{
    for mote in 0..frame.rows {
        push_bar(out, counts, frame, grid, changes, image, mote)?;
    }
    Ok(())
}

fn push_line(
    out: &mut Vec<u8>,
    base: u32,
    image: u8,
    version: u32,
    count: u8,
) -> Result<(), AllocError>
    ensures { OnOk result (out.new.items ≡ out.old.items ++ kept_line base image version count) }
{
    push_pieces(
        out,
        &[
            Piece::Text(b"<text x=\"1312\" y=\""),
            Piece::Number(base),
            Piece::Text(b"\">image "),
            Piece::Small(image),
            Piece::Text(b" version "),
            Piece::Number(version),
            Piece::Text(b": "),
            Piece::Small(count),
            Piece::Text(b" pages</text>\n"),
        ],
    )
}

// Appends what is kept of an image at the end.
fn push_kept(out: &mut Vec<u8>, base: u32, image: u8, kept: Option<Pages>) -> Result<(), AllocError>
    ensures { OnOk result (out.new.items ≡ out.old.items ++ kept_text base image kept) }
{
    match kept {
        None => Ok(()),
        Some(pages) => push_line(out, base, image, pages.version, pages.count),
    }
}

// Appends what is kept of an image at all motes at the end.
fn push_all_kept(
    out: &mut Vec<u8>,
    frame: Frame,
    told: &[Told],
    image: u8,
) -> Result<(), AllocError>
    requires rows { frame.rows ≤ 256 }
    ensures { OnOk result (out.new.items ≡ out.old.items ++ each (kept_of frame image told.now) frame.rows) }
{
    for mote in 0..frame.rows {
        push_kept(
            out,
            base_of(frame, mote, image),
            image,
            total(mote, image, told),
        )?;
    }
    Ok(())
}

fn push_group(out: &mut Vec<u8>, image: u8) -> Result<(), AllocError>
    ensures { OnOk result (out.new.items ≡ out.old.items ++ group_text image) }
{
    push_pieces(
        out,
        &[
            Piece::Text(b"<g class=\"i"),
            Piece::Small(image),
            Piece::Text(b"\"><path d=\""),
        ],
    )
}

/// Appends all that is drawn of an image.
#[tactic(auto, unfolding(crate::specs::Picture::image_text))]
pub fn push_image(
    alloc: Global,
    out: &mut Vec<u8>,
    frame: Frame,
    grid: Grid,
    told: &[Told],
    changes: &[Told],
    image: u8,
) -> Result<(), AllocError>
    requires rows { frame.rows ≤ 256 }
    ensures { OnOk result (out.new.items ≡ out.old.items ++ image_text frame grid told.now changes.now image) }
{
    let counts = largest(alloc, image, told)?;
    push_group(out, image)?;
    push_bars(out, &counts, frame, grid, changes, image)?;
    out.extend_from_slice(b"\"/>\n")?;
    push_versions(out, frame, grid, changes, image)?;
    push_all_kept(out, frame, told, image)?;
    out.extend_from_slice(b"</g>\n")?;
    Ok(())
}
