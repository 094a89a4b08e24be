//! Draws the marks of starts, orders and losses of power.
ghost use Rattle.std.specs.Prelude.{◌≡◌, ◌+◌, ◌*◌, ◌++◌, ◌≤◌, ◌<◌, take, OnOk, if◌then◌else◌};
ghost use Rattle.std.specs.List.{list_any};
ghost use Rattle.dg_story.specs.Reports.{is_marked};
ghost use Rattle.dg_layout.specs.Layout.{each, lane_bottom};
ghost use Rattle.dg_picture.specs.Picture.{point_text, mark_text, lane_image, row_marks, marks_text};

use crate::pieces::{Piece, push_pieces};
use crate::texts::{form_of, push_class};
use dg_layout::{Frame, Grid, base_of, left_of, next_column};
use dg_story::{Mark, Told, has_mark};
use std::alloc::AllocError;

// The image in whose lane a mark is.
fn lane_image(mark: Mark) -> u8
    ensures { result ≡ lane_image mark }
{
    match mark {
        Mark::Started { image } => image,
        Mark::Ordered { image } => image,
        Mark::Lost => 0,
    }
}

// Appends a mark.
fn push_point(out: &mut Vec<u8>, mark: Mark, left: u32, base: u32) -> Result<(), AllocError>
    ensures { OnOk result (out.new.items ≡ out.old.items ++ point_text mark left base) }
{
    push_pieces(
        out,
        &[
            Piece::Text(b"M"),
            Piece::Number(left),
            Piece::Text(b" "),
            Piece::Number(base),
            Piece::Text(form_of(mark)),
        ],
    )
}

// Appends a mark where some change of a column is marked.
fn push_mark(
    out: &mut Vec<u8>,
    mark: Mark,
    column: &[Told],
    left: u32,
    base: u32,
    mote: u32,
) -> Result<(), AllocError>
    ensures { OnOk result (out.new.items ≡ out.old.items ++ mark_text mark column.now left base mote) }
{
    if !has_mark(mark, mote, column) {
        return Ok(());
    }
    push_point(out, mark, left, base)
}

// Appends the marks at a mote.
fn push_row(
    out: &mut Vec<u8>,
    mark: Mark,
    frame: Frame,
    grid: Grid,
    changes: &[Told],
    mote: u32,
) -> Result<(), AllocError>
    requires mote { mote < 256 }
    ensures { OnOk result (out.new.items ≡ out.old.items ++ row_marks mark frame grid changes.now mote) }
{
    let base = base_of(frame, mote, lane_image(mark));
    let mut rest = changes;
    for k in 0..grid.columns {
        let (column, behind) = next_column(rest, grid.per, k);
        push_mark(out, mark, column, left_of(grid, k), base, mote)?;
        rest = behind;
    }
    Ok(())
}

// Appends the marks at all motes.
fn push_rows(
    out: &mut Vec<u8>,
    frame: Frame,
    grid: Grid,
    changes: &[Told],
    mark: Mark,
) -> Result<(), AllocError>
    requires rows { frame.rows ≤ 256 }
    ensures { OnOk result (out.new.items ≡ out.old.items ++ each (row_marks mark frame grid changes.now) frame.rows) }
{
    for mote in 0..frame.rows {
        push_row(out, mark, frame, grid, changes, mote)?;
    }
    Ok(())
}

/// Appends all marks of a kind.
#[tactic(auto, unfolding(crate::specs::Picture::marks_text))]
pub fn push_marks(
    out: &mut Vec<u8>,
    frame: Frame,
    grid: Grid,
    changes: &[Told],
    mark: Mark,
) -> Result<(), AllocError>
    requires rows { frame.rows ≤ 256 }
    ensures { OnOk result (out.new.items ≡ out.old.items ++ marks_text frame grid changes.now mark) }
{
    out.extend_from_slice(b"<path class=\"")?;
    push_class(out, mark)?;
    out.extend_from_slice(b"\" d=\"")?;
    push_rows(out, frame, grid, changes, mark)?;
    out.extend_from_slice(b"\"/>\n")?;
    Ok(())
}
