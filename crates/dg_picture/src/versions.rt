//! Draws a line and a number where another version of an image begins.
ghost use Rattle.std.specs.Prelude.{◌≡◌, ◌++◌, ◌+◌, ◌-◌, ◌≤◌, ◌<◌, OnOk};
ghost use Rattle.dg_layout.specs.Layout.{each};
ghost use Rattle.dg_picture.specs.Picture.{version_line, version_text, versions_text};

use crate::pieces::{Piece, push_pieces};
use dg_layout::{Frame, Grid, base_of, left_of, next_column};
use dg_story::{Pages, Told, last_reported};
use std::alloc::AllocError;

fn push_line(
    out: &mut Vec<u8>,
    left: u32,
    base: u32,
    lane: u8,
    version: u32,
) -> Result<(), AllocError>
    requires left { left < 200000 }
    ensures { OnOk result (out.new.items ≡ out.old.items ++ version_line left base lane version) }
{
    push_pieces(
        out,
        &[
            Piece::Text(b"<path class=\"v\" d=\"M"),
            Piece::Number(left),
            Piece::Text(b" "),
            Piece::Number(base),
            Piece::Text(b"v-"),
            Piece::Small(lane),
            Piece::Text(b"\"/><text class=\"n\" x=\""),
            Piece::Number(left + 6),
            Piece::Text(b"\" y=\""),
            Piece::Number(base),
            Piece::Text(b"\">"),
            Piece::Number(version),
            Piece::Text(b"</text>\n"),
        ],
    )
}

// Appends the line and the number of a version that begins.
fn push_version(
    out: &mut Vec<u8>,
    left: u32,
    base: u32,
    lane: u8,
    old: u32,
    new: u32,
) -> Result<(), AllocError>
    requires left { left < 200000 }
    ensures { OnOk result (out.new.items ≡ out.old.items ++ version_text left base lane old new) }
{
    if new == old || new == 0 {
        return Ok(());
    }
    push_line(out, left, base, lane, new)
}

// Appends where versions of an image begin at a mote.
fn push_row(
    out: &mut Vec<u8>,
    frame: Frame,
    grid: Grid,
    changes: &[Told],
    image: u8,
    mote: u32,
) -> Result<(), AllocError>
    requires mote { mote < 256 }
    ensures { OnOk result (out.new.items ≡ out.old.items ++ versions_text frame grid changes.now image mote) }
{
    let base = base_of(frame, mote, image);
    let mut kept = Pages {
        version: 0,
        count: 0,
    };
    let mut rest = changes;
    for k in 0..grid.columns {
        let (column, behind) = next_column(rest, grid.per, k);
        let next = last_reported(kept, mote, image, column);
        push_version(
            out,
            left_of(grid, k),
            base,
            frame.lane,
            kept.version,
            next.version,
        )?;
        kept = next;
        rest = behind;
    }
    Ok(())
}

/// Appends where versions of an image begin at all motes.
pub fn push_versions(
    out: &mut Vec<u8>,
    frame: Frame,
    grid: Grid,
    changes: &[Told],
    image: u8,
) -> Result<(), AllocError>
    requires rows { frame.rows ≤ 256 }
    ensures { OnOk result (out.new.items ≡ out.old.items ++ each (versions_text frame grid changes.now image) frame.rows) }
{
    for mote in 0..frame.rows {
        push_row(out, frame, grid, changes, image, mote)?;
    }
    Ok(())
}
