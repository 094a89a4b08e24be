//! Draws the rows: their names, their grounds, when their motes are off, and what runs at the end.
ghost use Rattle.std.specs.Prelude.{◌≡◌, ◌++◌, ◌+◌, ◌-◌, ◌≤◌, ◌<◌, OnOk};
ghost use Rattle.dg_layout.specs.Layout.{each, is_on, lane_bottom};
ghost use Rattle.dg_picture.specs.Picture.{step_text, off_height, off_text, offs_text, row_text, run_text, run_of};

use crate::pieces::{Piece, push_pieces};
use crate::steps::{push_close, push_open, push_turn};
use dg_layout::{Frame, Grid, base_of, bottom_of, left_of, middle_of, next_column, right_of};
use dg_story::{Ended, Told, how_ended, last_powered};
use std::alloc::AllocError;

// The height of the ground of a mote that is off.
fn off_height(row: u8, on: bool) -> u32
    ensures { result ≡ off_height row on }
{
    if on {
        return 0;
    }
    u32::from(row.saturating_sub(2))
}

// Appends the steps of all columns.
fn push_steps(
    out: &mut Vec<u8>,
    frame: Frame,
    grid: Grid,
    changes: &[Told],
    mote: u32,
) -> Result<(), AllocError>
    requires mote { mote < 256 }
    ensures { OnOk result (out.new.items ≡ out.old.items ++ each (step_text grid (lane_bottom frame mote frame.images)
        (λ k. off_height frame.row (is_on mote grid.per k changes.now))) grid.columns) }
{
    let base = bottom_of(frame, mote);
    let mut on = false;
    let mut rest = changes;
    for k in 0..grid.columns {
        let (column, behind) = next_column(rest, grid.per, k);
        let next = last_powered(on, mote, column);
        let old = off_height(frame.row, on);
        let new = off_height(frame.row, next);
        push_turn(out, left_of(grid, k), base, old, new)?;
        on = next;
        rest = behind;
    }
    Ok(())
}

// Appends the ground of a mote that is off.
#[tactic(auto, unfolding(crate::specs::Picture::steps_text))]
fn push_off(
    out: &mut Vec<u8>,
    frame: Frame,
    grid: Grid,
    changes: &[Told],
    mote: u32,
) -> Result<(), AllocError>
    requires mote { mote < 256 }
    ensures { OnOk result (out.new.items ≡ out.old.items ++ off_text frame grid changes.now mote) }
{
    let base = bottom_of(frame, mote);
    push_open(out, base)?;
    push_steps(out, frame, grid, changes, mote)?;
    push_close(out, right_of(grid), base)?;
    Ok(())
}

// Appends the grounds of all motes that are off.
fn push_each_off(
    out: &mut Vec<u8>,
    frame: Frame,
    grid: Grid,
    changes: &[Told],
) -> Result<(), AllocError>
    requires rows { frame.rows ≤ 256 }
    ensures { OnOk result (out.new.items ≡ out.old.items ++ each (off_text frame grid changes.now) frame.rows) }
{
    for mote in 0..frame.rows {
        push_off(out, frame, grid, changes, mote)?;
    }
    Ok(())
}

/// Appends when motes are off.
#[tactic(auto, unfolding(crate::specs::Picture::offs_text))]
pub fn push_offs(
    out: &mut Vec<u8>,
    frame: Frame,
    grid: Grid,
    changes: &[Told],
) -> Result<(), AllocError>
    requires rows { frame.rows ≤ 256 }
    ensures { OnOk result (out.new.items ≡ out.old.items ++ offs_text frame grid changes.now) }
{
    out.extend_from_slice(b"<path class=\"f\" d=\"")?;
    push_each_off(out, frame, grid, changes)?;
    out.extend_from_slice(b"\"/>\n")?;
    Ok(())
}

// Appends the name and the ground of a row.
fn push_row(out: &mut Vec<u8>, frame: Frame, grid: Grid, mote: u32) -> Result<(), AllocError>
    requires { mote < 256 }
    ensures { OnOk result (out.new.items ≡ out.old.items ++ row_text frame grid mote) }
{
    push_pieces(
        out,
        &[
            Piece::Text(b"<text x=\"92\" y=\""),
            Piece::Number(middle_of(frame, mote)),
            Piece::Text(b"\" class=\"m\">mote "),
            Piece::Number(mote),
            Piece::Text(b"</text><path class=\"r\" d=\"M100 "),
            Piece::Number(bottom_of(frame, mote)),
            Piece::Text(b"H"),
            Piece::Number(right_of(grid)),
            Piece::Text(b"\"/>\n"),
        ],
    )
}

/// Appends the names and the grounds of all rows.
pub fn push_rows(out: &mut Vec<u8>, frame: Frame, grid: Grid) -> Result<(), AllocError>
    requires rows { frame.rows ≤ 256 }
    ensures { OnOk result (out.new.items ≡ out.old.items ++ each (row_text frame grid) frame.rows) }
{
    for mote in 0..frame.rows {
        push_row(out, frame, grid, mote)?;
    }
    Ok(())
}

// Appends that a mote is off at the end.
fn push_ended_off(out: &mut Vec<u8>, base: u32) -> Result<(), AllocError>
    ensures { OnOk result (out.new.items ≡ out.old.items ++ run_text base Ended.Off) }
{
    push_pieces(
        out,
        &[
            Piece::Text(b"<text class=\"k\" x=\"1312\" y=\""),
            Piece::Number(base),
            Piece::Text(b"\">off</text>\n"),
        ],
    )
}

// Appends what runs at the end.
fn push_ended_on(out: &mut Vec<u8>, base: u32, image: u8, version: u32) -> Result<(), AllocError>
    ensures { OnOk result (out.new.items ≡ out.old.items ++ run_text base (Ended.On image version)) }
{
    push_pieces(
        out,
        &[
            Piece::Text(b"<text class=\"k\" x=\"1312\" y=\""),
            Piece::Number(base),
            Piece::Text(b"\">runs image "),
            Piece::Small(image),
            Piece::Text(b" version "),
            Piece::Number(version),
            Piece::Text(b"</text>\n"),
        ],
    )
}

// Appends how a mote ended, where a line says it.
fn push_run(out: &mut Vec<u8>, base: u32, how: Ended) -> Result<(), AllocError>
    ensures { OnOk result (out.new.items ≡ out.old.items ++ run_text base how) }
{
    match how {
        Ended::Untold => Ok(()),
        Ended::Off => push_ended_off(out, base),
        Ended::On { image, version } => push_ended_on(out, base, image, version),
    }
}

/// Appends how all motes ended.
pub fn push_runs(out: &mut Vec<u8>, frame: Frame, told: &[Told]) -> Result<(), AllocError>
    requires rows { frame.rows ≤ 256 }
    ensures { OnOk result (out.new.items ≡ out.old.items ++ each (run_of frame told.now) frame.rows) }
{
    for mote in 0..frame.rows {
        push_run(out, base_of(frame, mote, 0), how_ended(mote, told))?;
    }
    Ok(())
}
