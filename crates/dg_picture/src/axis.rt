//! Draws the axis, and the end of a report that did not end well.
ghost use Rattle.std.specs.Prelude.{◌≡◌, ◌++◌, ◌+◌, ◌*◌, ◌/◌, ◌^◌, ◌≤◌, ◌<◌, ℕ, OnOk};
ghost use Rattle.dg_layout.specs.Layout.{each};
ghost use Rattle.dg_picture.specs.Texts.{minutes_text, rest_text, moment_text};
ghost use Rattle.dg_picture.specs.Picture.{place_text, tick_line, tick_text, axis_name, name_text, axis_text, ending_text};

use crate::pieces::{Piece, push_pieces};
use dg_layout::{Frame, Grid, foot_of, left_of, place_at};
use std::alloc::AllocError;

const HOUR: u64 = 3_600_000;

// Appends hours and minutes, or minutes alone where there is no hour.
fn push_minutes(out: &mut Vec<u8>, ms: u64) -> Result<(), AllocError>
    ensures { OnOk result (out.new.items ≡ out.old.items ++ minutes_text ms) }
{
    if ms < HOUR {
        return push_pieces(out, &[Piece::Long(ms / 60_000)]);
    }
    push_pieces(
        out,
        &[
            Piece::Long(ms / HOUR),
            Piece::Text(b":"),
            Piece::Two(ms / 60_000 % 60),
        ],
    )
}

// Appends the milliseconds after a full second, where there are any.
fn push_rest(out: &mut Vec<u8>, ms: u64) -> Result<(), AllocError>
    ensures { OnOk result (out.new.items ≡ out.old.items ++ rest_text ms) }
{
    if ms % 1000 == 0 {
        return Ok(());
    }
    push_pieces(out, &[Piece::Text(b"."), Piece::Three(ms % 1000)])
}

// Appends a moment.
#[tactic(auto, unfolding(crate::specs::Texts::moment_text))]
fn push_moment(out: &mut Vec<u8>, ms: u64) -> Result<(), AllocError>
    ensures { OnOk result (out.new.items ≡ out.old.items ++ moment_text ms) }
{
    push_minutes(out, ms)?;
    push_pieces(out, &[Piece::Text(b":"), Piece::Two(ms / 1000 % 60)])?;
    push_rest(out, ms)?;
    Ok(())
}

// Appends a place of the axis.
fn push_place(out: &mut Vec<u8>, timed: bool, place: u64) -> Result<(), AllocError>
    ensures { OnOk result (out.new.items ≡ out.old.items ++ place_text timed place) }
{
    if timed {
        return push_moment(out, place);
    }
    push_pieces(out, &[Piece::Long(place)])
}

// Appends the line of a tick.
fn push_line(out: &mut Vec<u8>, left: u32, foot: u32) -> Result<(), AllocError>
    requires { foot < 200000 }
    ensures { OnOk result (out.new.items ≡ out.old.items ++ tick_line left foot) }
{
    push_pieces(
        out,
        &[
            Piece::Text(b"<path class=\"r\" d=\"M"),
            Piece::Number(left),
            Piece::Text(b" 44V"),
            Piece::Number(foot + 4),
            Piece::Text(b"\"/><text class=\"a\" x=\""),
            Piece::Number(left),
            Piece::Text(b"\" y=\""),
            Piece::Number(foot + 16),
            Piece::Text(b"\">"),
        ],
    )
}

// Appends a tick.
#[tactic(auto, unfolding(crate::specs::Picture::tick_text))]
fn push_tick(
    out: &mut Vec<u8>,
    timed: bool,
    frame: Frame,
    grid: Grid,
    tick: u8,
) -> Result<(), AllocError>
    requires rows { frame.rows ≤ 256 }
    requires grid { (k : ℕ) → k < grid.columns → k * grid.per < 2 ^ 64 }
    requires tick { 10 * tick < grid.columns }
    ensures { OnOk result (out.new.items ≡ out.old.items ++ tick_text timed frame grid tick) }
{
    let column = 10 * tick;
    push_line(out, left_of(grid, column), foot_of(frame))?;
    push_place(out, timed, place_at(grid, column))?;
    out.extend_from_slice(b"</text>\n")?;
    Ok(())
}

// Appends all ticks.
fn push_ticks(out: &mut Vec<u8>, timed: bool, frame: Frame, grid: Grid) -> Result<(), AllocError>
    requires rows { frame.rows ≤ 256 }
    requires grid { (k : ℕ) → k < grid.columns → k * grid.per < 2 ^ 64 }
    requires few { grid.columns ≤ 240 }
    ensures { OnOk result (out.new.items ≡ out.old.items ++ each (tick_text timed frame grid) ((grid.columns + 9) / 10)) }
{
    for tick in 0..(grid.columns + 9) / 10 {
        push_tick(out, timed, frame, grid, tick)?;
    }
    Ok(())
}

// The caption of the axis.
fn axis_name(timed: bool) -> &'static [u8]
    ensures { result.now ≡ axis_name timed }
{
    if timed {
        return b"time";
    }
    b"line"
}

// Appends the caption of the axis.
fn push_name(out: &mut Vec<u8>, timed: bool, foot: u32) -> Result<(), AllocError>
    requires { foot < 200000 }
    ensures { OnOk result (out.new.items ≡ out.old.items ++ name_text timed foot) }
{
    push_pieces(
        out,
        &[
            Piece::Text(b"<text x=\"80\" y=\""),
            Piece::Number(foot + 16),
            Piece::Text(b"\" class=\"m\">"),
            Piece::Text(axis_name(timed)),
            Piece::Text(b"</text>\n"),
        ],
    )
}

/// Appends the axis.
#[tactic(auto, unfolding(crate::specs::Picture::axis_text))]
pub fn push_axis(out: &mut Vec<u8>, timed: bool, frame: Frame, grid: Grid) -> Result<(), AllocError>
    requires rows { frame.rows ≤ 256 }
    requires grid { (k : ℕ) → k < grid.columns → k * grid.per < 2 ^ 64 }
    requires few { grid.columns ≤ 240 }
    ensures { OnOk result (out.new.items ≡ out.old.items ++ axis_text timed frame grid) }
{
    push_name(out, timed, foot_of(frame))?;
    push_ticks(out, timed, frame, grid)?;
    Ok(())
}

/// Appends the last line of a replay that did not end well, where there is one.
pub fn push_ending(out: &mut Vec<u8>, right: u32, foot: u32, words: &[u8]) -> Result<(), AllocError>
    requires { foot < 200000 }
    ensures { OnOk result (out.new.items ≡ out.old.items ++ ending_text right foot words.now) }
{
    if words.is_empty() {
        return Ok(());
    }
    push_pieces(
        out,
        &[
            Piece::Text(b"<path class=\"x\" d=\"M"),
            Piece::Number(right),
            Piece::Text(b" 44V"),
            Piece::Number(foot),
            Piece::Text(b"\"/><text x=\"1312\" y=\""),
            Piece::Number(foot + 16),
            Piece::Text(b"\">ended: "),
            Piece::Text(words),
            Piece::Text(b"</text>\n"),
        ],
    )
}
