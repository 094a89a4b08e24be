//! Draws a line that goes up and down in steps.
ghost use Rattle.std.specs.Prelude.{◌≡◌, ◌-◌, ◌++◌, OnOk};
ghost use Rattle.dg_picture.specs.Picture.{open_text, close_text, step_to, turn_text};

use crate::pieces::{Piece, push_pieces};
use std::alloc::AllocError;

/// Appends where the line begins.
pub fn push_open(out: &mut Vec<u8>, base: u32) -> Result<(), AllocError>
    ensures { OnOk result (out.new.items ≡ out.old.items ++ open_text base) }
{
    push_pieces(out, &[Piece::Text(b"M100 "), Piece::Number(base)])
}

// Appends a step to another height.
fn push_step(out: &mut Vec<u8>, left: u32, top: u32) -> Result<(), AllocError>
    ensures { OnOk result (out.new.items ≡ out.old.items ++ step_to left top) }
{
    push_pieces(
        out,
        &[
            Piece::Text(b"H"),
            Piece::Number(left),
            Piece::Text(b"V"),
            Piece::Number(top),
        ],
    )
}

/// Appends a step where the height before it and its own differ.
pub fn push_turn(
    out: &mut Vec<u8>,
    left: u32,
    base: u32,
    old: u32,
    new: u32,
) -> Result<(), AllocError>
    ensures { OnOk result (out.new.items ≡ out.old.items ++ turn_text left base old new) }
{
    if new == old {
        return Ok(());
    }
    push_step(out, left, base.saturating_sub(new))
}

/// Appends where the line ends.
pub fn push_close(out: &mut Vec<u8>, right: u32, base: u32) -> Result<(), AllocError>
    ensures { OnOk result (out.new.items ≡ out.old.items ++ close_text right base) }
{
    push_pieces(
        out,
        &[
            Piece::Text(b"H"),
            Piece::Number(right),
            Piece::Text(b"V"),
            Piece::Number(base),
            Piece::Text(b"z"),
        ],
    )
}
