//! Writes texts and numbers, one after the other.
ghost use Rattle.std.specs.Prelude.{◌≡◌, ◌++◌, decimal, OnOk};
ghost use Rattle.dg_picture.specs.Texts.{two_text, three_text, piece_text, pieces_text};

use itoa::Buffer;
use std::alloc::AllocError;

/// A part of a text.
#[derive(Clone, Copy)]
pub enum Piece<'a> {
    /// Bytes as they are.
    Text(&'a [u8]),
    /// A number in decimal.
    Number(u32),
    /// A small number in decimal.
    Small(u8),
    /// A number in decimal that may be long.
    Long(u64),
    /// A number with at least two digits.
    Two(u64),
    /// A number with at least three digits.
    Three(u64),
}

// Appends a number in decimal.
fn push_number(out: &mut Vec<u8>, number: u64) -> Result<(), AllocError>
    ensures { OnOk result (out.new.items ≡ out.old.items ++ decimal number) }
{
    out.extend_from_slice(Buffer::new().format(number).as_bytes())
}

// Appends a number with at least two digits.
fn push_two(out: &mut Vec<u8>, number: u64) -> Result<(), AllocError>
    ensures { OnOk result (out.new.items ≡ out.old.items ++ two_text number) }
{
    if number < 10 {
        out.push(b'0')?;
    }
    push_number(out, number)?;
    Ok(())
}

// Appends a number with at least three digits.
fn push_three(out: &mut Vec<u8>, number: u64) -> Result<(), AllocError>
    ensures { OnOk result (out.new.items ≡ out.old.items ++ three_text number) }
{
    if number < 100 {
        out.push(b'0')?;
    }
    push_two(out, number)?;
    Ok(())
}

// Appends a piece.
fn push_piece(out: &mut Vec<u8>, piece: Piece) -> Result<(), AllocError>
    ensures { OnOk result (out.new.items ≡ out.old.items ++ piece_text piece.entry) }
{
    match piece {
        Piece::Text(text) => out.extend_from_slice(text),
        Piece::Number(number) => push_number(out, u64::from(number)),
        Piece::Small(number) => push_number(out, u64::from(number)),
        Piece::Long(number) => push_number(out, number),
        Piece::Two(number) => push_two(out, number),
        Piece::Three(number) => push_three(out, number),
    }
}

/// Appends pieces in their order.
pub fn push_pieces(out: &mut Vec<u8>, pieces: &[Piece]) -> Result<(), AllocError>
    ensures { OnOk result (out.new.items ≡ out.old.items ++ pieces_text pieces.now) }
{
    for piece in pieces {
        push_piece(out, *piece)?;
    }
    Ok(())
}
