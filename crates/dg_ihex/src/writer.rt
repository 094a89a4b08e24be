//! Writes HEX files.
ghost use Rattle.std.specs.Prelude.{◌≡◌, ◌+◌, ◌*◌, ◌<◌, ◌≤◌, ◌++◌, length, map, OnOk, IfOk};
ghost use Rattle.std.specs.Char.{to_ascii_uppercase};
ghost use Rattle.std.specs.List.{flat_map};
ghost use Rattle.dg_ihex.specs.Sizes.{longest_image, piece_bytes};
ghost use Rattle.dg_ihex.specs.Written.{base_lines, record_checksum, fields_of_record, line_of_record, lines_at};
ghost use Rattle.dg_ihex.specs.inner.Words.{ended_by_feed};
ghost use Rattle.dg_ihex.specs.Written.{written_file};
ghost use Rattle.dg_ihex.specs.inner.Words.{upper_hex};

use crate::record::{SEGMENT, sum_of};
use dg_base::push_hex;
use std::alloc::{AllocError, Global};

/// The most bytes of a data record that is written.
pub(crate) const PIECE: usize = 16;

/// The types of records that are written.
const DATA: u8 = 0;

const END: u8 = 1;

const BASE: u8 = 4;

/// The HEX file of an image from address 0. It has data records of 16 bytes, of which the last may
/// be shorter, and the end record. A record of type 04 comes before each byte whose address is a
/// positive multiple of 65,536. Its lines are in upper case, and each ends with LF.
pub fn write_ihex(alloc: Global, bytes: &[u8]) -> Result<Vec<u8>, AllocError>
    requires some { 1 ≤ length bytes.now }
    requires fits { length bytes.now ≤ longest_image }
    ensures { IfOk result (λ text. text.items ≡ written_file bytes.now) }
{
    let mut text = Vec::new(alloc);
    for piece in 0..(bytes.len() + PIECE - 1) / PIECE {
        push_piece(&mut text, bytes, piece)?;
    }
    push_line(&mut text, END, 0, &[])?;
    Ok(text)
}

// Appends the lines of a piece.
fn push_piece(text: &mut Vec<u8>, bytes: &[u8], piece: usize) -> Result<(), AllocError>
    requires within { piece * piece_bytes < length bytes.now }
    requires fits { length bytes.now ≤ longest_image }
    ensures { OnOk result (text.new.items ≡ text.old.items ++ flat_map ended_by_feed (lines_at bytes.now piece)) }
{
    let address = piece * PIECE;
    let end = (address + PIECE).min(bytes.len());
    push_base(text, piece)?;
    push_line(text, DATA, (address % SEGMENT) as u16, &bytes[address..end])
}

// Appends the base of the addresses from a piece on, if it is a new one.
fn push_base(text: &mut Vec<u8>, piece: usize) -> Result<(), AllocError>
    requires { piece * piece_bytes < longest_image }
    ensures { OnOk result (text.new.items ≡ text.old.items ++ flat_map ended_by_feed (base_lines piece)) }
{
    let address = piece * PIECE;
    if address % SEGMENT != 0 {
        return Ok(());
    }
    if piece == 0 {
        return Ok(());
    }
    let units = address / SEGMENT;
    push_line(text, BASE, 0, &[(units / 256) as u8, (units % 256) as u8])
}

// Appends the line of a record.
fn push_line(text: &mut Vec<u8>, kind: u8, offset: u16, bytes: &[u8]) -> Result<(), AllocError>
    requires { length bytes.now < 256 }
    ensures { OnOk result (text.new.items ≡ text.old.items ++ ended_by_feed (line_of_record kind offset bytes.now)) }
{
    let head = [
        bytes.len() as u8,
        (offset / 256) as u8,
        (offset % 256) as u8,
        kind,
    ];
    text.push(b':')?;
    push_upper(text, &head)?;
    push_upper(text, bytes)?;
    push_upper(text, &[checksum(&head, bytes)])?;
    text.push(b'\n')?;
    Ok(())
}

// The byte that makes the sum of all 0 modulo 256.
fn checksum(head: &[u8], bytes: &[u8]) -> u8
    ensures { result ≡ record_checksum (head.now ++ bytes.now) }
{
    let total = sum_of(head).wrapping_add(sum_of(bytes));
    0_u8.wrapping_sub(total)
}

// Appends bytes as hex digits in upper case.
fn push_upper(text: &mut Vec<u8>, bytes: &[u8]) -> Result<(), AllocError>
    ensures { OnOk result (text.new.items ≡ text.old.items ++ upper_hex bytes.now) }
{
    let start = text.len();
    push_hex(text, bytes)?;
    capitalize(&mut text[start..]);
    Ok(())
}

// Turns letters into upper case.
fn capitalize(text: &mut [u8])
    ensures { text.new ≡ map to_ascii_uppercase text.old }
{
    for at in 0..text.len() {
        text[at] = text[at].to_ascii_uppercase();
    }
}
