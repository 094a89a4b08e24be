//! Rows as comma-separated values.

ghost use Rattle.std.specs.Prelude.{◌≡◌, ◌++◌, OnOk, IfOk};
ghost use Rattle.std.specs.Fmt.{decimal};
ghost use Rattle.dg_cost_text.specs.Csv.{row_text, rows_text, motes_text, csv};

use crate::rows::{Counted, Row, Rows};
use itoa::Buffer;
use std::alloc::{AllocError, Global};

/// Appends a number.
pub(crate) fn push_u64(text: &mut Vec<u8>, number: u64) -> Result<(), AllocError>
    ensures { OnOk result (text.new.items ≡ text.old.items ++ decimal number) }
{
    text.extend_from_slice(Buffer::new().format(number).as_bytes())
}

/// Appends a row, after the name of its mote or `all`.
fn push_row(text: &mut Vec<u8>, name: &[u8], row: &Row) -> Result<(), AllocError>
    ensures { OnOk result (text.new.items ≡ text.old.items ++ row_text name.now row.now) }
{
    if row.value == 0 {
        return Ok(());
    }
    text.extend_from_slice(name)?;
    text.push(b',')?;
    text.extend_from_slice(&row.key)?;
    text.push(b',')?;
    push_u64(text, row.value)?;
    text.push(b'\n')?;
    Ok(())
}

/// Appends rows, each after the name of its mote or `all`.
fn push_rows(text: &mut Vec<u8>, name: &[u8], rows: &[Row]) -> Result<(), AllocError>
    ensures { OnOk result (text.new.items ≡ text.old.items ++ rows_text name.now rows.now) }
{
    for row in rows {
        push_row(text, name, row)?;
    }
    Ok(())
}

/// Appends the rows of the mote with this number.
fn push_mote(
    alloc: Global,
    text: &mut Vec<u8>,
    number: usize,
    rows: &Rows,
) -> Result<(), AllocError>
    ensures { OnOk result (text.new.items ≡ text.old.items ++ rows_text (decimal number) rows.now.rows.items) }
{
    let mut name = Vec::new(alloc);
    push_u64(&mut name, number as u64)?;
    push_rows(text, &name, &rows.rows)
}

/// Appends the rows of motes, the first of which has number 0.
fn push_motes(alloc: Global, text: &mut Vec<u8>, motes: &[Rows]) -> Result<(), AllocError>
    ensures { OnOk result (text.new.items ≡ text.old.items ++ motes_text 0 motes.now) }
{
    for number in 0..motes.len() {
        push_mote(alloc, text, number, &motes[number])?;
    }
    Ok(())
}

/// The text of the rows of motes, and of all: each whose value is not 0, after the first line `mote,key,value`.
pub fn csv_text(alloc: Global, counted: &Counted) -> Result<Vec<u8>, AllocError>
    ensures { IfOk result (λ text. text.items ≡ csv counted.now) }
{
    let mut text = Vec::new(alloc);
    text.extend_from_slice(b"mote,key,value\n")?;
    push_motes(alloc, &mut text, &counted.motes)?;
    push_rows(&mut text, b"all", &counted.all.rows)?;
    Ok(text)
}
