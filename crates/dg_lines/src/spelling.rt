//! Writes lines of fields.
ghost use Rattle.std.specs.Prelude.{◌≡◌, ◌∷◌, ◌++◌, ◌+◌, ◌<◌, [], ◌≤◌, length, decimal, OnOk, OnErr};
ghost use Rattle.dg_lines.specs.Fields.{field_text, fields_text, IsPrefixOf};
ghost use Rattle.dg_script.specs.Spelling.{content_text};

use dg_base::{push_hex, push_u32};
use std::alloc::AllocError;

/// A field of a line.
#[derive(Clone, Copy)]
pub enum Field<'a> {
    /// A number below 256 in decimal.
    Small(u8),
    /// A number in decimal.
    Number(u32),
    /// Bytes, unchanged.
    Word(&'a [u8]),
    /// A CRC as four hex digits.
    Crc(u16),
    /// Bytes as hex digits.
    Digits(&'a [u8]),
    /// Bytes as a content.
    Content(&'a [u8]),
}

// Appends a content.
fn push_content(out: &mut Vec<u8>, bytes: &[u8]) -> Result<(), AllocError>
    ensures ok { OnOk result (out.new.items ≡ out.old.items ++ content_text bytes.now) }
    ensures err { OnErr result (IsPrefixOf out.new.items (out.old.items ++ (content_text bytes.now))) }
    ensures kept { length out.old.items ≤ length out.new.items }
{
    out.extend_from_slice(b"hex:")?;
    push_hex(out, bytes)
}

// Appends the decimal digits of a number. Most numbers of a line have one digit. If memory runs out, `out` is unchanged.
#[tactic(auto, using(std::proofs::lemmas::Fmt::decimal_digit))]
fn push_number(out: &mut Vec<u8>, n: u32) -> Result<(), AllocError>
    ensures ok { OnOk result (out.new.items ≡ out.old.items ++ decimal n) }
    ensures err { OnErr result (out.new.items ≡ out.old.items) }
{
    if n < 10 {
        return push_digit(out, n as u8);
    }
    push_u32(out, n)
}

// Appends the digit of a number below 10.
fn push_digit(out: &mut Vec<u8>, n: u8) -> Result<(), AllocError>
    requires { n < 10 }
    ensures ok { OnOk result (out.new.items ≡ out.old.items ++ (48 + n) ∷ []) }
    ensures err { OnErr result (out.new.items ≡ out.old.items) }
{
    out.push(b'0' + n)?;
    Ok(())
}

// Appends a field.
#[tactic(auto, using(crate::proofs::FrontLemmas::front_none))]
fn push_field(out: &mut Vec<u8>, field: Field) -> Result<(), AllocError>
    ensures ok { OnOk result (out.new.items ≡ out.old.items ++ field_text field.entry) }
    ensures err { OnErr result (IsPrefixOf out.new.items (out.old.items ++ (field_text field.entry))) }
    ensures kept { length out.old.items ≤ length out.new.items }
{
    match field {
        Field::Small(number) => push_number(out, u32::from(number)),
        Field::Number(number) => push_number(out, number),
        Field::Word(word) => out.extend_from_slice(word),
        Field::Crc(crc) => push_hex(out, &crc.to_be_bytes()),
        Field::Digits(bytes) => push_hex(out, bytes),
        Field::Content(bytes) => push_content(out, bytes),
    }
}

// Appends a field after a space.
fn push_behind(out: &mut Vec<u8>, field: Field) -> Result<(), AllocError>
    ensures ok { OnOk result (out.new.items ≡ out.old.items ++ 32 ∷ field_text field.entry) }
    ensures err { OnErr result (IsPrefixOf out.new.items (out.old.items ++ (32 ∷ field_text field.entry))) }
    ensures kept { length out.old.items ≤ length out.new.items }
{
    out.push(b' ')?;
    push_field(out, field)
}

// Appends fields, each after a space.
fn push_fields(out: &mut Vec<u8>, fields: &[Field]) -> Result<(), AllocError>
    ensures ok { OnOk result (out.new.items ≡ out.old.items ++ fields_text fields.now) }
    ensures err { OnErr result (IsPrefixOf out.new.items (out.old.items ++ (fields_text fields.now))) }
    ensures kept { length out.old.items ≤ length out.new.items }
{
    for field in fields {
        push_behind(out, *field)?;
    }
    Ok(())
}

/// Appends a word, the fields after it, and LF. If memory runs out, a prefix of them was appended.
pub fn push_line(out: &mut Vec<u8>, word: &[u8], fields: &[Field]) -> Result<(), AllocError>
    ensures ok { OnOk result (out.new.items ≡ out.old.items ++ (word.now ++ fields_text fields.now ++ 10 ∷ [])) }
    ensures err { OnErr result (IsPrefixOf out.new.items (out.old.items ++ (word.now ++ fields_text fields.now ++ 10 ∷ []))) }
    ensures kept { length out.old.items ≤ length out.new.items }
{
    out.extend_from_slice(word)?;
    push_fields(out, fields)?;
    out.push(b'\n')?;
    Ok(())
}

/// Appends the line that a table has for a value: its pattern, the word of the line, and at most seven fields after that. Before
/// the table one more pattern may be given, with the call that writes it.
macro_rules! push_line_of {
    ($out:expr, $value:expr $(, $other:pat => $call:expr)?; $($said:pat => $word:expr $(, $field:expr)*;)+) => {{
        let mut fields = [Small(0); 7];
        match $value {
            $($other => $call,)?
            $($said => {
                let mut count: usize = 0;
                $(fields[count] = $field; count += 1;)*
                push_line($out, $word, &fields[..count])
            })+
        }
    }};
}

pub(crate) use push_line_of;
