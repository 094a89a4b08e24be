//! Values of JSON that others are made of.
ghost use Rattle.std.specs.Prelude.{◌≡◌, ◌++◌, ◌∷◌, [], false, string_bytes, IfOk};
ghost use Rattle.std.specs.Int.{to_be_bytes, w16};
ghost use Rattle.serde_json.specs.Data.{string};
ghost use Rattle.serde_json.specs.View.{view};
ghost use Rattle.serde_json.specs.Written.{has_float};
ghost use Rattle.dg_inspect_text.specs.Json.{count_json, or_null, hex_json, name_json, line_of};

use serde_json::Value;
use std::alloc::{AllocError, Global};
use std::str;

/// A text.
pub(crate) fn text_value(alloc: Global, text: &str) -> Result<Value, AllocError>
    ensures { IfOk result (λ v. view v ≡ string text.now) }
{
    Value::try_from_str(alloc, text)
}

/// Bytes, as hex digits.
pub(crate) fn hex_value(alloc: Global, bytes: &[u8]) -> Result<Value, AllocError>
    ensures { IfOk result (λ v. view v ≡ hex_json bytes.now) }
{
    let digits = hex::encode(alloc, bytes)?;
    Ok(Value::String(digits))
}

/// A CRC, as four hex digits.
pub(crate) fn crc_value(alloc: Global, crc: u16) -> Result<Value, AllocError>
    ensures { IfOk result (λ v. view v ≡ hex_json (to_be_bytes w16 crc)) }
{
    hex_value(alloc, &crc.to_be_bytes())
}

/// A name of an image, or no text where its bytes are not one.
pub(crate) fn name_value(alloc: Global, name: &[u8]) -> Result<Value, AllocError>
    ensures { IfOk result (λ v. view v ≡ name_json name.now) }
{
    match str::from_utf8(name) {
        Ok(text) => text_value(alloc, text),
        Err(_) => text_value(alloc, ""),
    }
}

/// A number, or null.
pub(crate) fn number_value(number: Option<u32>) -> Value
    ensures { view result ≡ or_null count_json number }
{
    match number {
        None => Value::Null,
        Some(number) => Value::from(number),
    }
}

/// The same of a large number.
pub(crate) fn large_value(number: Option<u64>) -> Value
    ensures { view result ≡ or_null count_json number }
{
    match number {
        None => Value::Null,
        Some(number) => Value::from(number),
    }
}

/// A value with no space, and LF.
pub(crate) fn line_of(alloc: Global, value: &Value) -> Result<String, AllocError>
    ensures { IfOk result (λ line. has_float (view value.now) ≡ false → string_bytes line ≡ line_of (view value.now)) }
{
    let mut line = value.to_string(alloc)?;
    line.push_str("\n")?;
    Ok(line)
}
