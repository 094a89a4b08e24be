//! Texts of words and values.
ghost use Rattle.std.specs.Prelude.{◌≡◌, ◌++◌, OnOk, codes};
ghost use Rattle.std.specs.Fmt.{decimal};
ghost use Rattle.dg_messages.specs.Showing.{shown};

use crate::showing::push_shown;
use std::alloc::{AllocError, Global};

/// Appends words.
pub(crate) fn push(text: &mut Vec<u8>, words: &str) -> Result<(), AllocError>
    ensures { OnOk result (text.new.items ≡ text.old.items ++ words.now) }
{
    text.extend_from_slice(words.as_bytes())?;
    Ok(())
}

/// Appends words around a word that is shown.
pub(crate) fn push_word(
    text: &mut Vec<u8>,
    before: &str,
    word: &str,
    after: &str,
) -> Result<(), AllocError>
    ensures { OnOk result (text.new.items ≡ text.old.items ++ (before.now ++ shown word.now ++ after.now)) }
{
    push(text, before)?;
    push_shown(text, word)?;
    push(text, after)
}

/// Appends words around two words that are shown.
pub(crate) fn push_two_words(
    text: &mut Vec<u8>,
    before: &str,
    first: &str,
    between: &str,
    second: &str,
    after: &str,
) -> Result<(), AllocError>
    ensures { OnOk result (text.new.items ≡ text.old.items
        ++ (before.now ++ shown first.now ++ between.now ++ shown second.now ++ after.now)) }
{
    push_word(text, before, first, between)?;
    push_word(text, "", second, after)
}

/// Appends a number.
pub(crate) fn push_decimal(alloc: Global, text: &mut Vec<u8>, value: u64) -> Result<(), AllocError>
    ensures { OnOk result (text.new.items ≡ text.old.items ++ decimal value) }
{
    let digits = format!(in alloc; "{value}")?;
    push(text, digits.as_str())
}

/// Appends that `part` of `all` are there.
pub(crate) fn push_part(
    alloc: Global,
    text: &mut Vec<u8>,
    part: u64,
    all: u64,
) -> Result<(), AllocError>
    ensures { OnOk result (text.new.items ≡ text.old.items ++ (decimal part ++ codes " of " ++ decimal all)) }
{
    push_decimal(alloc, text, part)?;
    push(text, " of ")?;
    push_decimal(alloc, text, all)
}

/// Appends words around a number.
pub(crate) fn push_number(
    alloc: Global,
    text: &mut Vec<u8>,
    before: &str,
    value: u64,
    after: &str,
) -> Result<(), AllocError>
    ensures { OnOk result (text.new.items ≡ text.old.items ++ (before.now ++ decimal value ++ after.now)) }
{
    push(text, before)?;
    push_decimal(alloc, text, value)?;
    push(text, after)
}

/// Appends words around two numbers.
pub(crate) fn push_two(
    alloc: Global,
    text: &mut Vec<u8>,
    before: &str,
    numbers: (u64, u64),
    between: &str,
    after: &str,
) -> Result<(), AllocError>
    ensures { OnOk result (text.new.items ≡ text.old.items
        ++ (before.now ++ decimal numbers.0 ++ between.now ++ decimal numbers.1 ++ after.now)) }
{
    push(text, before)?;
    push_number(alloc, text, "", numbers.0, between)?;
    push_number(alloc, text, "", numbers.1, after)
}
