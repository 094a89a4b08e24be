//! Lines of words and numbers.
ghost use Rattle.std.specs.Prelude.{◌≡◌, ◌++◌, OnOk, IfOk};
ghost use Rattle.dg_end.specs.Texts.{numbers, line};

use dg_base::push_u32;
use std::alloc::{AllocError, Global};

/// Appends numbers, each after a space.
pub fn push_numbers(text: &mut Vec<u8>, values: &[u32]) -> Result<(), AllocError>
    ensures { OnOk result (text.new.items ≡ text.old.items ++ numbers values.now) }
{
    for value in values {
        text.push(b' ')?;
        push_u32(text, *value)?;
    }
    Ok(())
}

/// Appends a word, and numbers after it.
pub fn push_words(text: &mut Vec<u8>, word: &[u8], values: &[u32]) -> Result<(), AllocError>
    ensures { OnOk result (text.new.items ≡ text.old.items ++ (word.now ++ numbers values.now)) }
{
    text.extend_from_slice(word)?;
    push_numbers(text, values)?;
    Ok(())
}

/// Appends a line of a word and numbers.
pub fn push_line(text: &mut Vec<u8>, word: &[u8], values: &[u32]) -> Result<(), AllocError>
    ensures { OnOk result (text.new.items ≡ text.old.items ++ line (word.now ++ numbers values.now)) }
{
    push_words(text, word, values)?;
    text.push(b'\n')?;
    Ok(())
}

/// A line of a word and numbers, each after a space.
pub fn line_of(alloc: Global, word: &[u8], values: &[u32]) -> Result<Vec<u8>, AllocError>
    ensures { IfOk result (λ text. text.items ≡ line (word.now ++ numbers values.now)) }
{
    let mut text = Vec::new(alloc);
    push_line(&mut text, word, values)?;
    Ok(text)
}
