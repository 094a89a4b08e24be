//! Words as they are shown at a terminal.
ghost use Rattle.std.specs.Prelude.{◌≡◌, ◌++◌, IfOk, OnOk};
ghost use Rattle.dg_messages.specs.Showing.{escaped_byte, shown, shown_byte};

use dg_base::push_hex;
use std::alloc::{AllocError, Global};

/// A word with `\x` and two hex digits in place of each control character, so that a terminal does nothing but show it.
pub fn shown(alloc: Global, word: &str) -> Result<Vec<u8>, AllocError>
    ensures { IfOk result (λ text. text.items ≡ shown word.now) }
{
    let mut text = Vec::new(alloc);
    push_shown(&mut text, word)?;
    Ok(text)
}

/// Appends such a word.
pub(crate) fn push_shown(text: &mut Vec<u8>, word: &str) -> Result<(), AllocError>
    ensures { OnOk result (text.new.items ≡ text.old.items ++ shown word.now) }
{
    push_shown_bytes(text, word.as_bytes())
}

#[tactic(auto, using(crate::proofs::ShowLemmas::shown_step, crate::proofs::ShowLemmas::shown_whole))]
fn push_shown_bytes(text: &mut Vec<u8>, bytes: &[u8]) -> Result<(), AllocError>
    ensures { OnOk result (text.new.items ≡ text.old.items ++ shown bytes.now) }
{
    let mut before = 0;
    for byte in bytes {
        push_shown_byte(text, before, *byte)?;
        before = *byte;
    }
    Ok(())
}

/// Appends a byte that follows another one.
fn push_shown_byte(text: &mut Vec<u8>, before: u8, byte: u8) -> Result<(), AllocError>
    ensures { OnOk result (text.new.items ≡ text.old.items ++ shown_byte before byte) }
{
    match (before, byte) {
        (0xC2, ..0xA0) => push_escaped(text, byte),
        (0xC2, _) => push_bytes(text, &[0xC2, byte]),
        (_, 0xC2) => Ok(()),
        (_, ..0x20 | 0x7F) => push_escaped(text, byte),
        (_, _) => push_bytes(text, &[byte]),
    }
}

fn push_bytes(text: &mut Vec<u8>, bytes: &[u8]) -> Result<(), AllocError>
    ensures { OnOk result (text.new.items ≡ text.old.items ++ bytes.now) }
{
    text.extend_from_slice(bytes)?;
    Ok(())
}

/// Appends `\x` and the two hex digits of a byte.
fn push_escaped(text: &mut Vec<u8>, byte: u8) -> Result<(), AllocError>
    ensures { OnOk result (text.new.items ≡ text.old.items ++ escaped_byte byte) }
{
    push_bytes(text, b"\\x")?;
    push_hex(text, &[byte])
}
