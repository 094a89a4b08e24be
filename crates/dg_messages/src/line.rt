//! The line of a message.
ghost use Rattle.std.specs.Prelude.{◌≡◌, ◌++◌, IfOk, OnOk};
ghost use Rattle.dg_messages.specs.Sentences.{front, message_line};

use crate::causes::Told;
use crate::sentences::push_sentence;
use crate::showing::push_shown;
use crate::text::push;
use std::alloc::{AllocError, Global};

/// Appends a word as it is shown, and a colon, where there is one.
fn push_front(text: &mut Vec<u8>, word: &str) -> Result<(), AllocError>
    ensures { OnOk result (text.new.items ≡ text.old.items ++ front word.now) }
{
    if word.is_empty() {
        return Ok(());
    }
    push_shown(text, word)?;
    push(text, ": ")
}

/// The line that says why a command of a program did not do what it was asked, and what to do. It names the command, and the
/// file that it is about, where there are such.
pub fn message(
    alloc: Global,
    program: &str,
    verb: &str,
    place: &str,
    told: &Told<'_>,
) -> Result<Vec<u8>, AllocError>
    ensures { IfOk result (λ text. text.items ≡ message_line program.now verb.now place.now told.now) }
{
    let mut text = Vec::new(alloc);
    push_front(&mut text, program)?;
    push_front(&mut text, verb)?;
    push_front(&mut text, place)?;
    push_sentence(alloc, &mut text, told)?;
    push(&mut text, "\n")?;
    Ok(text)
}
