//! The verb `boot`.
ghost use Rattle.std.specs.Prelude.{◌≡◌, map, IfOk};
ghost use Rattle.dg_volume.specs.Start.{Runs};
ghost use Rattle.dg_end.specs.Lines.{text_outcome};
ghost use Rattle.dg_tool.specs.inner.Started.{TellsStarted};
ghost use Rattle.dg_tool.specs.Verbs.{start_text};
ghost use Rattle.dg_tool.specs.Done.{OnBoards};
ghost use Rattle.dg_tool.specs.Rules.{boot_rule};

use dg_base::push_hex;
use dg_boot::{Kind, Started, start};
use dg_end::{End, push_words};
use dg_nor::Nor;
use std::alloc::{AllocError, Global};

/// The line that reports a start.
fn start_line(alloc: Global, started: &Started) -> Result<Vec<u8>, AllocError>
    ensures { IfOk result (λ text. (r : Runs) → TellsStarted started.now r → text.items ≡ start_text r) }
{
    let mut text = Vec::new(alloc);
    push_words(
        &mut text,
        b"start",
        &[0, u32::from(started.image), started.version, started.length],
    )?;
    text.push(b' ')?;
    push_hex(&mut text, &started.crc.to_be_bytes())?;
    text.push(b'\n')?;
    Ok(text)
}

/// Starts the first of the boards by power, and gives the line that reports it.
pub(crate) fn boot_first<N: Nor>(alloc: Global, boards: &mut [N]) -> Result<Vec<u8>, End>
    ensures { OnBoards (text_outcome (λ text. text.items) result) (boot_rule (map N.device boards.old)) ⊥
        (map N.device boards.old) (map N.device boards.new) }
{
    if boards.is_empty() {
        return Err(End::NoBoard { need: 1, have: 0 });
    }
    let nor = &mut boards[0];
    let started = start(nor, Kind::Power)?;
    let line = start_line(alloc, &started)?;
    Ok(line)
}
