//! Plays a line of a script, and writes what is reported of it.
ghost use Rattle.std.specs.Prelude.{◌≡◌, ◌≤◌, ℕ, List, OnOk, OnErr};
ghost use Rattle.dg_words.specs.Counts.{Rose};
ghost use Rattle.dg_base.specs.Outside.{Puts, PutsPrefix};
ghost use Rattle.dg_outside.specs.Outside.{output_of};
ghost use Rattle.dg_drip_script.specs.Lines.{FitsDripLine, DripStandsAt};
ghost use Rattle.dg_drip_script.specs.Scripts.{DripScript, with_drip_line};
ghost use Rattle.dg_drip_run.specs.inner.Playing.{PlayerStands, IsPlaying};
ghost use Rattle.dg_drip_run.specs.inner.Lines.{LineAnswer, DripTextAnswer};

use crate::player::{PlayStop, Player};
use dg_base::{Sink, WriteFailed};
use dg_drip_script::{DripLine, read_line};
use dg_end::End;
use std::alloc::Global;

// Writes what is reported of a line, where it is something.
fn put_text<K: Sink>(out: &mut K, text: &[u8]) -> Result<(), WriteFailed>
    ensures ok { OnOk result (Puts (K.written out.old) (K.written out.new) text.now) }
    ensures err { OnErr result (PutsPrefix (K.written out.old) (K.written out.new) text.now) }
    ensures failed { OnErr result (Rose (K.faults out.old) (K.faults out.new)) }
    ensures unfailed { OnOk result (K.faults out.new ≡ K.faults out.old) }
    ensures counts { K.faults out.old ≤ K.faults out.new }
{
    if text.is_empty() {
        return Ok(());
    }
    out.write(text)
}

// Plays a line, and writes what is reported of it.
fn play_read<K: Sink>(
    alloc: Global,
    player: &mut Player,
    line: &DripLine,
    out: &mut K,
) -> Result<(), End>
    requires playing { IsPlaying player.old }
    requires stands { DripStandsAt player.old.standing line.now }
    requires fits { FitsDripLine player.old.standing.nodes line.now }
    ensures answer { (s : DripScript) (before : List ℕ) → PlayerStands player.old s before
        → LineAnswer result s (with_drip_line s line.now) player.new (output_of (K.Sink, out.old))
        (output_of (K.Sink, out.new)) }
    ensures still { OnOk result (K.faults out.new ≡ K.faults out.old) }
    ensures counts { K.faults out.old ≤ K.faults out.new }
{
    player.text.clear();
    match player.play_line(alloc, line) {
        Ok(()) => {
            put_text(out, &player.text)?;
            Ok(())
        }
        Err(PlayStop::TooMany) => {
            put_text(out, &player.text)?;
            Err(End::TooMany)
        }
        Err(PlayStop::Memory) => Err(End::Memory),
    }
}

/// Reads the text of a line and plays it.
pub fn play_text<K: Sink>(
    alloc: Global,
    player: &mut Player,
    text: &[u8],
    number: u32,
    out: &mut K,
) -> Result<(), End>
    requires { IsPlaying player.old }
    ensures answer { (s : DripScript) (before : List ℕ) → PlayerStands player.old s before
        → DripTextAnswer result s (record { text = text.now; number = number }) player.new (output_of (K.Sink, out.old))
        (output_of (K.Sink, out.new)) }
    ensures still { OnOk result (K.faults out.new ≡ K.faults out.old) }
    ensures counts { K.faults out.old ≤ K.faults out.new }
{
    match read_line(player.standing, text) {
        Ok(line) => play_read(alloc, player, &line, out),
        Err(fault) => Err(End::BadLine {
            line: number,
            fault: fault.line_fault(),
        }),
    }
}
