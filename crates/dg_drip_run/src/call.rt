//! The call that replays a script of nodes.
ghost use Rattle.std.specs.Prelude.{◌≡◌, ◌≤◌, ℕ, ◌++◌, [], List, OnOk};
ghost use Rattle.dg_base.specs.Outside.{Takes};
ghost use Rattle.dg_outside.specs.Outside.{Outside, input_of, output_of, with_input, with_output};
ghost use Rattle.dg_end.specs.Lines.{text_outcome};
ghost use Rattle.dg_drip_script.specs.Scripts.{DripScript, first_script};
ghost use Rattle.dg_drip_run.specs.Dripped.{DripCame, Dripped};
ghost use Rattle.dg_drip_run.specs.Causes.{DripEnds};
ghost use Rattle.dg_drip_run.specs.Promised.{ValuesSpread};
ghost use Rattle.dg_drip_run.specs.inner.Playing.{PlayerStands, IsPlaying};
ghost use Rattle.dg_drip_run.specs.inner.Lines.{NextPlays, LinesAnswer, drip_stage};

use crate::finish::end_script;
use crate::laws::values_spread;
use crate::lines::play_text;
use crate::player::Player;
use dg_base::{Sink, Source, Status};
use dg_end::{End, answer};
use dg_lines::{LineReader, ReadStop};
use dg_script::LineFault;
use std::alloc::Global;

/// How a line that is too long ends the replay.
fn long_line(line: u32) -> End
    ensures { result ≡ End.BadLine line LineFault.Long }
{
    End::BadLine {
        line,
        fault: LineFault::Long,
    }
}

/// Reads the next line and plays it, and answers whether there was one.
fn play_next<S: Source, K: Sink>(
    alloc: Global,
    reader: &mut LineReader,
    input: &mut S,
    player: &mut Player,
    out: &mut K,
) -> Result<bool, End>
    requires { IsPlaying player.old }
    ensures answer { (more : List ℕ) × Takes (S.left input.old) (S.left input.new) more
        × ((s : DripScript) (before : List ℕ) → PlayerStands player.old s before → NextPlays result (reader.old.ahead ++ more) s
        (drip_stage reader.old player.old (input_of (S.Source, input.old)) (output_of (K.Sink, out.old)))
        (drip_stage reader.new player.new (input_of (S.Source, input.new)) (output_of (K.Sink, out.new)))) }
    ensures unread { OnOk result (S.faults input.new ≡ S.faults input.old) }
    ensures still { OnOk result (K.faults out.new ≡ K.faults out.old) }
    ensures reads { S.faults input.old ≤ S.faults input.new }
    ensures counts { K.faults out.old ≤ K.faults out.new }
{
    match reader.next(input) {
        Ok(Some(number)) => match play_text(alloc, player, reader.text(), number, out) {
            Ok(()) => Ok(true),
            Err(end) => Err(end),
        },
        Ok(None) => Ok(false),
        Err(ReadStop::ReadFault) => Err(End::ReadFault),
        Err(ReadStop::Long { line }) => Err(long_line(line)),
        Err(ReadStop::TooLong) => Err(End::TooLong),
    }
}

/// Reads the lines of an input one after another and plays each before the next one is asked for. Answers the number of the
/// line after the last.
fn play_lines<S: Source, K: Sink>(
    alloc: Global,
    reader: &mut LineReader,
    input: &mut S,
    player: &mut Player,
    out: &mut K,
) -> Result<u32, End>
    requires none { reader.old.ahead ≡ [] }
    requires unread { reader.old.passed ≡ 0 }
    requires first { reader.old.number ≡ 0 }
    requires playing { PlayerStands player.old first_script [] }
    ensures answer { LinesAnswer result
        (drip_stage reader.old player.old (input_of (S.Source, input.old)) (output_of (K.Sink, out.old)))
        (drip_stage reader.new player.new (input_of (S.Source, input.new)) (output_of (K.Sink, out.new))) }
    ensures still { OnOk result (K.faults out.new ≡ K.faults out.old) }
    ensures reads { S.faults input.old ≤ S.faults input.new }
    ensures counts { K.faults out.old ≤ K.faults out.new }
{
    let mut number = 1;
    while play_next(alloc, reader, input, player, out)? {
        number += 1;
        if reader.is_last() {
            return Ok(number);
        }
    }
    Ok(number)
}

/// Reads the script that `input` spells line by line, and replays it. Answers the last lines of its report.
fn read_and_play<S: Source, K: Sink>(
    alloc: Global,
    input: &mut S,
    out: &mut K,
) -> Result<Vec<u8>, End>
    ensures came { DripCame (text_outcome (λ text. text.items) result) (input_of (S.Source, input.old))
        (input_of (S.Source, input.new)) (output_of (K.Sink, out.old)) (output_of (K.Sink, out.new)) }
    ensures reads { S.faults input.old ≤ S.faults input.new }
    ensures counts { K.faults out.old ≤ K.faults out.new }
{
    let mut reader = LineReader::new(alloc)?;
    let mut player = Player::new(alloc)?;
    let number = play_lines(alloc, &mut reader, input, &mut player, out)?;
    end_script(alloc, &player, number)
}

/// Replays the script that `input` spells over nodes that keep nothing at first, and writes the report to `out`. A status
/// other than [`Status::Done`] writes its line last, where it has one.
///
/// The input is read line by line, and what is reported of a line is written before the next one is asked for. No more than a
/// line and 300,002 bytes are taken after the lines that were played. If a read fails, all whole lines are reported. No more
/// than a million events are played, no more than 16,777,216 bytes of the input are used, and no more than one byte past them
/// is taken.
pub fn drip<S: Source, K: Sink>(alloc: Global, input: &mut S, out: &mut K) -> Status
    // The bytes written are the report of the run of the script's events from nodes that keep nothing.
    ensures replayed { (rest : Outside) → Dripped result
        (with_output (K.Sink, out.old) (with_input (S.Source, input.old) rest))
        (with_output (K.Sink, out.new) (with_input (S.Source, input.new) rest)) }
    // The status is the one that the rules give to the bytes of the input, unless memory runs out or the outside has a fault.
    ensures ends { (rest : Outside) → DripEnds result
        (with_output (K.Sink, out.old) (with_input (S.Source, input.old) rest))
        (with_output (K.Sink, out.new) (with_input (S.Source, input.new) rest)) }
    // All laws of how values spread hold of the run that it played.
    ensures spread { (rest : Outside) → ValuesSpread result
        (with_output (K.Sink, out.old) (with_input (S.Source, input.old) rest))
        (with_output (K.Sink, out.new) (with_input (S.Source, input.new) rest)) }
    ensures reads { S.faults input.old ≤ S.faults input.new }
    ensures writes { K.faults out.old ≤ K.faults out.new }
{
    values_spread();
    let outcome = read_and_play(alloc, input, out);
    answer(alloc, out, outcome)
}
