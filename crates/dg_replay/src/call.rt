//! The call that replays a script.
ghost use Rattle.std.specs.Prelude.{◌≤◌, [], List, map};
ghost use Rattle.dg_mote.specs.Sizes.{BuffersFit, ValuesAreSmall};
ghost use Rattle.dg_outside.specs.Outside.{Outside, with_input, with_output, with_boards};
ghost use Rattle.dg_object.specs.Object.{Row};
ghost use Rattle.dg_replay.specs.Done.{ReplayDone};
ghost use Rattle.dg_replay.specs.Replayed.{Replayed, IsSeenAs};

use crate::ends::{end_at_stop, end_script};
use crate::finish::end_with;
use crate::following::play_lines;
use crate::halt::Halt;
use crate::laws::replays_keep_the_rules;
use crate::watching::Watcher;
use dg_base::{Sink, Source, Status};
use dg_lines::LineReader;
use dg_mote::a_mote_buffers_little;
use dg_nor::Nor;
use std::alloc::Global;

/// Replays the script that `input` spells over the boards, and writes the report to `out`. A status other than [`Status::Done`]
/// writes its line last, if it has one. `watcher` is shown what is played: if it had seen nothing before, it saw exactly the
/// events that were played, however the replay ends. With [`Status::NoImage`] it also saw which event found no image to start,
/// and with [`Status::WriteFault`] it may have, since a line could not be written.
///
/// The input is read line by line, and what a line reports is written before the next one is asked for: no more than
/// 300,002 bytes are taken after the line that is played.
///
/// From the `golden` or `boards` line on the boards of the script's motes are used, and no others. No more than a million events
/// are played, and no more than 16,777,216 bytes of the input are used.
pub fn replay<S: Source, K: Sink, N: Nor, W: Watcher<N>>(
    alloc: Global,
    input: &mut S,
    out: &mut K,
    boards: &mut Vec<N>,
    watcher: &mut W,
) -> Status
    ensures done { (rest : Outside) → ReplayDone result
        (with_boards (map N.device boards.old.items) (with_output (K.Sink, out.old) (with_input (S.Source, input.old) rest)))
        (with_boards (map N.device boards.new.items) (with_output (K.Sink, out.new) (with_input (S.Source, input.new) rest))) }
    ensures seen { (rest : Outside) (table : List Row)
        → (W.saw watcher.old (map N.device boards.old.items) (map N.device boards.old.items)).events [] []
        → (x : Replayed table result
        (with_boards (map N.device boards.old.items) (with_output (K.Sink, out.old) (with_input (S.Source, input.old) rest)))
        (with_boards (map N.device boards.new.items) (with_output (K.Sink, out.new) (with_input (S.Source, input.new) rest))))
        × IsSeenAs result (W.saw watcher.new (map N.device boards.old.items) (map N.device boards.new.items)) x.came }
    // The arrays of bytes that are alive at once in a mote's call have no more than 256 bytes in all. The value of a mote holds
    // no array of bytes except the outbox and its sets.
    ensures buffers { BuffersFit × ValuesAreSmall }
    ensures reads { S.faults input.old ≤ S.faults input.new }
    ensures writes { K.faults out.old ≤ K.faults out.new }
{
    replays_keep_the_rules();
    a_mote_buffers_little();
    let Ok(mut reader) = LineReader::new(alloc) else {
        return Status::Memory;
    };
    match play_lines(alloc, &mut reader, input, boards, out, watcher) {
        Ok((player, number)) => end_script(alloc, &player, number, boards, out),
        Err(Halt::ReadFault) => Status::ReadFault,
        Err(Halt::TooLong) => end_with(out, b"toolong\n", Status::TooLong),
        Err(Halt::Stopped(stop)) => end_at_stop(alloc, out, stop),
    }
}
