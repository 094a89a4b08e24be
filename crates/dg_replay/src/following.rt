//! Plays the lines of an input one after another, as they are read.
ghost use Rattle.std.specs.Prelude.{◌≡◌, ◌≢◌, ◌≤◌, ◌+◌, [], ℕ, List, ◌++◌, map, Err};
ghost use Rattle.dg_words.specs.Counts.{Rose};
ghost use Rattle.dg_base.specs.Outside.{Takes, AtEnd};
ghost use Rattle.dg_nor.specs.Device.{Device};
ghost use Rattle.dg_object.specs.Object.{Row};
ghost use Rattle.dg_replay.specs.Following.{HaltedAs, NextPlayed, AllAsBefore};
ghost use Rattle.dg_replay.specs.Playing.{Stood, Ready};
ghost use Rattle.dg_replay.specs.Replaying.{TextAnswer, InputAnswer};
ghost use Rattle.dg_replay.specs.Stages.{based_on, DoneSoFar, replay_state, line_read, span, failures};
ghost use Rattle.dg_replay.specs.inner.Words.{bytes_taken};
ghost use Rattle.dg_replay.specs.Untouched.{TextKeepsBytes};

use crate::halt::Halt;
use crate::items::LineReport;
use crate::lines::{next_line, write_begun, write_text};
use crate::player::{Player, play_line};
use crate::stop::Stop;
use crate::watching::Watcher;
use dg_base::{Sink, Source};
use dg_lines::{LineReader, ReadStop};
use dg_nor::Nor;
use dg_rules::scripts_with_golden;
use dg_script::LineFault;
use std::alloc::{AllocError, Global};

/// Why a replay ends at a line that could not be read.
fn halted(stop: ReadStop) -> Halt
    ensures { HaltedAs stop result }
{
    match stop {
        ReadStop::ReadFault => Halt::ReadFault,
        ReadStop::TooLong => Halt::TooLong,
        ReadStop::Long { line } => Halt::Stopped(Stop::BadInput {
            line,
            fault: LineFault::Long,
        }),
    }
}

/// Reads the next line, plays it and writes what it reports. Returns whether there was one.
fn play_next<S: Source, K: Sink, N: Nor, W: Watcher<N>>(
    alloc: Global,
    reader: &mut LineReader,
    input: &mut S,
    player: &mut Player,
    boards: &mut Vec<N>,
    out: &mut K,
    line_report: &mut LineReport,
    watcher: &mut W,
) -> Result<bool, Halt>
    requires { Ready player.old (map N.device boards.old.items) }
    ensures answer { (initial : List Device) → (more : List ℕ) × Takes (S.left input.old) (S.left input.new) more
        × NextPlayed result (bytes_taken (reader.old.ahead ++ more) (AtEnd (S.left input.new))) reader.old reader.new
        (Rose (S.faults input.old) (S.faults input.new))
        (AllAsBefore
        (replay_state player.old (map N.device boards.old.items) (K.written out.old)
        (W.saw watcher.old initial (map N.device boards.old.items)))
        (replay_state player.new (map N.device boards.new.items) (K.written out.new)
        (W.saw watcher.new initial (map N.device boards.new.items))))
        (λ r text. TextKeepsBytes player.old.place text (map N.device boards.old.items) (map N.device boards.new.items)
        × ((table : List Row) (behind : DoneSoFar)
        → Stood player.old behind.lines behind.world initial (map N.device boards.old.items)
        → TextAnswer (based_on table initial) r (line_read text (reader.old.number + 1)) behind
        (replay_state player.old (map N.device boards.old.items) (K.written out.old)
        (W.saw watcher.old initial (map N.device boards.old.items)))
        (replay_state player.new (map N.device boards.new.items) (K.written out.new)
        (W.saw watcher.new initial (map N.device boards.new.items)))
        (Rose (K.faults out.old) (K.faults out.new)))) }
    ensures reads { S.faults input.old ≤ S.faults input.new }
    ensures unread { result ≢ Err Halt.ReadFault → S.faults input.new ≡ S.faults input.old }
    ensures counts { K.faults out.old ≤ K.faults out.new }
    ensures unfailed { result ≢ Err (Halt.Stopped Stop.WriteFault) → K.faults out.new ≡ K.faults out.old }
{
    let number = match reader.next(input) {
        Ok(Some(number)) => number,
        Ok(None) => return Ok(false),
        Err(stop) => return Err(halted(stop)),
    };
    let mut line = match next_line(alloc, reader.text(), number, &player.place) {
        Ok(line) => line,
        Err(stop) => return Err(Halt::Stopped(stop)),
    };
    line_report.text.clear();
    match play_line(alloc, &mut line, player, boards, line_report, watcher) {
        Ok(()) => match player.place.pass(line) {
            Ok(()) => match write_text(out, &line_report.text) {
                Ok(()) => Ok(true),
                Err(stop) => Err(Halt::Stopped(stop)),
            },
            Err(AllocError) => Err(Halt::Stopped(Stop::Memory)),
        },
        Err(stop) => Err(Halt::Stopped(write_begun(out, &line_report.text, stop))),
    }
}

/// Reads the lines of an input one after another and plays each before the next one is asked for. Returns where the replay then
/// stands, with the number of the line after the last.
pub fn play_lines<S: Source, K: Sink, N: Nor, W: Watcher<N>>(
    alloc: Global,
    reader: &mut LineReader,
    input: &mut S,
    boards: &mut Vec<N>,
    out: &mut K,
    watcher: &mut W,
) -> Result<(Player, u32), Halt>
    requires none { reader.old.ahead ≡ [] }
    requires unread { reader.old.passed ≡ 0 }
    requires first { reader.old.number ≡ 0 }
    ensures answer { (bytes : List ℕ) × Takes (S.left input.old) (S.left input.new) bytes
        × ((table : List Row) → InputAnswer table result (bytes_taken bytes (AtEnd (S.left input.new)))
        (span (map N.device boards.old.items) (map N.device boards.new.items) (K.written out.old) (K.written out.new)
        (W.saw watcher.old (map N.device boards.old.items) (map N.device boards.old.items))
        (W.saw watcher.new (map N.device boards.old.items) (map N.device boards.new.items)))
        (failures (Rose (S.faults input.old) (S.faults input.new)) (Rose (K.faults out.old) (K.faults out.new)))) }
    ensures reads { S.faults input.old ≤ S.faults input.new }
    ensures unread { result ≢ Err Halt.ReadFault → S.faults input.new ≡ S.faults input.old }
    ensures counts { K.faults out.old ≤ K.faults out.new }
    ensures unfailed { result ≢ Err (Halt.Stopped Stop.WriteFault) → K.faults out.new ≡ K.faults out.old }
{
    scripts_with_golden();
    let mut player = Player::first(alloc);
    let mut line_report = LineReport {
        reports: Vec::new(alloc),
        text: Vec::new(alloc),
    };
    let mut number = 1;
    while play_next(
        alloc,
        reader,
        input,
        &mut player,
        boards,
        out,
        &mut line_report,
        watcher,
    )? {
        number += 1;
        if reader.is_last() {
            return Ok((player, number));
        }
    }
    Ok((player, number))
}
