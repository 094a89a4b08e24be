//! How a replay ends.
ghost use Rattle.std.specs.Prelude.{⊤, ◌≡◌, ◌≢◌, ◌⊎◌, ◌≤◌, ℕ, true, false, List, [], Option, map, length};
ghost use Rattle.dg_words.specs.Counts.{Rose};
ghost use Rattle.dg_nor.specs.Device.{Device};
ghost use Rattle.dg_object.specs.Object.{Row};
ghost use Rattle.dg_script.specs.Script.{Script};
ghost use Rattle.dg_replay.specs.Items.{beginning_of};
ghost use Rattle.dg_replay.specs.Ending.{ending_from};
ghost use Rattle.dg_replay.specs.Near.{behind_lines};
ghost use Rattle.dg_replay.specs.Playing.{Ready};
ghost use Rattle.dg_replay.specs.Replaying.{StopEnds, Reached, ScriptReplayed, seen_of};
ghost use Rattle.dg_replay.specs.Shown.{unseen, HaveRested};
ghost use Rattle.dg_replay.specs.Stages.{span, failures};
ghost use Rattle.dg_replay.specs.inner.Words.{bytes_taken};

use crate::finish::{end_at_line, end_with, end_without_boards, finish};
use crate::player::Player;
use crate::stop::Stop;
use dg_base::{Sink, Status};
use dg_nor::Nor;
use std::alloc::Global;

/// The status of a replay that stopped. Its last line is written, if it has one.
pub fn end_at_stop<K: Sink>(alloc: Global, out: &mut K, stop: Stop) -> Status
    ensures full { stop ≡ Stop.TooMany → (result ≡ Status.TooMany) ⊎ (result ≡ Status.WriteFault) }
    ensures ends { StopEnds stop result (K.written out.old) (K.written out.new) (Rose (K.faults out.old) (K.faults out.new)) }
    ensures counts { K.faults out.old ≤ K.faults out.new }
    ensures unfailed { result ≢ Status.WriteFault → K.faults out.new ≡ K.faults out.old }
{
    match stop {
        Stop::Memory => Status::Memory,
        Stop::BadInput { line, fault } => end_at_line(alloc, out, line, fault),
        Stop::WriteFault => Status::WriteFault,
        Stop::FlashFault => Status::FlashFault,
        Stop::TooMany => end_with(out, b"toomany\n", Status::TooMany),
        Stop::NoBoard { motes, boards } => end_without_boards(alloc, out, motes, boards),
        Stop::NoImage => end_with(out, b"noimage\n", Status::NoImage),
        Stop::NotAVolume => end_with(out, b"notavolume\n", Status::NotAVolume),
    }
}

/// Ends a replay whose lines were all played and whose input is not too long.
pub fn end_script<K: Sink, N: Nor>(
    alloc: Global,
    player: &Player,
    number: u32,
    boards: &mut Vec<N>,
    out: &mut K,
) -> Status
    requires { Ready player.now (map N.device boards.old.items) }
    ensures ends { (table : List Row) (script : Script) (input : List ℕ) (initial : List Device) (before : Option (List ℕ))
        (faults : ℕ) → faults ≤ K.faults out.old → behind_lines number input ≡ []
        → (r : Reached table true script [] number player.now
        (span initial (map N.device boards.old.items) before (K.written out.old) unseen unseen))
        → ScriptReplayed table result script (ending_from (length initial) false script) (bytes_taken input ⊤)
        (span initial (map N.device boards.new.items) before (K.written out.new) unseen
        (seen_of (beginning_of r.ground r.done).world r.played))
        (failures ⊥ (Rose faults (K.faults out.new))) }
    ensures rested { (motes : ℕ) → HaveRested motes (map N.device boards.old.items) (map N.device boards.new.items) }
    ensures counts { K.faults out.old ≤ K.faults out.new }
    ensures unfailed { result ≢ Status.WriteFault → K.faults out.new ≡ K.faults out.old }
{
    match player.place.end_fault() {
        Some(fault) => end_at_line(alloc, out, number, fault),
        None => finish(alloc, &player.world, boards, out),
    }
}
