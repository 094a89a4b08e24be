//! The end of a report.
ghost use Rattle.std.specs.Prelude.{◌≡◌, ◌≢◌, ◌⊎◌, ◌≤◌, ◌++◌, List, map, OnOk};
ghost use Rattle.dg_words.specs.Counts.{Rose};
ghost use Rattle.dg_base.specs.Outside.{Puts, PutsPrefix};
ghost use Rattle.dg_nor.specs.Device.{Device};
ghost use Rattle.dg_script.specs.Report.{report_text};
ghost use Rattle.dg_rules.specs.World.{World as RuleWorld};
ghost use Rattle.dg_world.specs.Applied.{SameBoards};
ghost use Rattle.dg_world.specs.Worlds.{IsWorld};
ghost use Rattle.dg_world.specs.Boards.{WorldStands};
ghost use Rattle.dg_replay.specs.Ending.{ending_line, FaultAt, NoBoards};
ghost use Rattle.dg_replay.specs.Replaying.{EndsWith, FinishesWith};

use crate::items::push_reports;
use dg_base::{Sink, Status, WriteFailed, push_u32};
use dg_nor::Nor;
use dg_script::{LineFault, Report};
use dg_world::{FinishFault, World};
use std::alloc::{AllocError, Global};

/// Ends a replay with the last piece of its report.
pub fn end_with<K: Sink>(out: &mut K, piece: &[u8], status: Status) -> Status
    ensures ends { EndsWith result status piece.now (K.written out.old) (K.written out.new)
        (Rose (K.faults out.old) (K.faults out.new)) }
    ensures written { ((result ≡ status) × Puts (K.written out.old) (K.written out.new) piece.now
        × (K.faults out.new ≡ K.faults out.old))
        ⊎ ((result ≡ Status.WriteFault) × PutsPrefix (K.written out.old) (K.written out.new) piece.now
        × Rose (K.faults out.old) (K.faults out.new)) }
    ensures counts { K.faults out.old ≤ K.faults out.new }
    ensures unfailed { result ≢ Status.WriteFault → K.faults out.new ≡ K.faults out.old }
{
    match out.write(piece) {
        Ok(()) => status,
        Err(WriteFailed) => Status::WriteFault,
    }
}

fn push_bad_line(piece: &mut Vec<u8>, line: u32, fault: LineFault) -> Result<(), AllocError>
    ensures { OnOk result (piece.new.items ≡ piece.old.items ++ ending_line (FaultAt line fault)) }
{
    piece.extend_from_slice(b"line ")?;
    push_u32(piece, line)?;
    piece.push(b' ')?;
    piece.extend_from_slice(fault.name().as_bytes())?;
    piece.push(b'\n')?;
    Ok(())
}

/// Ends a replay at a line that has a fault.
pub fn end_at_line<K: Sink>(alloc: Global, out: &mut K, line: u32, fault: LineFault) -> Status
    ensures ends { EndsWith result Status.BadInput (ending_line (FaultAt line fault)) (K.written out.old) (K.written out.new)
        (Rose (K.faults out.old) (K.faults out.new)) }
    ensures counts { K.faults out.old ≤ K.faults out.new }
    ensures unfailed { result ≢ Status.WriteFault → K.faults out.new ≡ K.faults out.old }
{
    let mut piece = Vec::new(alloc);
    match push_bad_line(&mut piece, line, fault) {
        Ok(()) => end_with(out, &piece, Status::BadInput),
        Err(AllocError) => Status::Memory,
    }
}

fn push_no_board(piece: &mut Vec<u8>, motes: u8, boards: u32) -> Result<(), AllocError>
    ensures { OnOk result (piece.new.items ≡ piece.old.items ++ ending_line (NoBoards motes boards)) }
{
    piece.extend_from_slice(b"noboard ")?;
    push_u32(piece, u32::from(motes))?;
    piece.push(b' ')?;
    push_u32(piece, boards)?;
    piece.push(b'\n')?;
    Ok(())
}

/// Ends a replay of a script that has more motes than there are boards.
pub fn end_without_boards<K: Sink>(alloc: Global, out: &mut K, motes: u8, boards: u32) -> Status
    ensures ends { EndsWith result Status.NoBoard (ending_line (NoBoards motes boards)) (K.written out.old)
        (K.written out.new) (Rose (K.faults out.old) (K.faults out.new)) }
    ensures counts { K.faults out.old ≤ K.faults out.new }
    ensures unfailed { result ≢ Status.WriteFault → K.faults out.new ≡ K.faults out.old }
{
    let mut piece = Vec::new(alloc);
    match push_no_board(&mut piece, motes, boards) {
        Ok(()) => end_with(out, &piece, Status::NoBoard),
        Err(AllocError) => Status::Memory,
    }
}

/// Ends a replay with these lines.
fn end_with_lines<K: Sink>(alloc: Global, out: &mut K, reports: &[Report]) -> Status
    ensures ends { EndsWith result Status.Done (report_text reports.now) (K.written out.old) (K.written out.new)
        (Rose (K.faults out.old) (K.faults out.new)) }
    ensures counts { K.faults out.old ≤ K.faults out.new }
    ensures unfailed { result ≢ Status.WriteFault → K.faults out.new ≡ K.faults out.old }
{
    let mut piece = Vec::new(alloc);
    match push_reports(&mut piece, reports) {
        Ok(()) => end_with(out, &piece, Status::Done),
        Err(AllocError) => Status::Memory,
    }
}

/// Reads the boards, and ends a replay whose script ended with the last lines of its report.
pub fn finish<K: Sink, N: Nor>(
    alloc: Global,
    world: &World,
    boards: &mut Vec<N>,
    out: &mut K,
) -> Status
    requires { (w : RuleWorld) × IsWorld world.now (map N.device boards.old.items) w }
    ensures finishes { (w : RuleWorld) (initial : List Device) → IsWorld world.now (map N.device boards.old.items) w
        → WorldStands w initial (map N.device boards.old.items)
        → FinishesWith result w initial (map N.device boards.new.items) (K.written out.old) (K.written out.new)
        (Rose (K.faults out.old) (K.faults out.new)) }
    ensures read { SameBoards (map N.device boards.old.items) (map N.device boards.new.items) }
    ensures counts { K.faults out.old ≤ K.faults out.new }
    ensures unfailed { result ≢ Status.WriteFault → K.faults out.new ≡ K.faults out.old }
{
    let mut reports = Vec::new(alloc);
    match world.finish(boards, &mut reports) {
        Ok(()) => end_with_lines(alloc, out, &reports),
        Err(FinishFault::Memory) => Status::Memory,
        Err(FinishFault::Flash { .. }) => Status::FlashFault,
    }
}
