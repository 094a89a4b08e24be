//! Reads the text of a line, and writes what is reported of one that was played.
ghost use Rattle.std.specs.Prelude.{◌≡◌, ◌≢◌, ◌≤◌, [], OnOk, OnErr, MatchResult, Err};
ghost use Rattle.dg_words.specs.Counts.{Rose};
ghost use Rattle.dg_base.specs.Outside.{Puts, PutsPrefix};
ghost use Rattle.dg_replay.specs.Replaying.{LineFound, NotFound, StopsAtLine, BegunWritten};

use crate::stop::Stop;
use dg_base::{Sink, WriteFailed};
use dg_script::{Line, LineFault, Place, plain_event, read_line, what_is_spelled_fits};
use std::alloc::Global;

/// Writes a piece. It is not inlined: most lines report nothing.
#[inline(never)]
pub fn put_piece<K: Sink>(out: &mut K, piece: &[u8]) -> Result<(), Stop>
    ensures ok { OnOk result (Puts (K.written out.old) (K.written out.new) piece.now) }
    ensures front { OnErr result (PutsPrefix (K.written out.old) (K.written out.new) piece.now) }
    ensures cause { OnErr result ((result ≡ Err Stop.WriteFault) × Rose (K.faults out.old) (K.faults out.new)) }
    ensures counts { K.faults out.old ≤ K.faults out.new }
    ensures unfailed { result ≢ Err Stop.WriteFault → K.faults out.new ≡ K.faults out.old }
{
    match out.write(piece) {
        Ok(()) => Ok(()),
        Err(WriteFailed) => Err(Stop::WriteFault),
    }
}

/// Writes what is reported of a line, in one piece, if anything is.
pub fn write_text<K: Sink>(out: &mut K, text: &[u8]) -> Result<(), Stop>
    ensures ok { OnOk result (Puts (K.written out.old) (K.written out.new) text.now) }
    ensures front { OnErr result (PutsPrefix (K.written out.old) (K.written out.new) text.now × (text.now ≢ [])) }
    ensures cause { OnErr result ((result ≡ Err Stop.WriteFault) × Rose (K.faults out.old) (K.faults out.new)) }
    ensures counts { K.faults out.old ≤ K.faults out.new }
    ensures unfailed { result ≢ Err Stop.WriteFault → K.faults out.new ≡ K.faults out.old }
{
    if text.is_empty() {
        return Ok(());
    }
    put_piece(out, text)
}

/// Writes what is reported of the items of a line before the one at which the replay stops, and returns why it stops.
pub fn write_begun<K: Sink>(out: &mut K, text: &[u8], stop: Stop) -> Stop
    ensures written { BegunWritten stop result text.now (K.written out.old) (K.written out.new)
        (Rose (K.faults out.old) (K.faults out.new)) }
    ensures counts { K.faults out.old ≤ K.faults out.new }
    ensures unfailed { result ≢ Stop.WriteFault → K.faults out.new ≡ K.faults out.old }
{
    match stop {
        Stop::TooMany | Stop::FlashFault | Stop::NoImage => match write_text(out, text) {
            Ok(()) => stop,
            Err(fault) => fault,
        },
        Stop::Memory | Stop::NoBoard { .. } | Stop::NotAVolume => stop,
        Stop::BadInput { .. } | Stop::WriteFault => stop,
    }
}

/// Why a replay ends at a line that was not read.
fn stop_at(line: u32, fault: LineFault) -> Stop
    ensures { StopsAtLine result line fault }
{
    if fault == LineFault::Memory {
        return Stop::Memory;
    }
    Stop::BadInput { line, fault }
}

/// Reads the text of a line that stands at this place, word by word.
#[inline(never)]
fn next_words(alloc: Global, text: &[u8], number: u32, place: &Place) -> Result<Line, Stop>
    ensures { MatchResult result (LineFound place.now text.now) (NotFound place.now text.now number) }
{
    match read_line(alloc, text, place) {
        Ok(line) => Ok(line),
        Err(fault) => Err(stop_at(number, fault)),
    }
}

/// Reads the text of a line that stands at this place. Most lines are events whose fields are all numbers.
#[inline(never)]
pub fn next_line(alloc: Global, text: &[u8], number: u32, place: &Place) -> Result<Line, Stop>
    ensures { MatchResult result (LineFound place.now text.now) (NotFound place.now text.now number) }
{
    what_is_spelled_fits();
    match plain_event(text, place) {
        Some(event) => Ok(Line::Happens(event)),
        None => next_words(alloc, text, number, place),
    }
}
