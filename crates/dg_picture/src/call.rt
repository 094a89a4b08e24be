//! The call that draws the report of a replay.
ghost use Rattle.std.specs.Prelude.{◌≡◌, ◌≢◌, ◌<◌, ◌≤◌, List, ℕ, length, IfOk, MatchResult, Err};
ghost use Rattle.dg_words.specs.Counts.{Rose};
ghost use Rattle.dg_base.specs.Outside.{Takes, Puts, PutsPrefix, AtEnd};
ghost use Rattle.dg_script.specs.Sizes.{most_used_bytes};
ghost use Rattle.dg_story.specs.Reading.{FirstNoReport, HasMoreLines};
ghost use Rattle.dg_picture.specs.Drawn.{Drawn, IsPicture, ReadOf, RefusesBytes};

use crate::drawing::drawn;
use dg_base::{Sink, Source, Status};
use dg_input::{ReadStop, read_whole};
use dg_script::USED;
use dg_story::{LinesFault, begins_timed, read_lines};
use std::alloc::Global;

/// Why no picture was drawn.
#[derive(Clone, Copy, Debug, PartialEq, Eq)]
pub enum PictureFault {
    /// Memory ran out.
    Memory,
    /// A read of the input failed.
    ReadFault,
    /// A write of the output failed.
    WriteFault,
    /// The input has more than 16,777,216 bytes.
    TooLong,
    /// The input has more than 1,000,000 lines.
    TooMany,
    /// The line with this number, from 1 on, is not one of a report.
    NoReport { line: u32 },
}

impl PictureFault {
    ghost use Rattle.dg_picture.specs.Drawn.{status_of};

    /// The exit status of the program.
    pub fn status(&self) -> Status
        ensures { result ≡ status_of self.now }
    {
        match *self {
            PictureFault::Memory => Status::Memory,
            PictureFault::ReadFault => Status::ReadFault,
            PictureFault::WriteFault => Status::WriteFault,
            PictureFault::TooLong => Status::TooLong,
            PictureFault::TooMany => Status::TooMany,
            PictureFault::NoReport { .. } => Status::BadInput,
        }
    }
}

// Draws the report that these bytes are the lines of.
#[tactic(auto, using(crate::proofs::DrawnLemmas::pictured))]
pub(crate) fn draw(alloc: Global, bytes: &[u8]) -> Result<Vec<u8>, LinesFault>
    ensures ok { IfOk result (λ text. IsPicture bytes.now text.items) }
    ensures none { (line : ℕ) → result ≡ Err (LinesFault.NoReport line) → FirstNoReport bytes.now line }
    ensures many { result ≡ Err LinesFault.TooMany → HasMoreLines bytes.now }
{
    let (story, words) = read_lines(alloc, bytes)?;
    let timed = begins_timed(bytes);
    let Ok(text) = drawn(alloc, timed, story.last, &story.told, words) else {
        return Err(LinesFault::Memory);
    };
    Ok(text)
}

// The same, with the faults of the call.
pub(crate) fn draw_whole(alloc: Global, bytes: &[u8]) -> Result<Vec<u8>, PictureFault>
    ensures { MatchResult result (λ text. IsPicture bytes.now text.items) (λ fault. RefusesBytes fault bytes.now) }
{
    match draw(alloc, bytes) {
        Ok(text) => Ok(text),
        Err(LinesFault::Memory) => Err(PictureFault::Memory),
        Err(LinesFault::TooMany) => Err(PictureFault::TooMany),
        Err(LinesFault::NoReport { line }) => Err(PictureFault::NoReport { line }),
    }
}

// Reads all of a report from an input, and draws it.
fn read<S: Source>(alloc: Global, source: &mut S) -> Result<Vec<u8>, PictureFault>
    ensures read { ReadOf result (S.left source.old) (S.left source.new) }
    ensures counts { S.faults source.old ≤ S.faults source.new }
    ensures failed { result ≡ Err PictureFault.ReadFault → Rose (S.faults source.old) (S.faults source.new) }
    ensures unfailed { result ≢ Err PictureFault.ReadFault → S.faults source.new ≡ S.faults source.old }
    ensures wrote { result ≢ Err PictureFault.WriteFault }
{
    let bytes = match read_whole(alloc, source) {
        Ok(bytes) => bytes,
        Err(ReadStop::Memory) => return Err(PictureFault::Memory),
        Err(ReadStop::ReadFault) => return Err(PictureFault::ReadFault),
    };
    if bytes.len() > USED {
        return Err(PictureFault::TooLong);
    }
    draw_whole(alloc, &bytes)
}

/// Reads the report of a replay to its end, plain or timed, with or without `sent` lines, and writes its picture, an SVG of
/// at most 1,600 by 1,000 units. A report may end with the last line of a replay that did not end well.
///
/// Where it answers another fault than [`PictureFault::WriteFault`], nothing is written.
pub fn picture<S: Source, K: Sink>(
    alloc: Global,
    source: &mut S,
    sink: &mut K,
) -> Result<(), PictureFault>
    // What is written is the picture of the lines that were read.
    ensures drawn { Drawn result (S.left source.old) (S.left source.new) (K.written sink.old) (K.written sink.new) }
    ensures read_failed { result ≡ Err PictureFault.ReadFault → Rose (S.faults source.old) (S.faults source.new) }
    ensures write_failed { result ≡ Err PictureFault.WriteFault → Rose (K.faults sink.old) (K.faults sink.new) }
{
    let text = read(alloc, source)?;
    if sink.write(&text).is_err() {
        return Err(PictureFault::WriteFault);
    }
    Ok(())
}
