//! Reads the lines of a report.
ghost use Rattle.std.specs.Prelude.{◌≡◌, ◌<◌, ◌≤◌, List, ℕ, length, drop, take, IfOk, Err};
ghost use Rattle.dg_story.specs.Reading.{begins_timed, IsFirstLine, IsRead, FirstNoReport, HasMoreLines};

use crate::endings::last_words;
use crate::lines::read_line;
use crate::told::Story;
use dg_lines::ReportFault;
use memchr::memchr;
use std::alloc::Global;

/// The lines of a report that are used.
const MOST_LINES: usize = 1_000_000;

/// Why bytes are not read as a report.
#[derive(Clone, Copy, Debug, PartialEq, Eq)]
pub enum LinesFault {
    /// Memory ran out.
    Memory,
    /// There are more than 1,000,000 lines.
    TooMany,
    /// The line with this number, from 1 on, is not one of a report.
    NoReport { line: u32 },
}

// How many bytes the first line has, with its LF.
fn first_line(bytes: &[u8]) -> usize
    requires { 0 < length bytes.now }
    ensures some { 0 < result }
    ensures within { result ≤ length bytes.now }
    ensures first { IsFirstLine (take result bytes.now) (drop result bytes.now) }
{
    match memchr(b'\n', bytes) {
        None => bytes.len(),
        Some(at) => at + 1,
    }
}

/// Whether a report is timed: it begins with a stamp.
pub fn begins_timed(bytes: &[u8]) -> bool
    ensures { result ≡ begins_timed bytes.now }
{
    if bytes.is_empty() {
        return false;
    }
    bytes[0] == b'@'
}

/// Reads all lines of a report: what is drawn of them, and the words of the last line of one that did not end well.
#[tactic(auto, using(crate::proofs::ReadLemmas::readings))]
pub fn read_lines(alloc: Global, bytes: &[u8]) -> Result<(Story, &[u8]), LinesFault>
    ensures ok { IfOk result (λ r. IsRead bytes.now r.0.told.items r.0.last r.0.count r.1.now) }
    ensures none { (line : ℕ) → result ≡ Err (LinesFault.NoReport line) → FirstNoReport bytes.now line }
    ensures many { result ≡ Err LinesFault.TooMany → HasMoreLines bytes.now }
{
    let timed = begins_timed(bytes);
    let mut story = Story::new(alloc);
    let mut scratch = Vec::new(alloc);
    let mut rest = bytes;
    while !rest.is_empty() {
        if story.count >= MOST_LINES {
            return Err(LinesFault::TooMany);
        }
        let (line, behind) = rest.split_at(first_line(rest));
        let report = match read_line(timed, line, &mut scratch) {
            Ok(report) => report,
            Err(ReportFault::Memory) => return Err(LinesFault::Memory),
            Err(ReportFault::NoReport) => {
                if behind.is_empty() {
                    if let Some(words) = last_words(timed, line) {
                        return Ok((story, words));
                    }
                }
                return Err(LinesFault::NoReport {
                    line: story.count as u32 + 1,
                });
            }
        };
        if story.tell(report).is_err() {
            return Err(LinesFault::Memory);
        }
        rest = behind;
    }
    Ok((story, rest))
}
