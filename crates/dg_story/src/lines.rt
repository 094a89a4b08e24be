//! The lines of a report, plain or with stamps, and how one of them is read.
ghost use Rattle.std.specs.Prelude.{true, false};
ghost use Rattle.std.specs.Prelude.{◌≡◌, ◌≢◌, ◌↔◌, ℕ, ◌^◌, ◌<◌, ◌∷◌, ◌++◌, List, Some, Err, IsTrue, IfOk, MatchOption};
ghost use Rattle.std.specs.Fmt.{decimal};
ghost use Rattle.dg_script.specs.Report.{report_line};
ghost use Rattle.dg_lines.specs.ReportReading.{FitsReport};
ghost use Rattle.dg_script.specs.declared.report.Report.{Report};
ghost use Rattle.dg_story.specs.Lines.{with_stamp, report_line_text};
ghost use Rattle.dg_story.specs.Reading.{IsOfReplay, IsLineOf, IsNoLine, IsNoReport, FitsStamp};

use crate::reports::{image_of, motes_of};
use dg_lines::{ReportFault, read_report};
use dg_script::{MOST_IMAGE, Report};
use itoa::Buffer;
use memchr::memchr;
use std::str;

/// The stamp before a line of a timed report.
#[derive(Clone, Copy, Debug, PartialEq, Eq)]
pub struct Stamp {
    /// The number of the event in which the line was written.
    pub event: u64,
    /// Its moment, in milliseconds.
    pub ms: u64,
}

/// A line of a report.
#[derive(Clone, Copy, Debug, PartialEq, Eq)]
pub struct Line {
    /// Its stamp, where the report is timed.
    pub stamp: Option<Stamp>,
    /// What it says.
    pub report: Report,
}

// The number that bytes write.
#[tactic(auto, using(crate::proofs::LineLemmas::numbers_read))]
fn number(bytes: &[u8]) -> Option<u64>
    ensures { (n : ℕ) → n < 2 ^ 64 → bytes.now ≡ decimal n → result ≡ Some n }
{
    let Ok(text) = str::from_utf8(bytes) else {
        return None;
    };
    text.parse::<u64>().ok()
}

// Whether bytes write a number as it is printed.
fn is_printed(number: u64, bytes: &[u8]) -> bool
    ensures { IsTrue result ↔ (bytes.now ≡ decimal number) }
{
    Buffer::new().format(number).as_bytes() == bytes
}

// The number that is printed as these bytes.
fn printed(bytes: &[u8]) -> Option<u64>
    ensures { MatchOption result ((n : ℕ) → n < 2 ^ 64 → bytes.now ≢ decimal n) (λ m. bytes.now ≡ decimal m) }
{
    let found = number(bytes)?;
    if !is_printed(found, bytes) {
        return None;
    }
    Some(found)
}

// The number before the first space, and the bytes after it.
#[tactic(auto, using(crate::proofs::LineLemmas::numbers_taken))]
fn take_number(bytes: &[u8]) -> Option<(u64, &[u8])>
    ensures { MatchOption result ((n : ℕ) (rest : List ℕ) → n < 2 ^ 64 → bytes.now ≢ decimal n ++ 32 ∷ rest)
        (λ r. bytes.now ≡ decimal r.0 ++ 32 ∷ r.1.now) }
{
    let Some(at) = memchr(b' ', bytes) else {
        return None;
    };
    let found = printed(&bytes[..at])?;
    Some((found, &bytes[at + 1..]))
}

/// The stamp of a line, and the bytes after it.
#[tactic(auto, using(crate::proofs::LineLemmas::stamps_taken))]
pub fn take_stamp(line: &[u8]) -> Option<(Stamp, &[u8])>
    ensures { MatchOption result ((stamp : Stamp) (rest : List ℕ) → FitsStamp (Some stamp)
        → line.now ≢ with_stamp (Some stamp) rest) (λ r. line.now ≡ with_stamp (Some r.0) r.1.now) }
{
    if line.is_empty() || line[0] != b'@' {
        return None;
    }
    let (event, behind) = take_number(&line[1..])?;
    let Some((ms, rest)) = take_number(behind) else {
        return None;
    };
    Some((Stamp { event, ms }, rest))
}

// Whether a line is one of a replay, of a mote from 0 to 15, and of an image that a chip has a slot for.
fn is_of_replay(report: &Report) -> bool
    ensures { IsTrue result ↔ IsOfReplay report.now }
{
    if motes_of(report) > 16 {
        return false;
    }
    image_of(report) <= MOST_IMAGE
}

// Reads a line without a stamp.
fn read_replay(line: &[u8], scratch: &mut Vec<u8>) -> Result<Report, ReportFault>
    ensures ok { IfOk result (λ report. (report_line report ≡ line.now) × IsOfReplay report) }
    ensures none { result ≡ Err ReportFault.NoReport → IsNoReport line.now }
{
    let report = read_report(line, scratch)?;
    if !is_of_replay(&report) {
        return Err(ReportFault::NoReport);
    }
    Ok(report)
}

// Reads a line of a plain report.
#[tactic(auto, using(crate::proofs::LineLemmas::plain_no_line), unfolding(crate::specs::Lines::report_line_text))]
fn read_plain(line: &[u8], scratch: &mut Vec<u8>) -> Result<Line, ReportFault>
    ensures ok { IfOk result (λ l. (report_line_text l ≡ line.now) × IsLineOf false l) }
    ensures none { result ≡ Err ReportFault.NoReport → IsNoLine false line.now }
{
    let report = read_replay(line, scratch)?;
    Ok(Line {
        stamp: None,
        report,
    })
}

// Reads a line of a timed report.
#[tactic(auto, using(crate::proofs::LineLemmas::stamped_lines), unfolding(crate::specs::Lines::report_line_text))]
fn read_stamped(line: &[u8], scratch: &mut Vec<u8>) -> Result<Line, ReportFault>
    ensures ok { IfOk result (λ l. (report_line_text l ≡ line.now) × IsLineOf true l) }
    ensures none { result ≡ Err ReportFault.NoReport → IsNoLine true line.now }
{
    let Some((stamp, rest)) = take_stamp(line) else {
        return Err(ReportFault::NoReport);
    };
    match read_replay(rest, scratch) {
        Ok(report) => Ok(Line {
            stamp: Some(stamp),
            report,
        }),
        Err(fault) => Err(fault),
    }
}

/// Reads a line of a timed report, or of a plain one, with its LF. `scratch` is overwritten.
pub fn read_line(timed: bool, line: &[u8], scratch: &mut Vec<u8>) -> Result<Line, ReportFault>
    ensures ok { IfOk result (λ l. (report_line_text l ≡ line.now) × IsLineOf timed l) }
    ensures none { result ≡ Err ReportFault.NoReport → IsNoLine timed line.now }
{
    if timed {
        return read_stamped(line, scratch);
    }
    read_plain(line, scratch)
}
