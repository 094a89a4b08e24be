//! Reads the lines of reports.
ghost use Rattle.std.specs.Prelude.{◌≡◌, ◌⊎◌, ◌<◌, ◌≤◌, Ok, Err, IfOk};
ghost use Rattle.dg_script.specs.Words.{same, words_of};
ghost use Rattle.dg_script.specs.Report.{report_line};
ghost use Rattle.dg_lines.specs.ReportReading.{FitsReport, word_at, number_at, small_at, address_at, digit_value, crc_of_digits};
ghost use Rattle.dg_lines.specs.ReportReading.{kept_said, have_said, order_said, start_said, sent_said, cause_said};
ghost use Rattle.dg_lines.specs.ReportReading.{refused_said, mote_said, report_said};
ghost use Rattle.dg_script.specs.declared.report.Report.{Report};

use crate::report_writing::write_report;
use dg_base::parse_u32;
use dg_script::{Cause, Report, next_word};
use std::alloc::AllocError;

/// Why a line is not read as one of a report.
#[derive(Clone, Copy, Debug, PartialEq, Eq)]
pub enum ReportFault {
    /// Memory ran out.
    Memory,
    /// No report has this line.
    NoReport,
}

fn is_same(word: &[u8], other: &[u8]) -> bool
    ensures { result ≡ same word.now other.now }
{
    word == other
}

// The word with this number, from 0 on. It is empty if there are fewer words.
fn word(text: &[u8], at: usize) -> &[u8]
    ensures { result.now ≡ word_at (words_of text.now) at }
{
    match next_word(text) {
        None => &text[..0],
        Some((first, rest)) => {
            if at == 0 {
                return first;
            }
            word(rest, at - 1)
        }
    }
}

// The number that a word encodes, or 0.
#[tactic(auto, unfolding(crate::specs::ReportReading::number_at))]
fn number(text: &[u8], at: usize) -> u32
    ensures { result ≡ number_at (words_of text.now) at }
{
    parse_u32(word(text, at)).unwrap_or(0)
}

fn small(text: &[u8], at: usize) -> u8
    ensures { result ≡ small_at (words_of text.now) at }
{
    (number(text, at) % 256) as u8
}

fn address(text: &[u8], at: usize) -> u16
    ensures { result ≡ address_at (words_of text.now) at }
{
    (number(text, at) % 65_536) as u16
}

// The value of a lower case hex digit.
fn digit_value(digit: u8) -> u16
    ensures value { result ≡ digit_value digit }
    ensures bound { result < 16 }
{
    let value = if digit <= b'9' {
        digit.saturating_sub(48)
    } else {
        digit.saturating_sub(87)
    };
    u16::from(value % 16)
}

// The number that four hex digits encode, or 0.
#[tactic(auto, unfolding(crate::specs::ReportReading::crc_of_digits))]
fn crc(digits: &[u8]) -> u16
    ensures { result ≡ crc_of_digits digits.now }
{
    if digits.len() != 4 {
        return 0;
    }
    let high = digit_value(digits[0]) * 16 + digit_value(digits[1]);
    (high * 16 + digit_value(digits[2])) * 16 + digit_value(digits[3])
}

// `order M K I V`
fn order(text: &[u8]) -> Report
    ensures { result ≡ order_said (words_of text.now) }
{
    Report::Order {
        mote: small(text, 1),
        number: number(text, 2),
        image: small(text, 3),
        version: number(text, 4),
    }
}

// `have M I V N`
fn have(text: &[u8]) -> Report
    ensures { result ≡ have_said (words_of text.now) }
{
    Report::Have {
        mote: small(text, 1),
        image: small(text, 2),
        version: number(text, 3),
        pages: small(text, 4),
    }
}

// `kept M I V N`
fn kept(text: &[u8]) -> Report
    ensures { result ≡ kept_said (words_of text.now) }
{
    Report::Kept {
        mote: small(text, 1),
        image: small(text, 2),
        version: number(text, 3),
        pages: small(text, 4),
    }
}

// `start M I V LENGTH CRC`
fn start(text: &[u8]) -> Report
    ensures { result ≡ start_said (words_of text.now) }
{
    Report::Start {
        mote: small(text, 1),
        image: small(text, 2),
        version: number(text, 3),
        length: number(text, 4),
        crc: crc(word(text, 5)),
    }
}

// `sent M data I V PAGE PACKET`, `sent M request TO I V PAGE COUNT` or `sent M advert`
fn sent(text: &[u8]) -> Report
    ensures { result ≡ sent_said (words_of text.now) }
{
    let kind = word(text, 2);
    if is_same(kind, b"data") {
        return Report::SentData {
            mote: small(text, 1),
            image: small(text, 3),
            version: number(text, 4),
            page: small(text, 5),
            packet: small(text, 6),
        };
    }
    if is_same(kind, b"request") {
        return Report::SentRequest {
            mote: small(text, 1),
            to: address(text, 3),
            image: small(text, 4),
            version: number(text, 5),
            page: small(text, 6),
            count: small(text, 7),
        };
    }
    Report::SentAdvert {
        mote: small(text, 1),
    }
}

// The cause of `no M CAUSE`, with its number.
fn cause(text: &[u8]) -> Cause
    ensures { result ≡ cause_said (words_of text.now) }
{
    let why = word(text, 2);
    if is_same(why, b"off") {
        return Cause::Off;
    }
    if is_same(why, b"frame") {
        return Cause::Frame;
    }
    if is_same(why, b"link") {
        return Cause::Link;
    }
    if is_same(why, b"image") {
        return Cause::Image;
    }
    if is_same(why, b"empty") {
        return Cause::Empty;
    }
    if is_same(why, b"toolarge") {
        return Cause::TooLarge {
            length: number(text, 3),
        };
    }
    if is_same(why, b"reserved") {
        return Cause::Reserved;
    }
    if is_same(why, b"stale") {
        return Cause::Stale {
            version: number(text, 3),
        };
    }
    if is_same(why, b"taken") {
        return Cause::Taken;
    }
    if is_same(why, b"worn") {
        return Cause::Worn {
            room: number(text, 3),
        };
    }
    Cause::OldOrder {
        number: number(text, 3),
    }
}

// `no image I V taken` or `no M CAUSE`
fn refused(text: &[u8]) -> Report
    ensures { result ≡ refused_said (words_of text.now) }
{
    if is_same(word(text, 1), b"image") {
        return Report::Taken {
            image: small(text, 2),
            version: number(text, 3),
        };
    }
    Report::Refused {
        mote: small(text, 1),
        cause: cause(text),
    }
}

// `mote M on I V` or `mote M off`
fn mote(text: &[u8]) -> Report
    ensures { result ≡ mote_said (words_of text.now) }
{
    if is_same(word(text, 2), b"on") {
        return Report::MoteOn {
            mote: small(text, 1),
            image: small(text, 3),
            version: number(text, 4),
        };
    }
    Report::MoteOff {
        mote: small(text, 1),
    }
}

// What a text says, if it is a line of a report.
#[tactic(auto, unfolding(crate::specs::ReportReading::report_said))]
fn said(text: &[u8]) -> Report
    ensures { result ≡ report_said (words_of text.now) }
{
    let verb = word(text, 0);
    if is_same(verb, b"sent") {
        return sent(text);
    }
    if is_same(verb, b"have") {
        return have(text);
    }
    if is_same(verb, b"no") {
        return refused(text);
    }
    if is_same(verb, b"start") {
        return start(text);
    }
    if is_same(verb, b"order") {
        return order(text);
    }
    if is_same(verb, b"none") {
        return Report::Lost {
            mote: small(text, 1),
            image: small(text, 2),
        };
    }
    if is_same(verb, b"off") {
        return Report::Off {
            mote: small(text, 1),
        };
    }
    if is_same(verb, b"mote") {
        return mote(text);
    }
    if is_same(verb, b"kept") {
        return kept(text);
    }
    Report::End {
        events: number(text, 1),
    }
}

/// Reads a line of a report, with its LF. `scratch` is overwritten.
///
/// What is written is read back, and nothing else is accepted: a line is read as what it says only if
/// [`write_report`] writes exactly this line for that.
pub fn read_report(line: &[u8], scratch: &mut Vec<u8>) -> Result<Report, ReportFault>
    ensures written { (report : Report) → FitsReport report → report_line report ≡ line.now → (result ≡ Ok report)
        ⊎ (result ≡ Err ReportFault.Memory) }
    ensures nothing_else { IfOk result (λ report. report_line report ≡ line.now) }
{
    if line.is_empty() {
        return Err(ReportFault::NoReport);
    }
    let report = said(&line[..line.len() - 1]);
    scratch.clear();
    if write_report(&report, scratch).is_err() {
        return Err(ReportFault::Memory);
    }
    if !is_same(scratch, line) {
        return Err(ReportFault::NoReport);
    }
    Ok(report)
}
