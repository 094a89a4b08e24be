//! `deluge_inspect` looks into the files of chips, and changes nothing: it opens each for reading only, takes no lock, and
//! lengthens no file.
#![tactic(auto)]

ghost use Rattle.std.specs.Prelude.{◌≡◌, ◌⊎◌, ◌↔◌, ℕ, List, IfOk, IfErr, IsTrue};
ghost use Rattle.dg_inspect.specs.Files.{ShowsFile};
ghost use Rattle.deluge_inspect.specs.Status.{status_of, IsSoundVerdict, Verifies, Contrasts};

mod reading;

use crate::reading::{MOST_READS, read_settled, words};
use dg_compare::{Compared, Comparison, Rooted, Side, Verdict, compare, verify};
use dg_inspect::{ChipSeen, FileSeen, LookFault, inspect, next_numbers};
use dg_inspect_text::{
    Asked, Moment, Report, Request, comparison_json, comparison_lines, file_line, next_json,
    next_lines, read_words, report_lines, reports_json, verdict_json, verdict_line,
};
use std::alloc::AllocError;
use std::process::ExitCode;

const HELP: &str = "\
deluge_inspect: looks into the files of chips, and changes none

Usage:
  deluge_inspect show [--json] CHIP..
      what each file is, what its chip keeps, and what its next start runs
  deluge_inspect next [--json] CHIP
      the versions and the order number that may be used next
  deluge_inspect verify [--json] [--root ROOT --image I] CHIP
      whether all that the chip keeps and runs is sound, and image I has this root
  deluge_inspect compare [--json] CHIP CHIP
      which chip is ahead in each image, and whether what both have is equal

Options:
  --json     writes JSON
  --root     the root of a hash chain: the 64 hex digits that deluge wrap wrote
  --image    the image that is to have it, 0 to 6
  --help     writes this text
  --version  writes the version
";

const VERSION: &str = "deluge_inspect 0.9\n";

/// Why the program ends before its work is done.
#[derive(Clone, Copy, Debug, PartialEq, Eq)]
enum Stop {
    /// Memory ran out.
    Memory,
    /// The command line is invalid.
    Usage,
    /// The output could not be written.
    Write,
    /// A file could not be read. Standard error says which one, and why.
    File,
    /// A file holds no volume, is not sound, or two are not alike.
    NotSo,
}

impl From<AllocError> for Stop {
    ghost use Rattle.std.specs.Prelude.{◌≡◌};
    ghost use Rattle.deluge_inspect.specs.declared.Stop.{Stop};

    ghost from_gives = { λ _ stop. stop ≡ Stop.Memory };

    fn from(_error: AllocError) -> Stop {
        Stop::Memory
    }
}

/// The statuses of the program. What was asked could be read and is so, or is not so; the command line is invalid; the output
/// could not be written; a file could not be read.
const DONE: u8 = 0;

const NOT_SO: u8 = 1;

const USAGE: u8 = 2;

const WRITE_FAULT: u8 = 5;

const FILE_FAULT: u8 = 6;

/// The status that an end gives.
fn status_of(end: Result<(), Stop>) -> u8
    ensures { result ≡ status_of end }
{
    match end {
        Ok(()) => DONE,
        Err(Stop::NotSo) => NOT_SO,
        Err(Stop::Memory) => NOT_SO,
        Err(Stop::Usage) => USAGE,
        Err(Stop::Write) => WRITE_FAULT,
        Err(Stop::File) => FILE_FAULT,
    }
}

/// The bytes of a file, and the moment that was seen. If it cannot be read, standard error says why.
fn read(rt: &HostRuntime, name: &str) -> Result<(Vec<u8>, Moment), Stop>
    ensures { IfErr result (λ stop. stop ≡ Stop.File) }
{
    match read_settled(rt, name) {
        Ok((bytes, moment)) => {
            if !moment.settled {
                let _ = eprintln!(rt;
                    "deluge_inspect: {name}: it changed between each two of {MOST_READS} reads"
                );
            }
            Ok((bytes, moment))
        }
        Err(error) => {
            let _ = eprintln!(rt; "deluge_inspect: {name}: {error}");
            Err(Stop::File)
        }
    }
}

/// What is seen of a file.
fn see(rt: &HostRuntime, name: &str) -> Result<Report, Stop>
    ensures { IfOk result (λ report. (bytes : List ℕ) × ShowsFile bytes report.seen) }
{
    let (bytes, moment) = read(rt, name)?;
    match inspect(rt.alloc(), &bytes) {
        Ok(seen) => Ok(Report {
            name: String::from_str(rt.alloc(), name)?,
            moment,
            seen,
        }),
        Err(fault) => Err(not_seen(rt, name, fault)),
    }
}

/// Why a file was not seen, where its bytes were read.
fn not_seen(rt: &HostRuntime, name: &str, fault: LookFault) -> Stop
    ensures { (result ≡ Stop.Memory) ⊎ (result ≡ Stop.File) }
{
    match fault {
        LookFault::Memory => Stop::Memory,
        LookFault::Stopped => {
            let _ = eprintln!(rt; "deluge_inspect: {name}: its chip stopped");
            Stop::File
        }
    }
}

/// Reports that a file holds no volume.
fn no_volume(rt: &HostRuntime, name: &str) -> Stop
    ensures { result ≡ Stop.NotSo }
{
    let _ = eprintln!(rt; "deluge_inspect: {name}: it holds no volume");
    Stop::NotSo
}

/// Writes a text to standard output.
fn write(rt: &HostRuntime, text: &str) -> Result<(), Stop>
    ensures { IfErr result (λ stop. stop ≡ Stop.Write) }
{
    match rt.print(text) {
        Ok(()) => Ok(()),
        Err(_) => Err(Stop::Write),
    }
}

/// Writes what is seen of files.
fn write_reports(rt: &HostRuntime, reports: &[Report], json: bool) -> Result<(), Stop> {
    if json {
        return write(rt, reports_json(rt.alloc(), reports)?.as_str());
    }
    for report in reports {
        let lines = report_lines(rt.alloc(), report)?;
        write(rt, lines.as_str())?;
    }
    Ok(())
}

/// Reports what files show. Each file that can be read is reported, also if another one cannot be.
fn show(rt: &HostRuntime, files: &[&str], json: bool) -> Result<(), Stop> {
    let mut reports = Vec::new(rt.alloc());
    let mut unread = false;
    for name in files {
        match see(rt, *name) {
            Ok(report) => match reports.push(report) {
                Ok(()) => {}
                Err(_) => return Err(Stop::Memory),
            },
            Err(Stop::File) => unread = true,
            Err(stop) => return Err(stop),
        }
    }
    write_reports(rt, &reports, json)?;
    if unread { Err(Stop::File) } else { Ok(()) }
}

/// Reports the numbers that may be used next on the chip in a file.
fn next(rt: &HostRuntime, name: &str, json: bool) -> Result<(), Stop> {
    let report = see(rt, name)?;
    let FileSeen::Chip {
        chip: ChipSeen::Volume(volume),
        ..
    } = &report.seen
    else {
        return Err(no_volume(rt, name));
    };
    let numbers = next_numbers(volume);
    if json {
        return write(rt, next_json(rt.alloc(), &numbers)?.as_str());
    }
    let lines = next_lines(rt.alloc(), &numbers)?;
    write(rt, lines.as_str())
}

/// Writes a verdict on the chip in a file.
fn write_verdict(
    rt: &HostRuntime,
    name: &str,
    moment: &Moment,
    verdict: Verdict,
    json: bool,
) -> Result<(), Stop>
    ensures { IfErr result (λ stop. (stop ≡ Stop.Memory) ⊎ (stop ≡ Stop.Write)) }
{
    if json {
        return write(
            rt,
            verdict_json(rt.alloc(), name, moment, verdict)?.as_str(),
        );
    }
    write(rt, file_line(rt.alloc(), name, moment)?.as_str())?;
    write(rt, verdict_line(rt.alloc(), verdict)?.as_str())
}

/// Whether a verdict is sound.
fn is_sound(verdict: Verdict) -> bool
    ensures { IsTrue result ↔ IsSoundVerdict verdict }
{
    match verdict {
        Verdict::Sound => true,
        Verdict::Flawed(_) => false,
        Verdict::NoVolume => false,
    }
}

/// Reports whether the chip in a file is sound.
fn verify_file(
    rt: &HostRuntime,
    name: &str,
    rooted: &Option<Rooted>,
    json: bool,
) -> Result<(), Stop>
    ensures { Verifies rooted.now result }
{
    let (bytes, moment) = read(rt, name)?;
    let verdict = match verify(rt.alloc(), &bytes, rooted) {
        Ok(verdict) => verdict,
        Err(fault) => return Err(not_seen(rt, name, fault)),
    };
    write_verdict(rt, name, &moment, verdict, json)?;
    if is_sound(verdict) {
        Ok(())
    } else {
        Err(Stop::NotSo)
    }
}

/// Writes the moments of two files.
fn write_moments(
    rt: &HostRuntime,
    first: &str,
    moment: &Moment,
    second: &str,
    other: &Moment,
) -> Result<(), Stop>
    ensures { IfErr result (λ stop. (stop ≡ Stop.Memory) ⊎ (stop ≡ Stop.Write)) }
{
    write(rt, file_line(rt.alloc(), first, moment)?.as_str())?;
    write(rt, file_line(rt.alloc(), second, other)?.as_str())
}

/// Writes JSON of how the chips in two files compare.
fn write_comparison(
    rt: &HostRuntime,
    first: &str,
    moment: &Moment,
    second: &str,
    other: &Moment,
    found: &Comparison,
) -> Result<(), Stop>
    ensures { IfErr result (λ stop. (stop ≡ Stop.Memory) ⊎ (stop ≡ Stop.Write)) }
{
    let line = comparison_json(rt.alloc(), first, moment, second, other, found)?;
    write(rt, line.as_str())
}

/// Reports how the chips in two files compare.
fn compare_files(rt: &HostRuntime, first: &str, second: &str, json: bool) -> Result<(), Stop>
    ensures { Contrasts result }
{
    let (bytes, moment) = read(rt, first)?;
    let (other_bytes, other_moment) = read(rt, second)?;
    if !json {
        write_moments(rt, first, &moment, second, &other_moment)?;
    }
    let found = match compare(rt.alloc(), &bytes, &other_bytes) {
        Ok(Compared::Volumes(found)) => found,
        Ok(Compared::NoVolume(Side::First)) => return Err(no_volume(rt, first)),
        Ok(Compared::NoVolume(Side::Second)) => return Err(no_volume(rt, second)),
        Err(fault) => return Err(not_seen(rt, first, fault)),
    };
    if json {
        write_comparison(rt, first, &moment, second, &other_moment, &found)?;
    } else {
        write(rt, comparison_lines(rt.alloc(), &found)?.as_str())?;
    }
    if found.alike {
        Ok(())
    } else {
        Err(Stop::NotSo)
    }
}

/// Does what is asked of files.
fn answer(rt: &HostRuntime, request: &Request<'_>, json: bool) -> Result<(), Stop> {
    match request {
        Request::Show { files } => show(rt, files, json),
        Request::Next { file } => next(rt, *file, json),
        Request::Verify { file, rooted } => verify_file(rt, *file, rooted, json),
        Request::Compare { first, second } => compare_files(rt, *first, *second, json),
    }
}

/// Does what words ask for.
fn run(rt: &HostRuntime, words: &[String]) -> Result<(), Stop> {
    match read_words(rt.alloc(), words)? {
        Asked::Request { request, json } => answer(rt, &request, json),
        Asked::Help => write(rt, HELP),
        Asked::Version => write(rt, VERSION),
        Asked::Wrong(word) => {
            let _ = eprintln!(rt; "deluge_inspect: {word} is wrong: try deluge_inspect --help");
            Err(Stop::Usage)
        }
        Asked::Count => {
            let _ = rt.eprintln(
                "deluge_inspect: a word is missing, or one is too many: try --help",
            );
            Err(Stop::Usage)
        }
    }
}

fn main(rt: HostRuntime) -> ExitCode {
    let end = match words(&rt) {
        None => Err(Stop::Memory),
        Some(words) => run(&rt, &words),
    };
    ExitCode::from(status_of(end))
}
