//! What is reported of a trial.
ghost use Rattle.std.specs.Prelude.{◌≡◌, ◌++◌, ◌∷◌, [], ℕ, List, count_by, codes, IfOk, OnOk, OnErr, Err};
ghost use Rattle.std.specs.Fmt.{decimal};
ghost use Rattle.dg_trial.specs.Trials.{summary_line};
ghost use Rattle.dg_trial.specs.Lines.{tells_whole};

use dg_base::push_u32;
use dg_end::End;
use dg_rules::Report;
use std::alloc::{AllocError, Global};

/// The numbers of a trial.
#[derive(Clone, Copy, Debug, PartialEq, Eq)]
pub struct Summary {
    pub motes: u8,
    pub pages: u8,
    pub sweeps: u32,
    pub events: u32,
    /// How many motes keep the image whole.
    pub whole: u32,
}

/// Whether a last line of a world reports that a mote keeps the image of a trial whole.
fn tells_whole(report: &Report, pages: u8) -> bool
    ensures { result ≡ tells_whole pages report.now }
{
    match report {
        Report::Kept {
            mote: _,
            image,
            version,
            pages: kept,
        } => *image == 1 && *version == 1 && *kept >= pages,
        _ => false,
    }
}

/// How many motes keep the image of a trial whole, by the last lines of its world.
pub fn count_whole(reports: &[Report], pages: u8) -> usize
    ensures { result ≡ count_by (tells_whole pages) reports.now }
{
    reports
        .iter()
        .filter(|report| tells_whole(*report, pages))
        .count()
}

/// How many events a line counts: 0, except for the first of the last lines of a world.
fn events_in(report: &Report) -> u32
    ensures { (events : ℕ) → report.now ≡ Report.End events → result ≡ events }
{
    match report {
        Report::End { events } => *events,
        _ => 0,
    }
}

/// How many events were played, by the last lines of a world. 0 if they do not begin with the line that counts them.
pub fn count_events(reports: &[Report]) -> u32
    ensures { (events : ℕ) (rest : List Report) → reports.now ≡ Report.End events ∷ rest → result ≡ events }
{
    match reports.first() {
        Some(report) => events_in(report),
        None => 0,
    }
}

/// Appends a word and a number.
fn push_field(text: &mut Vec<u8>, word: &[u8], number: u32) -> Result<(), AllocError>
    ensures { OnOk result (text.new.items ≡ text.old.items ++ (word.now ++ decimal number)) }
{
    text.extend_from_slice(word)?;
    push_u32(text, number)?;
    Ok(())
}

/// Appends the line of a trial.
fn push_summary(text: &mut Vec<u8>, summary: &Summary) -> Result<(), AllocError>
    ensures { OnOk result (text.new.items ≡ text.old.items
        ++ summary_line summary.now.motes summary.now.pages summary.now.sweeps summary.now.events summary.now.whole) }
{
    push_field(text, b"trial motes ", u32::from(summary.motes))?;
    push_field(text, b" pages ", u32::from(summary.pages))?;
    push_field(text, b" sweeps ", summary.sweeps)?;
    push_field(text, b" events ", summary.events)?;
    push_field(text, b" whole ", summary.whole)?;
    text.push(b'\n')?;
    Ok(())
}

/// The line of a trial.
pub fn line_of_summary(alloc: Global, summary: &Summary) -> Result<Vec<u8>, End>
    ensures line { IfOk result (λ text. text.items
        ≡ summary_line summary.now.motes summary.now.pages summary.now.sweeps summary.now.events summary.now.whole) }
    ensures memory { OnErr result (result ≡ Err End.Memory) }
{
    let mut text = Vec::new(alloc);
    push_summary(&mut text, summary)?;
    Ok(text)
}
