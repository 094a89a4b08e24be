//! How far each mote has come.
ghost use Rattle.std.specs.Prelude.{◌≡◌, ℕ, Bool, List, false, replicate, slice_index_or, slice_set};
ghost use Rattle.dg_script.specs.Sizes.{most_motes};
ghost use Rattle.dg_rehearse.specs.Courses.{Agenda, with_progress, noted_line, noted_lines};
ghost use Rattle.dg_rehearse.specs.Turns.{all_motes, is_reported_done};

use crate::plan::Plan;
use dg_base::MOST_MOTES;
use dg_script::Report;

/// Which motes have the whole image, which run it, and which are off.
#[derive(Drop)]
pub(crate) struct Progress {
    pages: u8,
    whole: [bool; MOST_MOTES as usize],
    runs: [bool; MOST_MOTES as usize],
}

impl Progress {
    /// No mote has anything of an image of this many pages.
    pub(crate) fn none(pages: u8) -> Progress
        ensures pages { result.pages ≡ pages }
        ensures whole { result.whole ≡ replicate most_motes false }
        ensures runs { result.runs ≡ replicate most_motes false }
    {
        Progress {
            pages,
            whole: [false; MOST_MOTES as usize],
            runs: [false; MOST_MOTES as usize],
        }
    }

    /// Notes the report lines of an event.
    pub(crate) fn note(&mut self, plan: &Plan, reports: &[Report])
        ensures { (a : Agenda) → with_progress a self.new ≡ noted_lines plan.now (with_progress a self.old) reports.now }
    {
        for report in reports {
            self.note_one(plan, report);
        }
    }

    /// Notes one report line.
    fn note_one(&mut self, plan: &Plan, report: &Report)
        ensures { (a : Agenda) → with_progress a self.new ≡ noted_line plan.now (with_progress a self.old) report.now }
    {
        match report {
            Report::Have {
                mote,
                image,
                version,
                pages,
            } => {
                if *image == plan.image && *version == plan.version {
                    set(&mut self.whole, *mote, *pages == self.pages);
                }
            }
            Report::Start {
                mote,
                image,
                version,
                ..
            } => set(
                &mut self.runs,
                *mote,
                *image == plan.image && *version == plan.version,
            ),
            Report::Off { mote } => set(&mut self.runs, *mote, false),
            _ => {}
        }
    }

    /// Whether each of the motes has the image or, if it was ordered, runs it.
    pub(crate) fn is_complete(&self, plan: &Plan, motes: u8) -> bool
        ensures { (a : Agenda) → result ≡ is_reported_done plan.now motes (with_progress a self.now) }
    {
        if plan.ordered {
            all_set(&self.runs, motes)
        } else {
            all_set(&self.whole, motes)
        }
    }
}

/// Whether the flags of this many motes are set.
fn all_set(of: &[bool; MOST_MOTES as usize], motes: u8) -> bool
    ensures { result ≡ all_motes (λ m. slice_index_or of.now m false) motes }
{
    for mote in 0..motes {
        if !is_set(of, mote) {
            return false;
        }
    }
    true
}

/// Whether the flag of a mote is set.
pub(crate) fn is_set(of: &[bool; MOST_MOTES as usize], mote: u8) -> bool
    ensures { result ≡ slice_index_or of.now mote false }
{
    match of.get(usize::from(mote)) {
        Some(is) => *is,
        None => false,
    }
}

/// Sets the flag of a mote.
#[tactic(auto, using(std::proofs::lemmas::List::set_past))]
pub(crate) fn set(of: &mut [bool; MOST_MOTES as usize], mote: u8, is: bool)
    ensures { of.new ≡ slice_set of.old mote is }
{
    let mote = usize::from(mote);
    if mote < of.len() {
        of[mote] = is;
    }
}
