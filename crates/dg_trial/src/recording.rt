//! Records a trial: what a script of it has.
ghost use Rattle.std.specs.Prelude.{◌≤◌, map, length};
ghost use Rattle.dg_rules.specs.Sizes.{most_motes};
ghost use Rattle.dg_trial.specs.Trials.{RecordEnds};

use crate::beginning::{Begun, begin, content_of};
use crate::call::sweeps_of;
use crate::playing::play_disturbed;
use dg_base::{Bytes, Step};
use dg_end::End;
use dg_nor::Nor;
use std::alloc::Global;

/// What a script of a trial has. The motes, the pages and the seed fix all but the disturbances: one that is a heard frame
/// names the frame by its number, which depends on the run.
#[derive(Debug, Drop)]
pub struct TrialRecord {
    /// The links of the motes, which stand in a line, the last one first.
    pub links: Vec<(u8, u8)>,
    /// The bytes of version 1 of image 1, whose name is `trial`.
    pub content: Bytes,
    /// The disturbances, as they were played.
    pub disturbances: Vec<Step>,
    /// How many sweeps end the trial.
    pub sweeps: u32,
}

/// Plays a trial up to its last disturbance, over boards that are formatted first, and records it.
pub fn record_trial<N: Nor>(
    alloc: Global,
    motes: u8,
    pages: u8,
    seed: u32,
    boards: &mut Vec<N>,
) -> Result<TrialRecord, End>
    requires some { 2 ≤ motes }
    requires few { motes ≤ most_motes }
    requires some_pages { 2 ≤ pages }
    requires few_pages { pages ≤ 65 }
    // The recorded disturbances are the steps of a run of the schedule, to the world for which the boards stand. Each other
    // answer comes with its cause, and what it leaves.
    ensures { RecordEnds result motes pages seed (map N.device boards.old.items) (map N.device boards.new.items) }
{
    if boards.len() < usize::from(motes) {
        return Err(End::NoBoard {
            need: motes,
            have: boards.len() as u32,
        });
    }
    let Begun {
        word,
        mut draws,
        links,
        mut world,
    } = begin(alloc, motes, pages, seed, boards)?;
    let content = content_of(alloc, pages, seed, word)?;
    let mut reports = Vec::new(alloc);
    let mut disturbances = Vec::new(alloc);
    play_disturbed(
        alloc,
        &mut world,
        motes,
        &mut draws,
        boards,
        &mut reports,
        &mut disturbances,
    )?;
    Ok(TrialRecord {
        links,
        content,
        disturbances,
        sweeps: sweeps_of(motes, pages),
    })
}
