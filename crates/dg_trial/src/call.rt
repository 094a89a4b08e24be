//! The call that plays a trial.
ghost use Rattle.std.specs.Prelude.{◌≡◌, ◌≢◌, ◌⊎◌, ◌+◌, ◌-◌, ◌<◌, ◌≤◌, ◌∷◌, ◌++◌, ℕ, List, [], map, length, slice_get, count_by};
ghost use Rattle.std.specs.Prelude.{Some, Err, IfOk, OnOk, OnErr};
ghost use Rattle.dg_words.specs.Counts.{Rose};
ghost use Rattle.dg_outside.specs.Outside.{Outside, with_output, with_boards};
ghost use Rattle.dg_end.specs.Lines.{text_outcome};
ghost use Rattle.dg_nor.specs.Device.{Device};
ghost use Rattle.dg_rules.specs.Sizes.{most_motes};
ghost use Rattle.dg_rules.specs.World.{World as RuleWorld};
ghost use Rattle.dg_world.specs.Worlds.{IsWorld};
ghost use Rattle.dg_trial.specs.Schedule.{sweep_count};
ghost use Rattle.dg_world.specs.Boards.{WorldStands};
ghost use Rattle.dg_trial.specs.Trials.{TrialRun, TrialDone, TellsWhole};
ghost use Rattle.dg_trial.specs.inner.Outcomes.{ScheduleEnds, TrialOutcome, TrialComesTo};

use crate::beginning::{Begun, begin};
use crate::laws::trials_end_whole;
use crate::playing::play;
use crate::summary::{Summary, count_events, count_whole, line_of_summary};
use dg_base::{Sink, Status};
use dg_end::{End, answer};
use dg_nor::Nor;
use dg_world::{FinishFault, World};
use std::alloc::Global;

/// How many sweeps end a trial: one for each page, and one for each link except the first.
pub fn sweeps_of(motes: u8, pages: u8) -> u32
    requires { 2 ≤ motes + pages }
    ensures { result ≡ sweep_count motes pages }
{
    u32::from(pages) + u32::from(motes) - 2
}

/// Plays a schedule from its beginning.
fn play_schedule<N: Nor>(
    alloc: Global,
    motes: u8,
    pages: u8,
    seed: u32,
    boards: &mut Vec<N>,
) -> Result<World, End>
    requires some { 2 ≤ motes }
    requires few { motes ≤ most_motes }
    requires some_pages { 2 ≤ pages }
    requires few_pages { pages ≤ 65 }
    requires boards { motes ≤ length boards.old.items }
    ensures { ScheduleEnds result motes pages seed (map N.device boards.old.items) (map N.device boards.new.items) }
{
    let Begun {
        word: _,
        mut draws,
        links,
        mut world,
    } = begin(alloc, motes, pages, seed, boards)?;
    play(
        alloc,
        &mut world,
        motes,
        &links,
        sweeps_of(motes, pages),
        &mut draws,
        boards,
    )?;
    Ok(world)
}

/// Reads the boards at the end of a schedule.
fn summarize<N: Nor>(
    alloc: Global,
    world: &World,
    motes: u8,
    pages: u8,
    boards: &mut Vec<N>,
) -> Result<Summary, End>
    requires some { 2 ≤ motes }
    requires few { motes ≤ most_motes }
    requires some_pages { 2 ≤ pages }
    requires few_pages { pages ≤ 65 }
    requires world { (w : RuleWorld) × IsWorld world.now (map N.device boards.old.items) w × (length w.sites ≡ motes) }
    ensures { (seed : ℕ) (initial : List Device) (w : RuleWorld) → TrialRun motes pages seed w → length w.sites ≡ motes
        → IsWorld world.now (map N.device boards.old.items) w → WorldStands w initial (map N.device boards.old.items)
        → TrialOutcome result motes pages seed initial (map N.device boards.new.items) }
{
    let mut reports = Vec::new(alloc);
    match world.finish(boards, &mut reports) {
        Ok(()) => Ok(Summary {
            motes,
            pages,
            sweeps: sweeps_of(motes, pages),
            events: count_events(&reports),
            whole: count_whole(&reports, pages) as u32,
        }),
        Err(FinishFault::Memory) => Err(End::Memory),
        Err(FinishFault::Flash { .. }) => Err(End::FlashFault),
    }
}

/// Plays a trial.
fn run<N: Nor>(
    alloc: Global,
    motes: u8,
    pages: u8,
    seed: u32,
    boards: &mut Vec<N>,
) -> Result<Summary, End>
    requires some { 2 ≤ motes }
    requires few { motes ≤ most_motes }
    requires some_pages { 2 ≤ pages }
    requires few_pages { pages ≤ 65 }
    requires boards { motes ≤ length boards.old.items }
    ensures { TrialOutcome result motes pages seed (map N.device boards.old.items) (map N.device boards.new.items) }
{
    let world = play_schedule(alloc, motes, pages, seed, boards)?;
    summarize(alloc, &world, motes, pages, boards)
}

/// Plays a trial, and makes the line that reports it.
fn play_and_tell<N: Nor>(
    alloc: Global,
    motes: u8,
    pages: u8,
    seed: u32,
    boards: &mut Vec<N>,
) -> Result<Vec<u8>, End>
    requires some { 2 ≤ motes }
    requires few { motes ≤ most_motes }
    requires some_pages { 2 ≤ pages }
    requires few_pages { pages ≤ 65 }
    ensures { TrialComesTo (text_outcome (λ text. text.items) result) motes pages seed (map N.device boards.old.items)
        (map N.device boards.new.items) }
{
    if boards.len() < usize::from(motes) {
        return Err(End::NoBoard {
            need: motes,
            have: boards.len() as u32,
        });
    }
    let summary = run(alloc, motes, pages, seed, boards)?;
    line_of_summary(alloc, &summary)
}

/// Plays the schedule that a seed makes over the boards of this many motes, with an image of this many pages, and writes one
/// line.
pub fn trial<K: Sink, N: Nor>(
    alloc: Global,
    motes: u8,
    pages: u8,
    seed: u32,
    out: &mut K,
    boards: &mut Vec<N>,
) -> Status
    requires some { 2 ≤ motes }
    requires few { motes ≤ most_motes }
    requires some_pages { 2 ≤ pages }
    requires few_pages { pages ≤ 65 }
    // The boards' stores are those at the end of a run of the schedule, every mote keeps the image whole, page by page, and the
    // line has the counts of that run. Each other status comes with its cause and with what it leaves.
    ensures ends { (rest : Outside) → TrialDone motes pages seed result
        (with_boards (map N.device boards.old.items) (with_output (K.Sink, out.old) rest))
        (with_boards (map N.device boards.new.items) (with_output (K.Sink, out.new) rest)) }
    // if it is played and reported, the line says that every mote keeps the image whole, and its number of events is the one for
    // this many motes and pages
    ensures whole { result ≡ Status.Done → TellsWhole motes pages (K.written out.old) (K.written out.new) }
    // only a write that failed raises the count of failed writes
    ensures cause { result ≡ Status.WriteFault → Rose (K.faults out.old) (K.faults out.new) }
    ensures unfailed { result ≢ Status.WriteFault → K.faults out.new ≡ K.faults out.old }
    ensures writes { K.faults out.old ≤ K.faults out.new }
{
    trials_end_whole();
    let outcome = play_and_tell(alloc, motes, pages, seed, boards);
    answer(alloc, out, outcome)
}
