//! Plays the parts of a schedule.
ghost use Rattle.std.specs.Prelude.{◌≡◌, ◌+◌, ◌*◌, ◌<◌, ◌≤◌, ◌∷◌, ◌++◌, [], ℕ, map, length, OnOk};
ghost use Rattle.dg_rounds.specs.Rounds.{times, sweep};
ghost use Rattle.dg_seed.specs.Draws.{generator_of};
ghost use Rattle.dg_trial.specs.Schedule.{SchedulePart, always, only, resets, opening, disturbances, drawn};
ghost use Rattle.dg_trial.specs.Playing.{PartsPlay, PartsRecorded, OpenedAndRecorded, AddsSteps, MayPlayOver};
ghost use Rattle.dg_rules.specs.Sizes.{most_motes};
ghost use Rattle.dg_rules.specs.World.{World as RuleWorld};
ghost use Rattle.dg_world.specs.Worlds.{IsWorld};

use crate::disturbing::disturbance;
use crate::laws::what_is_left_may_be_played;
use dg_base::{Event, Step};
use dg_end::End;
use dg_nor::Nor;
use dg_rounds::sweep;
use dg_rules::{Report, golden_is_found};
use dg_seed::Draws;
use dg_world::{World, WorldFault};
use std::alloc::{AllocError, Global};

/// The disturbances of each mote.
const DISTURBANCES: u32 = 100;

/// Plays a step. What is reported of it is dropped.
fn play_step<N: Nor>(
    world: &mut World,
    step: &Step,
    boards: &mut Vec<N>,
    reports: &mut Vec<Report>,
) -> Result<(), End>
    requires { (motes : ℕ) × MayPlayOver motes world.old (map N.device boards.old.items) (only step.now) }
    // it may be the step of any part that is this one after this many frames
    ensures { (part : SchedulePart)
        → ((w : RuleWorld) → IsWorld world.old (map N.device boards.old.items) w
        → part (length w.sent) ≡ step.now)
        → PartsPlay result (part ∷ []) world.old world.new (map N.device boards.old.items) (map N.device boards.new.items) }
{
    golden_is_found();
    reports.clear();
    match world.apply(boards, step, false, reports) {
        Ok(()) => Ok(()),
        Err(WorldFault::Memory) => Err(End::Memory),
        Err(WorldFault::Flash { .. }) => Err(End::FlashFault),
        Err(WorldFault::TooMany) => Err(End::TooMany),
        Err(WorldFault::NotAVolume) => Err(End::NotAVolume),
        Err(WorldFault::NoImage) => Err(End::NoImage),
    }
}

/// Plays a step, and records it.
fn record_step<N: Nor>(
    world: &mut World,
    step: Step,
    boards: &mut Vec<N>,
    reports: &mut Vec<Report>,
    steps: &mut Vec<Step>,
) -> Result<(), End>
    requires { (motes : ℕ) × MayPlayOver motes world.old (map N.device boards.old.items) (only step) }
    ensures played { (part : SchedulePart)
        → ((w : RuleWorld) → IsWorld world.old (map N.device boards.old.items) w → part (length w.sent) ≡ step)
        → PartsPlay result (part ∷ []) world.old world.new (map N.device boards.old.items) (map N.device boards.new.items) }
    ensures recorded { OnOk result (steps.new.items ≡ steps.old.items ++ step ∷ []) }
{
    play_step(world, &step, boards, reports)?;
    push_step(steps, step)?;
    Ok(())
}

/// Adds a step to a record.
fn push_step(steps: &mut Vec<Step>, step: Step) -> Result<(), AllocError>
    ensures { OnOk result (steps.new.items ≡ steps.old.items ++ step ∷ []) }
{
    steps.push(step)?;
    Ok(())
}

/// Plays an event whose power is not cut.
fn play_event<N: Nor>(
    world: &mut World,
    event: Event,
    boards: &mut Vec<N>,
    reports: &mut Vec<Report>,
) -> Result<(), End>
    requires { (motes : ℕ) × MayPlayOver motes world.old (map N.device boards.old.items) (always event ∷ []) }
    ensures { PartsPlay result (always event ∷ []) world.old world.new (map N.device boards.old.items)
        (map N.device boards.new.items) }
{
    let step = Step { event, cut: None };
    play_step(world, &step, boards, reports)
}

/// Resets each mote, in their order.
fn play_resets<N: Nor>(
    world: &mut World,
    motes: u8,
    boards: &mut Vec<N>,
    reports: &mut Vec<Report>,
) -> Result<(), End>
    requires { MayPlayOver motes world.old (map N.device boards.old.items) (map always (resets motes)) }
    ensures { PartsPlay result (map always (resets motes)) world.old world.new (map N.device boards.old.items)
        (map N.device boards.new.items) }
{
    what_is_left_may_be_played();
    for mote in 0..motes {
        let event = Event::Reset {
            mote,
            dt: 0,
            word: 0,
        };
        play_event(world, event, boards, reports)?;
    }
    Ok(())
}

/// Injects the image into the first mote.
fn play_injection<N: Nor>(
    world: &mut World,
    boards: &mut Vec<N>,
    reports: &mut Vec<Report>,
) -> Result<(), End>
    requires { (motes : ℕ) × MayPlayOver motes world.old (map N.device boards.old.items) (always (Event.Inject 0 1 1 0 0) ∷ []) }
    ensures { PartsPlay result (always (Event.Inject 0 1 1 0 0) ∷ []) world.old world.new (map N.device boards.old.items)
        (map N.device boards.new.items) }
{
    let event = Event::Inject {
        mote: 0,
        image: 1,
        version: 1,
        dt: 0,
        word: 0,
    };
    play_event(world, event, boards, reports)
}

/// Plays the disturbance that the next three draws choose, and records it.
fn play_disturbance<N: Nor>(
    alloc: Global,
    world: &mut World,
    motes: u8,
    draws: &mut Draws,
    boards: &mut Vec<N>,
    reports: &mut Vec<Report>,
    steps: &mut Vec<Step>,
) -> Result<(), End>
    requires may { MayPlayOver motes world.old (map N.device boards.old.items) (disturbances motes 1 (generator_of draws.old)) }
    requires some { 2 ≤ motes }
    requires few { motes ≤ most_motes }
    ensures played { PartsPlay result (disturbances motes 1 (generator_of draws.old)) world.old world.new
        (map N.device boards.old.items) (map N.device boards.new.items) }
    ensures recorded { OnOk result (AddsSteps steps.old.items steps.new.items
        (λ more. PartsRecorded motes (disturbances motes 1 (generator_of draws.old)) more world.old world.new
        (map N.device boards.old.items) (map N.device boards.new.items))) }
    ensures drawn { generator_of draws.new ≡ drawn 1 (generator_of draws.old) }
{
    let first = draws.next();
    let second = draws.next();
    let third = draws.next();
    let sent = world.frames_sent();
    match disturbance(alloc, motes, sent, first, second, third) {
        Ok(step) => record_step(world, step, boards, reports, steps),
        Err(AllocError) => Err(End::Memory),
    }
}

/// Plays the disturbances of a seed, and records them.
fn play_disturbances<N: Nor>(
    alloc: Global,
    world: &mut World,
    motes: u8,
    draws: &mut Draws,
    boards: &mut Vec<N>,
    reports: &mut Vec<Report>,
    steps: &mut Vec<Step>,
) -> Result<(), End>
    requires may { MayPlayOver motes world.old (map N.device boards.old.items)
        (disturbances motes (100 * motes) (generator_of draws.old)) }
    requires some { 2 ≤ motes }
    requires few { motes ≤ most_motes }
    ensures played { PartsPlay result (disturbances motes (100 * motes) (generator_of draws.old)) world.old world.new
        (map N.device boards.old.items) (map N.device boards.new.items) }
    ensures recorded { OnOk result (AddsSteps steps.old.items steps.new.items
        (λ more. PartsRecorded motes (disturbances motes (100 * motes) (generator_of draws.old)) more world.old world.new
        (map N.device boards.old.items) (map N.device boards.new.items))) }
{
    what_is_left_may_be_played();
    for _ in 0..DISTURBANCES * u32::from(motes) {
        play_disturbance(alloc, world, motes, draws, boards, reports, steps)?;
    }
    Ok(())
}

/// Plays a schedule up to its last disturbance: starts each mote, injects the image, and plays the disturbances, which are
/// recorded.
pub fn play_disturbed<N: Nor>(
    alloc: Global,
    world: &mut World,
    motes: u8,
    draws: &mut Draws,
    boards: &mut Vec<N>,
    reports: &mut Vec<Report>,
    steps: &mut Vec<Step>,
) -> Result<(), End>
    requires may { MayPlayOver motes world.old (map N.device boards.old.items)
        (opening motes ++ disturbances motes (100 * motes) (generator_of draws.old)) }
    requires some { 2 ≤ motes }
    requires few { motes ≤ most_motes }
    ensures played { PartsPlay result (opening motes ++ disturbances motes (100 * motes) (generator_of draws.old)) world.old
        world.new (map N.device boards.old.items) (map N.device boards.new.items) }
    ensures recorded { OnOk result (AddsSteps steps.old.items steps.new.items
        (λ more. OpenedAndRecorded motes (disturbances motes (100 * motes) (generator_of draws.old)) more world.old world.new
        (map N.device boards.old.items) (map N.device boards.new.items))) }
{
    what_is_left_may_be_played();
    play_resets(world, motes, boards, reports)?;
    play_injection(world, boards, reports)?;
    play_disturbances(alloc, world, motes, draws, boards, reports, steps)?;
    Ok(())
}

/// Plays a sweep.
fn play_sweep<N: Nor>(
    world: &mut World,
    links: &[(u8, u8)],
    boards: &mut Vec<N>,
    reports: &mut Vec<Report>,
) -> Result<(), End>
    requires { (motes : ℕ) × MayPlayOver motes world.old (map N.device boards.old.items) (map always (sweep links.now)) }
    ensures { PartsPlay result (map always (sweep links.now)) world.old world.new (map N.device boards.old.items)
        (map N.device boards.new.items) }
{
    what_is_left_may_be_played();
    for event in sweep(links) {
        play_event(world, event, boards, reports)?;
    }
    Ok(())
}

/// Plays this many sweeps.
fn play_sweeps<N: Nor>(
    world: &mut World,
    links: &[(u8, u8)],
    sweeps: u32,
    boards: &mut Vec<N>,
    reports: &mut Vec<Report>,
) -> Result<(), End>
    requires { (motes : ℕ) × MayPlayOver motes world.old (map N.device boards.old.items)
        (map always (times sweeps (sweep links.now))) }
    ensures { PartsPlay result (map always (times sweeps (sweep links.now))) world.old world.new
        (map N.device boards.old.items) (map N.device boards.new.items) }
{
    what_is_left_may_be_played();
    for _ in 0..sweeps {
        play_sweep(world, links, boards, reports)?;
    }
    Ok(())
}

/// Plays a schedule over a line of motes.
pub fn play<N: Nor>(
    alloc: Global,
    world: &mut World,
    motes: u8,
    links: &[(u8, u8)],
    sweeps: u32,
    draws: &mut Draws,
    boards: &mut Vec<N>,
) -> Result<(), End>
    requires may { MayPlayOver motes world.old (map N.device boards.old.items)
        (opening motes ++ (disturbances motes (100 * motes) (generator_of draws.old)
        ++ map always (resets motes ++ times sweeps (sweep links.now)))) }
    requires some { 2 ≤ motes }
    requires few { motes ≤ most_motes }
    ensures { PartsPlay result (opening motes ++ (disturbances motes (100 * motes) (generator_of draws.old)
        ++ map always (resets motes ++ times sweeps (sweep links.now)))) world.old world.new (map N.device boards.old.items)
        (map N.device boards.new.items) }
{
    what_is_left_may_be_played();
    let mut reports = Vec::new(alloc);
    let mut steps = Vec::new(alloc);
    play_disturbed(alloc, world, motes, draws, boards, &mut reports, &mut steps)?;
    play_resets(world, motes, boards, &mut reports)?;
    play_sweeps(world, links, sweeps, boards, &mut reports)?;
    Ok(())
}
