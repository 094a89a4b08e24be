//! The script of a trial: the schedule that `trial` plays, which a replay of the script plays too.
ghost use Rattle.std.specs.Prelude.{◌≡◌, ◌≤◌, ◌∷◌, ◌++◌, [], map, OnOk};
ghost use Rattle.std.specs.List.{AllByRecursion, flat_map};
ghost use Rattle.dg_base.specs.declared.events.Event.TheVariants.{Inject};
ghost use Rattle.dg_object.specs.Sizes.{fewest_pages, most_pages};
ghost use Rattle.dg_script.specs.Sizes.{most_motes};
ghost use Rattle.dg_trial.specs.Schedule.{resets};
ghost use Rattle.dg_rehearse.specs.Rehearsed.{step_lines, written_lines};
ghost use Rattle.dg_rehearse.specs.TrialScripts.{CanBeWritten, TrialWriteEnds, head_of_trial, link_lines, event_lines, stop_by};

use crate::beginning::golden_line;
use crate::stop::Stop;
use dg_base::{Bytes, Event, Step};
use dg_end::End;
use dg_lines::write_line;
use dg_nor::Nor;
use dg_script::Line;
use dg_trial::{TrialRecord, record_trial};
use std::alloc::{AllocError, Global};

/// Answers the script of a trial of this many motes, with an image of this many pages. The trial is played up to its last
/// disturbance, over chips that are formatted first.
pub fn write_trial<N: Nor>(
    alloc: Global,
    motes: u8,
    pages: u8,
    seed: u32,
    boards: &mut Vec<N>,
) -> Result<Vec<u8>, Stop>
    requires some { 2 ≤ motes }
    requires few { motes ≤ most_motes }
    requires some_pages { fewest_pages ≤ pages }
    requires few_pages { pages ≤ most_pages }
    // The script has the steps of the trial in their order: wherever the trial leads from its last disturbance, the script does.
    // Each other answer comes with its cause, and what it leaves.
    ensures { TrialWriteEnds result motes pages seed (map N.device boards.old.items) (map N.device boards.new.items) }
{
    let TrialRecord {
        links,
        content,
        disturbances,
        sweeps,
    } = match record_trial(alloc, motes, pages, seed, boards) {
        Ok(record) => record,
        Err(end) => return Err(stop_of(end)),
    };
    let mut lines = Vec::new(alloc);
    push_head(alloc, motes, &links, content, &mut lines)?;
    push_opening(motes, &mut lines)?;
    push_steps(disturbances, &mut lines)?;
    push_resets(motes, &mut lines)?;
    push_line(Line::Sweeps(sweeps), &mut lines)?;
    let mut script = Vec::new(alloc);
    write_lines(&lines, &mut script)?;
    Ok(script)
}

/// Why there is no script of a trial that could not be recorded.
fn stop_of(end: End) -> Stop
    ensures { result ≡ stop_by end }
{
    match end {
        End::FlashFault => Stop::Flash,
        End::NoBoard { .. } => Stop::NoBoard,
        _ => Stop::Memory,
    }
}

/// Appends the lines before the first event.
fn push_head(
    alloc: Global,
    motes: u8,
    links: &[(u8, u8)],
    content: Bytes,
    lines: &mut Vec<Line>,
) -> Result<(), AllocError>
    ensures { OnOk result (lines.new.items ≡ lines.old.items ++ head_of_trial motes links.now content) }
{
    lines.push(Line::Motes(motes))?;
    let golden = golden_line(alloc)?;
    lines.push(golden)?;
    push_links(links, lines)?;
    let name = Bytes::new(Vec::from_slice(alloc, b"trial")?);
    lines.push(Line::Image {
        image: 1,
        version: 1,
        name,
        content,
    })?;
    Ok(())
}

/// Appends the lines of links.
fn push_links(links: &[(u8, u8)], lines: &mut Vec<Line>) -> Result<(), AllocError>
    ensures { OnOk result (lines.new.items ≡ lines.old.items ++ link_lines links.now) }
{
    for link in links {
        lines.push(Line::Link(link.0, link.1))?;
    }
    Ok(())
}

/// Appends the lines of the events that start each mote and inject the image.
fn push_opening(motes: u8, lines: &mut Vec<Line>) -> Result<(), AllocError>
    ensures { OnOk result (lines.new.items ≡ lines.old.items ++ event_lines (resets motes ++ Inject 0 1 1 0 0 ∷ [])) }
{
    push_resets(motes, lines)?;
    lines.push(Line::Happens(Event::Inject {
        mote: 0,
        image: 1,
        version: 1,
        dt: 0,
        word: 0,
    }))?;
    Ok(())
}

/// Appends a reset of each mote, in their order.
fn push_resets(motes: u8, lines: &mut Vec<Line>) -> Result<(), AllocError>
    ensures { OnOk result (lines.new.items ≡ lines.old.items ++ event_lines (resets motes)) }
{
    for mote in 0..motes {
        lines.push(Line::Happens(Event::Reset {
            mote,
            dt: 0,
            word: 0,
        }))?;
    }
    Ok(())
}

/// Appends a line.
fn push_line(line: Line, lines: &mut Vec<Line>) -> Result<(), AllocError>
    ensures { OnOk result (lines.new.items ≡ lines.old.items ++ line ∷ []) }
{
    lines.push(line)?;
    Ok(())
}

/// Appends the lines of steps.
fn push_steps(steps: Vec<Step>, lines: &mut Vec<Line>) -> Result<(), AllocError>
    ensures { OnOk result (lines.new.items ≡ lines.old.items ++ flat_map step_lines steps.items) }
{
    for step in steps {
        push_step(step, lines)?;
    }
    Ok(())
}

/// Appends the lines of a step: its cut, if it has one, and its event.
fn push_step(step: Step, lines: &mut Vec<Line>) -> Result<(), AllocError>
    ensures { OnOk result (lines.new.items ≡ lines.old.items ++ step_lines step) }
{
    let Step { event, cut } = step;
    if let Some(cut) = cut {
        lines.push(Line::Cut(cut))?;
    }
    lines.push(Line::Happens(event))?;
    Ok(())
}

/// Writes lines, one after the other.
fn write_lines(lines: &[Line], script: &mut Vec<u8>) -> Result<(), AllocError>
    requires { AllByRecursion CanBeWritten lines.now }
    ensures { OnOk result (script.new.items ≡ script.old.items ++ written_lines lines.now) }
{
    for line in lines {
        write_line(line, script)?;
    }
    Ok(())
}
