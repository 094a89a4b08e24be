//! What is drawn of lines, each at its place on the axis.
ghost use Rattle.std.specs.Prelude.{◌≡◌, ◌++◌, ◌∷◌, [], if◌then◌else◌, OnOk};
ghost use Rattle.dg_story.specs.Lines.{is_told, place_by};

use crate::lines::{Line, Stamp};
use dg_script::Report;
use std::alloc::{AllocError, Global};

/// What is reported at a place of the axis.
#[derive(Clone, Copy, Debug, PartialEq, Eq)]
pub struct Told {
    /// A moment in milliseconds, or else the number of a line, from 1 on.
    pub place: u64,
    /// What is reported.
    pub report: Report,
}

/// What is drawn of the lines of a report.
#[derive(Drop)]
pub struct Story {
    /// What they say, in their order.
    pub told: Vec<Told>,
    /// The last place of all lines.
    pub last: u64,
    /// How many lines there were.
    pub count: usize,
}

impl Story {
    ghost use Rattle.std.specs.Prelude.{◌≡◌, ◌<◌, ◌+◌, ◌++◌, ◌∷◌, [], List, OnOk};
    ghost use Rattle.dg_story.specs.Lines.{Tells};
    ghost use Rattle.dg_story.specs.declared.lines.Line.{Line};

    /// Before the first line.
    pub fn new(alloc: Global) -> Story
        ensures { Tells result.told.items result.last result.count [] }
    {
        Story {
            told: Vec::new(alloc),
            last: 0,
            count: 0,
        }
    }

    /// Keeps what the next line says.
    pub fn tell(&mut self, line: Line) -> Result<(), AllocError>
        requires { self.old.count < 1000000 }
        ensures { OnOk result ((lines : List Line) → Tells self.old.told.items self.old.last self.old.count lines
            → Tells self.new.told.items self.new.last self.new.count (lines ++ line ∷ [])) }
    {
        let place = place_of(self.count as u64 + 1, line.stamp);
        let report = line.report;
        keep_told(&mut self.told, Told { place, report })?;
        self.last = self.last.max(place);
        self.count += 1;
        Ok(())
    }
}

// Whether a line says something that is drawn.
fn is_told(report: &Report) -> bool
    ensures { result ≡ is_told report.now }
{
    match *report {
        Report::Order { .. } => true,
        Report::Lost { .. } => true,
        Report::Have { .. } => true,
        Report::Start { .. } => true,
        Report::Off { .. } => true,
        Report::MoteOn { .. } => true,
        Report::MoteOff { .. } => true,
        Report::Kept { .. } => true,
        _ => false,
    }
}

// The place of a line with this number.
fn place_of(number: u64, stamp: Option<Stamp>) -> u64
    ensures { result ≡ place_by number stamp }
{
    match stamp {
        None => number,
        Some(stamp) => stamp.ms,
    }
}

// Keeps what is reported, if it is drawn.
fn keep_told(told: &mut Vec<Told>, here: Told) -> Result<(), AllocError>
    ensures { OnOk result (told.new.items ≡ told.old.items ++ (if is_told here.report then here ∷ [] else [])) }
{
    if !is_told(&here.report) {
        return Ok(());
    }
    told.push(here)?;
    Ok(())
}
