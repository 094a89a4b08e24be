//! The steps of a world.
ghost use Rattle.std.specs.Prelude.{◌≡◌, Option, map, length, option_copied};
ghost use Rattle.dg_rules.specs.World.{World as RuleWorld};
ghost use Rattle.dg_script.specs.Ranges.{StepInRange};
ghost use Rattle.dg_world.specs.Worlds.{IsWorld};
ghost use Rattle.dg_world.specs.Applying.{step_of, ApplyDone};
ghost use Rattle.dg_world.specs.inner.Outcomes.{fault_of, halt_of};
ghost use Rattle.dg_world.specs.Deployments.{deployed};
ghost use Rattle.dg_node.specs.declared.report.ChipReport.{ChipReport};

use crate::known_boards::{has, is_watched, known_after, note};
use crate::outcome::Fault;
use crate::stepping::{MOST_LINES, step_at};
use crate::world::{World, WorldFault};
use dg_base::Step;
use dg_nor::Nor;
use dg_rules::{Cut, Event, Report, agreement_is_kept, consistency_is_kept};
use dg_script::MOST_EVENTS;
use dg_shared::{EventContext, dt_at, kind_of, makes_known, mote_at};

impl World {
    /// One step: an event, and the cut that waits for it, if there is one. What is reported of it is appended, its `sent` line
    /// only where `loud` is true.
    pub fn apply<N: Nor>(
        &mut self,
        boards: &mut Vec<N>,
        step: &Step,
        loud: bool,
        out: &mut Vec<Report>,
    ) -> Result<(), WorldFault>
        requires world { (w : RuleWorld) × IsWorld self.old (map N.device boards.old.items) w
            × StepInRange (length w.sites) step.now }
        ensures { ApplyDone result step.now loud (deployed self.old (map N.device boards.old.items) out.old.items)
            (deployed self.new (map N.device boards.new.items) out.new.items) }
    {
        self.apply_parts(boards, &step.event, step.cut.as_ref(), loud, out)
    }

    /// The same, with the event and its cut as separate arguments.
    #[inline(always)]
    pub fn apply_parts<N: Nor>(
        &mut self,
        boards: &mut Vec<N>,
        event: &Event,
        cut: Option<&Cut>,
        loud: bool,
        out: &mut Vec<Report>,
    ) -> Result<(), WorldFault>
        requires world { (w : RuleWorld) × IsWorld self.old (map N.device boards.old.items) w
            × StepInRange (length w.sites) (step_of event.now (option_copied cut)) }
        ensures { ApplyDone result (step_of event.now (option_copied cut.entry)) loud
            (deployed self.old (map N.device boards.old.items) out.old.items)
            (deployed self.new (map N.device boards.new.items) out.new.items) }
    {
        consistency_is_kept();
        agreement_is_kept();
        let kind = kind_of(event);
        if self.events >= MOST_EVENTS {
            return Err(WorldFault::TooMany);
        }
        if self.shared.air.reserve().is_err() {
            return Err(WorldFault::Memory);
        }
        if out.reserve(MOST_LINES).is_err() {
            return Err(WorldFault::Memory);
        }
        self.outcome.clear();
        let mote = mote_at(kind, event);
        let index = usize::from(mote);
        let moment = self.moment + u64::from(dt_at(kind, event));
        let runs = &mut self.motes[index];
        let board = &mut boards[index];
        let known = has(&self.known, mote);
        let makes = makes_known(&self.shared, mote, kind, event);
        let context = EventContext {
            shared: &self.shared,
            kind,
            mote,
            moment,
            known,
            reported: loud,
        };
        match step_at(&context, runs, event, cut, board, &mut self.outcome, out) {
            Ok(()) => {
                self.moment = moment;
                self.events += 1;
                self.shared.air.send(mote, &self.outcome.outbox);
                let orderly = known_after(runs, self.outcome.orderly, is_watched(known, makes));
                note(&mut self.known, mote, orderly);
                Ok(())
            }
            Err(fault) => Err(fault_at(fault, mote)),
        }
    }
}

/// Why an event was not applied at this mote.
fn fault_at(fault: Fault, mote: u8) -> WorldFault
    ensures { (before : Option ChipReport) → result ≡ fault_of (halt_of fault before) mote }
{
    match fault {
        Fault::Stopped => WorldFault::Flash { board: mote },
        Fault::NotAVolume => WorldFault::NotAVolume,
        Fault::NoImage => WorldFault::NoImage,
    }
}
