//! What is noted in a schedule: draws, outcomes of events, and when motes have their turns.
ghost use Rattle.std.specs.Prelude.{◌≡◌, ◌<◌, List};
ghost use Rattle.dg_nor.specs.Device.{Device};
ghost use Rattle.dg_netcfg.specs.declared.profile.NetProfile.{NetProfile as Profile};
ghost use Rattle.dg_rules.specs.World.{World as RuleWorld};
ghost use Rattle.dg_rehearse.specs.Courses.{IsStagedWorld, agenda_of, next_turn, drawn_word, past_draw, noted_event, set_turn};
ghost use Rattle.dg_rehearse.specs.Rehearsed.{staging};
ghost use Rattle.dg_rehearse.specs.Turns.{not_until};

use crate::plan::Plan;
use crate::schedule::Schedule;
use crate::stage::{Stage, later};

/// How long a mote stays off after its start was cut, in milliseconds.
const OFF: u32 = 1_000;

impl Schedule {
    /// The next draw.
    pub(crate) fn draw(&mut self) -> u32
        ensures word { result ≡ drawn_word (agenda_of self.old) }
        ensures past { agenda_of self.new ≡ past_draw (agenda_of self.old) }
    {
        self.draws.next()
    }

    /// Notes the outcome of an event at a mote, and when the mote is due next.
    pub(crate) fn note(&mut self, mote: u8, plan: &Plan, stage: &Stage)
        ensures { (boards : List Device) (n : Profile) (w : RuleWorld) → IsStagedWorld n (staging stage.now boards) w
            → mote < n.motes → agenda_of self.new ≡ noted_event plan.now mote stage.now.reports.items w (agenda_of self.old) }
    {
        self.progress.note(plan, &stage.reports);
        let moment = turn_after(mote, stage);
        self.set_turn(mote, moment);
    }

    /// Keeps a mote from having a turn before this moment.
    pub(crate) fn rest(&mut self, mote: u8, moment: u64)
        ensures { agenda_of self.new ≡ not_until mote moment (agenda_of self.old) }
    {
        let due = match self.due.get(usize::from(mote)) {
            Some(due) => *due,
            None => 0,
        };
        self.set_turn(mote, due.max(moment));
    }

    /// Sets the moment from which on a mote has its turn.
    #[tactic(auto, using(std::proofs::lemmas::List::set_past))]
    fn set_turn(&mut self, mote: u8, moment: u64)
        ensures { agenda_of self.new ≡ set_turn mote moment (agenda_of self.old) }
    {
        let mote = usize::from(mote);
        if mote < self.due.len() {
            self.due[mote] = moment;
        }
    }
}

/// When a mote has its next turn: when something of it is due or, if it is off, when it powers on again.
fn turn_after(mote: u8, stage: &Stage) -> u64
    ensures { (boards : List Device) (n : Profile) (w : RuleWorld) → IsStagedWorld n (staging stage.now boards) w → mote < n.motes
        → result ≡ next_turn w mote }
{
    match stage.world.due(mote) {
        Some(due) => due,
        None => later(stage.moment, OFF),
    }
}
