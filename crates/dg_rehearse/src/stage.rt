//! A world over chips, and the script of its events so far.
ghost use Rattle.std.specs.Prelude.{◌≡◌, ◌≢◌, ◌≤◌, ◌+◌, ◌-◌, ◌^◌, ◌++◌, min, Bool, true, map, Ok, OnOk, IfOk, Some, length};
ghost use Rattle.dg_netcfg.specs.Readings.{IsAllowed};
ghost use Rattle.dg_script.specs.Fitting.{FitsCut, FitsEvent};
ghost use Rattle.dg_script.specs.Sizes.{most_motes};
ghost use Rattle.dg_script.specs.declared.line.Line.TheVariants.{Cut as CutLine, Happens as EventLine};
ghost use Rattle.dg_rules.specs.Events.{does, mote_of, dt_of};
ghost use Rattle.dg_world.specs.Alone.{uncut};
ghost use Rattle.dg_world.specs.declared.world.WorldFault.{WorldFault};
ghost use Rattle.dg_rules.specs.Changes.{final_lines};
ghost use Rattle.dg_rules.specs.World.{World as RuleWorld};
ghost use Rattle.dg_volume.specs.Store.{Store};
ghost use Rattle.dg_world.specs.Applying.{step_of};
ghost use Rattle.dg_world.specs.Worlds.{IsWorld};
ghost use Rattle.dg_rehearse.specs.Courses.{IsStagedWorld, IsStepMade, whole_outcome, cut_outcome};
ghost use Rattle.dg_rehearse.specs.Turns.{Begins, all_motes, tells_of};
ghost use Rattle.dg_rehearse.specs.Ended.{Ends};
ghost use Rattle.dg_rehearse.specs.Rehearsed.{IsPlanned, IsRehearsed, IsStaged, IsUnderWay, IsContinued, IsContinuedBy};
ghost use Rattle.dg_rehearse.specs.Rehearsed.{Makes, MoreEvents, IsFull};
ghost use Rattle.dg_rehearse.specs.Rehearsed.{SendsOnly, GoesAlong, staging, written};
ghost use Rattle.dg_rehearse.specs.declared.plan.Ending.{Ending};

use crate::beginning::{declare, format_chips, network_of, write_opening};
use crate::plan::Plan;
use crate::stop::Halt;
use crate::telling::all_have;
use dg_base::{Cut, Event};
use dg_lines::write_line;
use dg_netcfg::NetProfile;
use dg_nor::Nor;
use dg_script::{Line, Report};
use dg_world::{FinishFault, World, WorldFault};
use std::alloc::{AllocError, Global};

/// A world over chips, and the script of its events so far.
#[derive(Drop)]
pub(crate) struct Stage {
    pub(crate) world: World,
    pub(crate) script: Vec<u8>,
    /// The report lines of the last event.
    pub(crate) reports: Vec<Report>,
    /// The moment, in milliseconds.
    pub(crate) moment: u64,
}

/// Whether an event was played, or there were a million before it.
#[derive(Clone, Copy, Debug, PartialEq, Eq)]
pub(crate) enum Played {
    Done,
    TooMany,
}

impl Stage {
    /// Sets up the motes of a profile, all off, over chips formatted with golden, and declares the image.
    pub(crate) fn set<N: Nor>(
        alloc: Global,
        profile: &NetProfile,
        plan: &Plan,
        boards: &mut Vec<N>,
    ) -> Result<Stage, Halt>
        requires allowed { IsAllowed profile.now }
        requires planned { IsPlanned profile.now.motes plan.now }
        requires boards { profile.now.motes ≤ length boards.old.items }
        ensures staged { IfOk result (λ s. IsStaged profile.now plan.now (map N.device boards.old.items)
            (staging s (map N.device boards.new.items))) }
        ensures begins { IfOk result (λ s. Begins profile.now plan.now (staging s (map N.device boards.new.items))) }
    {
        format_chips(boards, profile.motes)?;
        let mut world = network_of(alloc, profile)?;
        declare(alloc, plan, &mut world)?;
        let mut script = Vec::new(alloc);
        write_opening(alloc, profile, plan, &mut script)?;
        Ok(Stage {
            world,
            script,
            reports: Vec::new(alloc),
            moment: 0,
        })
    }

    /// Plays an event, and writes its line.
    pub(crate) fn play<N: Nor>(
        &mut self,
        profile: &NetProfile,
        plan: &Plan,
        event: Event,
        boards: &mut Vec<N>,
    ) -> Result<Played, Halt>
        requires under_way { IsUnderWay profile.now plan.now (staging self.old (map N.device boards.old.items)) }
        requires fits { IsRehearsed profile.now.motes event }
        requires along { GoesAlong profile.now event (staging self.old (map N.device boards.old.items)) }
        ensures goes_on { OnOk result (IsContinued profile.now plan.now (staging self.old (map N.device boards.old.items))
            (staging self.new (map N.device boards.new.items))) }
        ensures makes { result ≡ Ok Played.Done → Makes (uncut event) profile.now plan.now
            (staging self.old (map N.device boards.old.items)) (staging self.new (map N.device boards.new.items)) }
        ensures steps { result ≡ Ok Played.Done → (w : RuleWorld)
            → IsStagedWorld profile.now (staging self.old (map N.device boards.old.items)) w
            → IsStepMade profile.now plan.now (uncut event) (staging self.old (map N.device boards.old.items))
            (staging self.new (map N.device boards.new.items)) self.new.reports.items (whole_outcome (does w event) w event) }
        ensures full { result ≡ Ok Played.TooMany → IsFull (staging self.new (map N.device boards.new.items)) }
        ensures sends { OnOk result (SendsOnly (mote_of event) (staging self.old (map N.device boards.old.items))
            (staging self.new (map N.device boards.new.items))) }
    {
        let dt = dt_at(&event);
        self.reports.clear();
        match self
            .world
            .apply_parts(boards, &event, None, false, &mut self.reports)
        {
            Ok(()) => {
                write_event(event, &mut self.script)?;
                self.moment = later(self.moment, dt);
                Ok(Played::Done)
            }
            Err(fault) => told(fault),
        }
    }

    /// Plays an event whose power is cut, and writes the lines of both.
    pub(crate) fn play_cut<N: Nor>(
        &mut self,
        profile: &NetProfile,
        plan: &Plan,
        cut: Cut,
        event: Event,
        boards: &mut Vec<N>,
    ) -> Result<Played, Halt>
        requires under_way { IsUnderWay profile.now plan.now (staging self.old (map N.device boards.old.items)) }
        requires cut { FitsCut cut }
        requires fits { IsRehearsed profile.now.motes event }
        requires along { GoesAlong profile.now event (staging self.old (map N.device boards.old.items)) }
        ensures goes_on { OnOk result (IsContinued profile.now plan.now (staging self.old (map N.device boards.old.items))
            (staging self.new (map N.device boards.new.items))) }
        ensures steps { result ≡ Ok Played.Done → (w : RuleWorld)
            → IsStagedWorld profile.now (staging self.old (map N.device boards.old.items)) w → (left : Store)
            × IsStepMade profile.now plan.now (step_of event (Some cut)) (staging self.old (map N.device boards.old.items))
            (staging self.new (map N.device boards.new.items)) self.new.reports.items
            (cut_outcome (does w event) w event cut left) }
        ensures events { result ≡ Ok Played.Done → MoreEvents (staging self.old (map N.device boards.old.items))
            (staging self.new (map N.device boards.new.items)) }
        ensures full { result ≡ Ok Played.TooMany → IsFull (staging self.new (map N.device boards.new.items)) }
    {
        let dt = dt_at(&event);
        self.reports.clear();
        match self
            .world
            .apply_parts(boards, &event, Some(&cut), false, &mut self.reports)
        {
            Ok(()) => {
                write_cut(cut, &mut self.script)?;
                write_event(event, &mut self.script)?;
                self.moment = later(self.moment, dt);
                Ok(Played::Done)
            }
            Err(fault) => told(fault),
        }
    }

    /// Whether every mote keeps the whole image and, if it was ordered, runs it: read from the chips and the motes.
    pub(crate) fn is_complete<N: Nor>(
        &mut self,
        profile: &NetProfile,
        plan: &Plan,
        boards: &mut Vec<N>,
    ) -> Result<bool, Halt>
        requires under_way { IsUnderWay profile.now plan.now (staging self.old (map N.device boards.old.items)) }
        ensures goes_on { OnOk result (IsContinued profile.now plan.now (staging self.old (map N.device boards.old.items))
            (staging self.new (map N.device boards.new.items))) }
        ensures script { self.new.script.items ≡ self.old.script.items }
        ensures moment { self.new.moment ≡ self.old.moment }
        ensures stands { (w : RuleWorld) → IsWorld self.old.world (map N.device boards.old.items) w
            → IsWorld self.new.world (map N.device boards.new.items) w }
        ensures value { (is : Bool) → result ≡ Ok is → (w : RuleWorld) → IsWorld self.old.world (map N.device boards.old.items) w
            → is ≡ all_motes (tells_of plan.now (final_lines w)) profile.now.motes }
        ensures complete { result ≡ Ok true
            → IsContinuedBy (λ more w. Ends Ending.Complete profile.now plan.now self.new.script.items w) profile.now plan.now
            (staging self.old (map N.device boards.old.items)) (staging self.new (map N.device boards.new.items)) }
    {
        self.reports.clear();
        match self.world.finish(boards, &mut self.reports) {
            Ok(()) => Ok(all_have(&self.reports, profile.motes, plan)),
            Err(FinishFault::Memory) => Err(Halt::Memory),
            Err(FinishFault::Flash { .. }) => Err(Halt::Flash),
        }
    }
}

/// The mote at which an event happens.
pub(crate) fn mote_at(event: &Event) -> u8
    ensures { result ≡ mote_of event.now }
{
    match event {
        Event::Tick { mote, .. }
        | Event::Hear { mote, .. }
        | Event::Frame { mote, .. }
        | Event::Reset { mote, .. }
        | Event::Inject { mote, .. }
        | Event::Order { mote, .. } => *mote,
        Event::Last { to, .. } => *to,
    }
}

/// How many milliseconds an event comes after the one before.
fn dt_at(event: &Event) -> u32
    ensures { result ≡ dt_of event.now }
{
    match event {
        Event::Tick { dt, .. }
        | Event::Hear { dt, .. }
        | Event::Last { dt, .. }
        | Event::Frame { dt, .. }
        | Event::Reset { dt, .. }
        | Event::Inject { dt, .. }
        | Event::Order { dt, .. } => *dt,
    }
}

/// The moment this many milliseconds later.
pub(crate) fn later(moment: u64, dt: u32) -> u64
    ensures { result ≡ min (moment + dt) (2 ^ 64 - 1) }
{
    moment.saturating_add(u64::from(dt))
}

/// Writes the line of a cut.
fn write_cut(cut: Cut, script: &mut Vec<u8>) -> Result<(), AllocError>
    requires { FitsCut cut }
    ensures { OnOk result (script.new.items ≡ script.old.items ++ written (CutLine cut)) }
{
    let line = Line::Cut(cut);
    write_line(&line, script)
}

/// Writes the line of an event.
fn write_event(event: Event, script: &mut Vec<u8>) -> Result<(), AllocError>
    requires { FitsEvent most_motes event }
    ensures { OnOk result (script.new.items ≡ script.old.items ++ written (EventLine event)) }
{
    let line = Line::Happens(event);
    write_line(&line, script)
}

/// How a fault of the world ends a rehearsal.
fn told(fault: WorldFault) -> Result<Played, Halt>
    ensures many { OnOk result (fault ≡ WorldFault.TooMany) }
    ensures undone { result ≢ Ok Played.Done }
{
    match fault {
        WorldFault::Memory => Err(Halt::Memory),
        WorldFault::TooMany => Ok(Played::TooMany),
        WorldFault::Flash { .. } | WorldFault::NotAVolume | WorldFault::NoImage => Err(Halt::Flash),
    }
}
