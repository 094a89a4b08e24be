//! The schedule: each mote is ticked when something of it is due, and each frame is heard by the neighbours that it reaches.
ghost use Rattle.std.specs.Prelude.{◌≡◌, ◌≢◌, ◌≤◌, ◌<◌, ℕ, Bool, true, map, List, length, slice_index_or};
ghost use Rattle.std.specs.Prelude.{Ok, OnOk, IfOk, Some, None};
ghost use Rattle.dg_nor.specs.Device.{Device};
ghost use Rattle.dg_netcfg.specs.declared.profile.NetProfile.{NetProfile as Profile};
ghost use Rattle.dg_rules.specs.Events.{mote_of};
ghost use Rattle.dg_rules.specs.World.{World as RuleWorld};
ghost use Rattle.dg_script.specs.Places.{is_linked};
ghost use Rattle.dg_world.specs.Alone.{uncut};
ghost use Rattle.dg_world.specs.Worlds.{IsWorld};
ghost use Rattle.dg_object.specs.Object.{pages_for};
ghost use Rattle.dg_rehearse.specs.Clocked.{PlaysOut, OnTurn, OnComing};
ghost use Rattle.dg_rehearse.specs.Courses.{Course, Moves, IsCourse, agenda_of, scene, last_moment};
ghost use Rattle.dg_rehearse.specs.Courses.{event_course};
ghost use Rattle.dg_rehearse.specs.Turns.{first_agenda, first_turn, not_before, coming_by, coming_now, earlier_of};
ghost use Rattle.dg_rehearse.specs.Turns.{is_cut_first, next_moment, within_time, opened_course, is_done};
ghost use Rattle.dg_rehearse.specs.Ended.{Ends, EndsNow, EndsBegun};
ghost use Rattle.dg_rehearse.specs.Rehearsed.{IsRehearsed, IsUnderWay, IsContinued, IsContinuedBy, Makes, MoreEvents};
ghost use Rattle.dg_rehearse.specs.Rehearsed.{IsFull, SendsOnly, SentBy, LastSentBy, GoesAlong, Staging, staging};
ghost use Rattle.dg_rehearse.specs.declared.plan.Ending.{Ending as End};
ghost use Rattle.dg_rehearse.specs.declared.schedule.Coming.{Coming};
ghost use Rattle.dg_rehearse.specs.declared.schedule.Next.{Next};

use crate::cutting::BETWEEN_CUTS;
use crate::plan::{Ending, Plan};
use crate::progress::Progress;
use crate::stage::{Played, Stage, mote_at};
use crate::stop::Halt;
use crate::turning::ending_of;
use dg_base::{Event, MOST_MOTES};
use dg_netcfg::NetProfile;
use dg_nor::Nor;
use dg_script::MOST_EVENTS;
use dg_seed::Draws;
use std::alloc::Global;

/// A script has at most 16,777,216 bytes, and a turn writes the lines of no more than sixteen events.
const MOST_SCRIPT: usize = dg_script::USED - 16 * 64;

/// Milliseconds of a minute.
const MINUTE: u64 = 60_000;

/// What is still to happen.
#[derive(Drop)]
pub(crate) struct Schedule {
    pub(crate) draws: Draws,
    pub(crate) progress: Progress,
    /// For each mote, the moment before which nothing of it is due, or at which it powers on again.
    pub(crate) due: [u64; MOST_MOTES as usize],
    /// Resets with a cut that are left, and the moment of the next.
    pub(crate) cuts: u32,
    pub(crate) next_cut: u64,
}

/// Whose turn is next, and when.
#[derive(Clone, Copy, Debug, PartialEq, Eq)]
pub(crate) struct Next {
    pub(crate) mote: u8,
    pub(crate) moment: u64,
}

/// What happens next: the end, a reset with a cut, or the turn of a mote.
#[derive(Clone, Copy)]
enum Coming {
    End(Ending),
    Cut { moment: u64 },
    Turn(Next),
}

impl Schedule {
    /// The schedule of a plan for this many motes and an image of this many pages.
    pub(crate) fn of(plan: &Plan, pages: u8) -> Schedule
        ensures { pages ≡ pages_for (length plan.now.content) → agenda_of result ≡ first_agenda plan.now }
    {
        let mut draws = Draws::of_seed(plan.seed);
        let next_cut = u64::from(draws.next() % BETWEEN_CUTS);
        Schedule {
            draws,
            progress: Progress::none(pages),
            due: [0; MOST_MOTES as usize],
            cuts: plan.cuts,
            next_cut,
        }
    }

    /// Plays the whole schedule.
    pub(crate) fn play<N: Nor>(
        &mut self,
        alloc: Global,
        profile: &NetProfile,
        plan: &Plan,
        stage: &mut Stage,
        boards: &mut Vec<N>,
    ) -> Result<Ending, Halt>
        requires under_way { IsUnderWay profile.now plan.now (staging stage.old (map N.device boards.old.items)) }
        requires some { 1 ≤ profile.now.motes }
        ensures goes_on { OnOk result (IsContinued profile.now plan.now (staging stage.old (map N.device boards.old.items))
            (staging stage.new (map N.device boards.new.items))) }
        ensures by_clock { (e : End) → result ≡ Ok e → e ≢ End.TooMany → (c : Course)
            → IsCourse profile.now plan.now (scene self.old stage.old (map N.device boards.old.items)) c
            → PlaysOut profile.now plan.now (opened_course profile.now plan.now c) e
            (scene self.new stage.new (map N.device boards.new.items)) }
        ensures ends { (e : End) → result ≡ Ok e
            → IsContinuedBy (EndsBegun e profile.now plan.now stage.new.script.items) profile.now plan.now
            (staging stage.old (map N.device boards.old.items)) (staging stage.new (map N.device boards.new.items)) }
    {
        match self.open(profile, plan, stage, boards)? {
            Played::Done => self.play_turns(alloc, profile, plan, stage, boards),
            Played::TooMany => Ok(Ending::TooMany),
        }
    }

    /// Plays turn after turn, until the rehearsal ends.
    fn play_turns<N: Nor>(
        &mut self,
        alloc: Global,
        profile: &NetProfile,
        plan: &Plan,
        stage: &mut Stage,
        boards: &mut Vec<N>,
    ) -> Result<Ending, Halt>
        requires under_way { IsUnderWay profile.now plan.now (staging stage.old (map N.device boards.old.items)) }
        requires some { 1 ≤ profile.now.motes }
        ensures goes_on { OnOk result (IsContinued profile.now plan.now (staging stage.old (map N.device boards.old.items))
            (staging stage.new (map N.device boards.new.items))) }
        ensures by_clock { (e : End) → result ≡ Ok e → e ≢ End.TooMany → (c : Course)
            → IsCourse profile.now plan.now (scene self.old stage.old (map N.device boards.old.items)) c
            → PlaysOut profile.now plan.now c e (scene self.new stage.new (map N.device boards.new.items)) }
        ensures ends { (e : End) → result ≡ Ok e
            → IsContinuedBy (λ more w. Ends e profile.now plan.now stage.new.script.items w) profile.now plan.now
            (staging stage.old (map N.device boards.old.items)) (staging stage.new (map N.device boards.new.items)) }
    {
        for _ in 0..MOST_EVENTS {
            if let Some(ending) = self.play_next(alloc, profile, plan, stage, boards)? {
                return Ok(ending);
            }
        }
        Ok(Ending::TooMany)
    }

    /// Plays what is next, or answers how the rehearsal ended.
    fn play_next<N: Nor>(
        &mut self,
        alloc: Global,
        profile: &NetProfile,
        plan: &Plan,
        stage: &mut Stage,
        boards: &mut Vec<N>,
    ) -> Result<Option<Ending>, Halt>
        requires under_way { IsUnderWay profile.now plan.now (staging stage.old (map N.device boards.old.items)) }
        requires some { 1 ≤ profile.now.motes }
        ensures goes_on { OnOk result (IsContinued profile.now plan.now (staging stage.old (map N.device boards.old.items))
            (staging stage.new (map N.device boards.new.items))) }
        ensures by_clock { IfOk result (λ o. OnTurn o profile.now plan.now
            (scene self.old stage.old (map N.device boards.old.items))
            (scene self.new stage.new (map N.device boards.new.items))) }
        ensures ends { (e : End) → result ≡ Ok (Some e)
            → IsContinuedBy (λ more w. Ends e profile.now plan.now stage.new.script.items w) profile.now plan.now
            (staging stage.old (map N.device boards.old.items)) (staging stage.new (map N.device boards.new.items)) }
        ensures events { result ≡ Ok None → MoreEvents
            (staging stage.old (map N.device boards.old.items)) (staging stage.new (map N.device boards.new.items)) }
    {
        if self.is_complete(profile, plan, stage, boards)? {
            return Ok(Some(Ending::Complete));
        }
        self.play_coming(alloc, profile, plan, stage, boards)
    }

    /// Whether every mote has the image, or runs it. The chips are read only if the reports say so.
    #[tactic(auto, using(crate::proofs::PlayLemmas::goes_nowhere))]
    fn is_complete<N: Nor>(
        &self,
        profile: &NetProfile,
        plan: &Plan,
        stage: &mut Stage,
        boards: &mut Vec<N>,
    ) -> Result<bool, Halt>
        requires under_way { IsUnderWay profile.now plan.now (staging stage.old (map N.device boards.old.items)) }
        ensures goes_on { OnOk result (IsContinued profile.now plan.now (staging stage.old (map N.device boards.old.items))
            (staging stage.new (map N.device boards.new.items))) }
        ensures moves { Moves (λ c. c) profile.now plan.now (scene self.now stage.old (map N.device boards.old.items))
            (scene self.now stage.new (map N.device boards.new.items)) }
        ensures value { (is : Bool) → result ≡ Ok is → (c : Course)
            → IsCourse profile.now plan.now (scene self.now stage.old (map N.device boards.old.items)) c
            → is ≡ is_done profile.now plan.now c }
        ensures complete { result ≡ Ok true
            → IsContinuedBy (λ more w. Ends End.Complete profile.now plan.now stage.new.script.items w) profile.now plan.now
            (staging stage.old (map N.device boards.old.items)) (staging stage.new (map N.device boards.new.items)) }
    {
        if !self.progress.is_complete(plan, profile.motes) {
            return Ok(false);
        }
        stage.is_complete(profile, plan, boards)
    }

    /// Plays what is next, if the rehearsal is not complete.
    #[tactic(auto, using(crate::proofs::PlayLemmas::goes_nowhere))]
    fn play_coming<N: Nor>(
        &mut self,
        alloc: Global,
        profile: &NetProfile,
        plan: &Plan,
        stage: &mut Stage,
        boards: &mut Vec<N>,
    ) -> Result<Option<Ending>, Halt>
        requires under_way { IsUnderWay profile.now plan.now (staging stage.old (map N.device boards.old.items)) }
        requires some { 1 ≤ profile.now.motes }
        ensures goes_on { OnOk result (IsContinued profile.now plan.now (staging stage.old (map N.device boards.old.items))
            (staging stage.new (map N.device boards.new.items))) }
        ensures by_clock { IfOk result (λ o. OnComing o profile.now plan.now
            (scene self.old stage.old (map N.device boards.old.items))
            (scene self.new stage.new (map N.device boards.new.items))) }
        ensures ends { (e : End) → result ≡ Ok (Some e)
            → IsContinuedBy (λ more w. Ends e profile.now plan.now stage.new.script.items w) profile.now plan.now
            (staging stage.old (map N.device boards.old.items)) (staging stage.new (map N.device boards.new.items)) }
        ensures events { result ≡ Ok None → MoreEvents
            (staging stage.old (map N.device boards.old.items)) (staging stage.new (map N.device boards.new.items)) }
    {
        match self.coming(profile.motes, plan, stage) {
            Coming::End(ending) => Ok(Some(ending)),
            Coming::Cut { moment } => {
                let played = self.cut(alloc, moment, profile, plan, stage, boards)?;
                Ok(ending_of(played))
            }
            Coming::Turn(next) => {
                let played = self.turn(next, profile, plan, stage, boards)?;
                Ok(ending_of(played))
            }
        }
    }

    /// What happens next. If nothing is due before the time is over, the mote that is due first has a turn at its end.
    fn coming(&self, motes: u8, plan: &Plan, stage: &Stage) -> Coming
        requires some { 1 ≤ motes }
        ensures turn { (next : Next) → result ≡ Coming.Turn next → next.mote < motes }
        ensures ends { (e : End) (boards : List Device) → result ≡ Coming.End e → EndsNow e plan.now (staging stage.now boards) }
        ensures value { result ≡ coming_by plan.now motes (length stage.now.script.items) (agenda_of self.now) stage.now.moment }
    {
        if stage.script.len() > MOST_SCRIPT {
            return Coming::End(Ending::TooLong);
        }
        let now = stage.moment;
        let next = self.next(motes, now);
        let is_cut = self.is_cut_first(next);
        let moment = self.next_moment(is_cut, now, next);
        within_time(is_cut, moment, now, u64::from(plan.minutes) * MINUTE, next)
    }

    /// Whether a reset with a cut comes before the turn of a mote.
    fn is_cut_first(&self, next: Next) -> bool
        ensures { result ≡ is_cut_first (agenda_of self.now) next }
    {
        self.cuts > 0 && self.next_cut <= next.moment
    }

    /// The moment of a reset with a cut, or of a turn.
    fn next_moment(&self, is_cut: bool, now: u64, next: Next) -> u64
        ensures { result ≡ next_moment is_cut (agenda_of self.now) now next }
    {
        if is_cut {
            self.next_cut.max(now)
        } else {
            next.moment
        }
    }

    /// The mote that is due first, and when: not before this moment.
    fn next(&self, motes: u8, now: u64) -> Next
        requires some { 1 ≤ motes }
        ensures known { result.mote < motes }
        ensures value { result ≡ not_before now (first_turn (agenda_of self.now).turns motes) }
    {
        let mut next = Next {
            mote: 0,
            moment: u64::MAX,
        };
        for mote in 0..motes {
            next = earlier(
                next,
                Next {
                    mote,
                    moment: self.turn_of(mote),
                },
            );
        }
        Next {
            mote: next.mote,
            moment: next.moment.max(now),
        }
    }

    /// The moment from which on a mote has its turn.
    fn turn_of(&self, mote: u8) -> u64
        ensures { result ≡ slice_index_or (agenda_of self.now).turns mote last_moment }
    {
        match self.due.get(usize::from(mote)) {
            Some(due) => *due,
            None => u64::MAX,
        }
    }

    /// Plays an event, and notes its outcome.
    pub(crate) fn event<N: Nor>(
        &mut self,
        event: Event,
        profile: &NetProfile,
        plan: &Plan,
        stage: &mut Stage,
        boards: &mut Vec<N>,
    ) -> Result<Played, Halt>
        requires under_way { IsUnderWay profile.now plan.now (staging stage.old (map N.device boards.old.items)) }
        requires fits { IsRehearsed profile.now.motes event }
        requires along { GoesAlong profile.now event (staging stage.old (map N.device boards.old.items)) }
        ensures goes_on { OnOk result (IsContinued profile.now plan.now (staging stage.old (map N.device boards.old.items))
            (staging stage.new (map N.device boards.new.items))) }
        ensures moves { result ≡ Ok Played.Done → Moves (event_course plan.now event) profile.now plan.now
            (scene self.old stage.old (map N.device boards.old.items))
            (scene self.new stage.new (map N.device boards.new.items)) }
        ensures makes { result ≡ Ok Played.Done → Makes (uncut event) profile.now plan.now
            (staging stage.old (map N.device boards.old.items))
            (staging stage.new (map N.device boards.new.items)) }
        ensures full { result ≡ Ok Played.TooMany → IsFull (staging stage.new (map N.device boards.new.items)) }
        ensures sends { OnOk result (SendsOnly (mote_of event) (staging stage.old (map N.device boards.old.items))
            (staging stage.new (map N.device boards.new.items))) }
    {
        let mote = mote_at(&event);
        let played = stage.play(profile, plan, event, boards)?;
        self.note(mote, plan, stage);
        Ok(played)
    }
}

/// The one of two turns that comes earlier: the first if both come at once.
fn earlier(first: Next, second: Next) -> Next
    ensures value { result ≡ earlier_of first second }
    ensures known { (motes : ℕ) → first.mote < motes → second.mote < motes → result.mote < motes }
{
    if second.moment < first.moment {
        second
    } else {
        first
    }
}

/// What happens at a moment if that is within the time, and otherwise at the end of the time: a reset with a cut, or a turn.
fn within_time(is_cut: bool, moment: u64, now: u64, end: u64, next: Next) -> Coming
    ensures turn { (n : Next) → result ≡ Coming.Turn n → n.mote ≡ next.mote }
    ensures ends { (e : End) → result ≡ Coming.End e → (e ≡ End.OutOfTime) × (end ≤ now) }
    ensures value { result ≡ within_time is_cut moment now end next }
{
    if moment <= end {
        return coming_at(is_cut, moment, next);
    }
    if now >= end {
        return Coming::End(Ending::OutOfTime);
    }
    Coming::Turn(Next {
        mote: next.mote,
        moment: end,
    })
}

/// A reset with a cut, or a turn.
fn coming_at(is_cut: bool, moment: u64, next: Next) -> Coming
    ensures turn { (n : Next) → result ≡ Coming.Turn n → n ≡ next }
    ensures goes_on { (e : End) → result ≢ Coming.End e }
    ensures value { result ≡ coming_now is_cut moment next }
{
    if is_cut {
        return Coming::Cut { moment };
    }
    Coming::Turn(next)
}
