//! Resets whose power is cut within the start, at random moments.
ghost use Rattle.std.specs.Prelude.{◌≡◌, ◌≤◌, ◌<◌, ◌%◌, map, Ok, OnOk, IfOk};
ghost use Rattle.dg_script.specs.Fitting.{FitsCut};
ghost use Rattle.dg_rehearse.specs.Rehearsed.{IsUnderWay, IsContinued, MoreEvents, IsFull, staging};
ghost use Rattle.dg_rehearse.specs.Courses.{agenda_of, scene};
ghost use Rattle.dg_rehearse.specs.Turns.{MovesCut, start_cut, after_draws, draw_at, next_cut_at};

use crate::plan::Plan;
use crate::schedule::Schedule;
use crate::stage::{Played, Stage, later};
use crate::stop::Halt;
use crate::turning::since;
use dg_base::{Bytes, Cut, Event};
use dg_netcfg::NetProfile;
use dg_nor::Nor;
use std::alloc::{AllocError, Global};

/// The longest time from one reset with a cut to the next, in milliseconds.
pub(crate) const BETWEEN_CUTS: u32 = 60_000;

/// A cut comes in one of the first this many operations of a start.
const CUT_OPERATIONS: u32 = 3;

impl Schedule {
    /// Resets a random mote, and cuts its power within the start.
    pub(crate) fn cut<N: Nor>(
        &mut self,
        alloc: Global,
        moment: u64,
        profile: &NetProfile,
        plan: &Plan,
        stage: &mut Stage,
        boards: &mut Vec<N>,
    ) -> Result<Played, Halt>
        requires under_way { IsUnderWay profile.now plan.now (staging stage.old (map N.device boards.old.items)) }
        requires some { 1 ≤ profile.now.motes }
        ensures goes_on { OnOk result (IsContinued profile.now plan.now (staging stage.old (map N.device boards.old.items))
            (staging stage.new (map N.device boards.new.items))) }
        ensures moves { result ≡ Ok Played.Done → MovesCut moment profile.now plan.now
            (scene self.old stage.old (map N.device boards.old.items))
            (scene self.new stage.new (map N.device boards.new.items)) }
        ensures events { result ≡ Ok Played.Done → MoreEvents (staging stage.old (map N.device boards.old.items))
            (staging stage.new (map N.device boards.new.items)) }
        ensures full { result ≡ Ok Played.TooMany → IsFull (staging stage.new (map N.device boards.new.items)) }
    {
        let first = self.draw();
        let mote = chosen_mote(first, profile.motes);
        let dt = since(stage.moment, moment);
        let word = self.draw();
        let cut = self.drawn_cut(alloc)?;
        let wait = self.draw();
        self.wait_for_cut(later(moment, wait % BETWEEN_CUTS));
        let event = Event::Reset { mote, dt, word };
        let played = stage.play_cut(profile, plan, cut, event, boards)?;
        self.note(mote, plan, stage);
        Ok(played)
    }

    /// Leaves one cut less, and the next one at this moment.
    fn wait_for_cut(&mut self, moment: u64)
        ensures { agenda_of self.new ≡ next_cut_at moment (agenda_of self.old) }
    {
        self.cuts = self.cuts.saturating_sub(1);
        self.next_cut = moment;
    }

    /// A random cut.
    fn drawn_cut(&mut self, alloc: Global) -> Result<Cut, AllocError>
        ensures fits { IfOk result FitsCut }
        ensures value { IfOk result (λ cut. cut ≡ start_cut (draw_at (agenda_of self.old) 0) (draw_at (agenda_of self.old) 1)) }
        ensures past { agenda_of self.new ≡ after_draws 2 (agenda_of self.old) }
    {
        let mask = self.draw();
        let after = self.draw();
        start_cut(alloc, mask, after)
    }
}

/// The mote that a draw chooses.
fn chosen_mote(drawn: u32, motes: u8) -> u8
    requires some { 1 ≤ motes }
    ensures value { result ≡ drawn % motes }
    ensures known { result < motes }
{
    (drawn % u32::from(motes)) as u8
}

/// The cut that two draws choose.
fn start_cut(alloc: Global, mask: u32, after: u32) -> Result<Cut, AllocError>
    ensures fits { IfOk result FitsCut }
    ensures value { IfOk result (λ cut. cut ≡ start_cut mask after) }
{
    let mut bytes = Vec::with_capacity(alloc, 1)?;
    bytes.push_reserved((mask % 256) as u8);
    Ok(Cut {
        after: 1 + after % CUT_OPERATIONS,
        mask: Bytes::new(bytes),
    })
}
