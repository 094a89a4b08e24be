//! How a rehearsal begins: each mote powers on, and the image is injected.
ghost use Rattle.std.specs.Prelude.{◌≡◌, ◌<◌, map, Ok, OnOk};
ghost use Rattle.dg_rehearse.specs.Ended.{HasBegun, OrdersImage};
ghost use Rattle.dg_rehearse.specs.Rehearsed.{IsUnderWay, IsContinued, IsContinuedBy, IsFull, staging};
ghost use Rattle.dg_rehearse.specs.Courses.{Moves, scene};
ghost use Rattle.dg_rehearse.specs.Turns.{opened_course, started_course, started_courses, injected_course, ordered_course};

use crate::plan::Plan;
use crate::schedule::Schedule;
use crate::stage::{Played, Stage};
use crate::stop::Halt;
use dg_base::Event;
use dg_netcfg::NetProfile;
use dg_nor::Nor;

impl Schedule {
    /// Powers on each mote, and injects the image.
    pub(crate) fn open<N: Nor>(
        &mut self,
        profile: &NetProfile,
        plan: &Plan,
        stage: &mut Stage,
        boards: &mut Vec<N>,
    ) -> Result<Played, Halt>
        requires under_way { IsUnderWay profile.now plan.now (staging stage.old (map N.device boards.old.items)) }
        ensures goes_on { OnOk result (IsContinued profile.now plan.now (staging stage.old (map N.device boards.old.items))
            (staging stage.new (map N.device boards.new.items))) }
        ensures moves { result ≡ Ok Played.Done → Moves (opened_course profile.now plan.now) profile.now plan.now
            (scene self.old stage.old (map N.device boards.old.items))
            (scene self.new stage.new (map N.device boards.new.items)) }
        ensures begun { result ≡ Ok Played.Done → IsContinuedBy (λ more w. HasBegun plan.now more) profile.now plan.now
            (staging stage.old (map N.device boards.old.items))
            (staging stage.new (map N.device boards.new.items)) }
        ensures full { result ≡ Ok Played.TooMany → IsFull (staging stage.new (map N.device boards.new.items)) }
    {
        match self.start_all(profile, plan, stage, boards)? {
            Played::Done => self.inject(profile, plan, stage, boards),
            Played::TooMany => Ok(Played::TooMany),
        }
    }

    /// Powers on each mote.
    fn start_all<N: Nor>(
        &mut self,
        profile: &NetProfile,
        plan: &Plan,
        stage: &mut Stage,
        boards: &mut Vec<N>,
    ) -> Result<Played, Halt>
        requires under_way { IsUnderWay profile.now plan.now (staging stage.old (map N.device boards.old.items)) }
        ensures goes_on { OnOk result (IsContinued profile.now plan.now (staging stage.old (map N.device boards.old.items))
            (staging stage.new (map N.device boards.new.items))) }
        ensures moves { result ≡ Ok Played.Done → Moves (started_courses plan.now profile.now.motes) profile.now plan.now
            (scene self.old stage.old (map N.device boards.old.items))
            (scene self.new stage.new (map N.device boards.new.items)) }
        ensures full { result ≡ Ok Played.TooMany → IsFull (staging stage.new (map N.device boards.new.items)) }
    {
        for mote in 0..profile.motes {
            match self.start(mote, profile, plan, stage, boards)? {
                Played::Done => {}
                Played::TooMany => return Ok(Played::TooMany),
            }
        }
        Ok(Played::Done)
    }

    /// Powers on a mote.
    fn start<N: Nor>(
        &mut self,
        mote: u8,
        profile: &NetProfile,
        plan: &Plan,
        stage: &mut Stage,
        boards: &mut Vec<N>,
    ) -> Result<Played, Halt>
        requires under_way { IsUnderWay profile.now plan.now (staging stage.old (map N.device boards.old.items)) }
        requires known { mote < profile.now.motes }
        ensures goes_on { OnOk result (IsContinued profile.now plan.now (staging stage.old (map N.device boards.old.items))
            (staging stage.new (map N.device boards.new.items))) }
        ensures moves { result ≡ Ok Played.Done → Moves (started_course plan.now mote) profile.now plan.now
            (scene self.old stage.old (map N.device boards.old.items))
            (scene self.new stage.new (map N.device boards.new.items)) }
        ensures full { result ≡ Ok Played.TooMany → IsFull (staging stage.new (map N.device boards.new.items)) }
    {
        let word = self.draw();
        let event = Event::Reset { mote, dt: 0, word };
        self.event(event, profile, plan, stage, boards)
    }

    /// Injects the image, and orders it if the plan says so.
    fn inject<N: Nor>(
        &mut self,
        profile: &NetProfile,
        plan: &Plan,
        stage: &mut Stage,
        boards: &mut Vec<N>,
    ) -> Result<Played, Halt>
        requires under_way { IsUnderWay profile.now plan.now (staging stage.old (map N.device boards.old.items)) }
        ensures goes_on { OnOk result (IsContinued profile.now plan.now (staging stage.old (map N.device boards.old.items))
            (staging stage.new (map N.device boards.new.items))) }
        ensures moves { result ≡ Ok Played.Done → Moves (injected_course plan.now) profile.now plan.now
            (scene self.old stage.old (map N.device boards.old.items))
            (scene self.new stage.new (map N.device boards.new.items)) }
        ensures begun { result ≡ Ok Played.Done → IsContinuedBy (λ more w. HasBegun plan.now more) profile.now plan.now
            (staging stage.old (map N.device boards.old.items))
            (staging stage.new (map N.device boards.new.items)) }
        ensures full { result ≡ Ok Played.TooMany → IsFull (staging stage.new (map N.device boards.new.items)) }
    {
        let word = self.draw();
        let event = Event::Inject {
            mote: plan.at,
            image: plan.image,
            version: plan.version,
            dt: 0,
            word,
        };
        match self.event(event, profile, plan, stage, boards)? {
            Played::Done => self.order(profile, plan, stage, boards),
            Played::TooMany => Ok(Played::TooMany),
        }
    }

    /// Orders the image at the mote that it was injected into, if the plan says so.
    fn order<N: Nor>(
        &mut self,
        profile: &NetProfile,
        plan: &Plan,
        stage: &mut Stage,
        boards: &mut Vec<N>,
    ) -> Result<Played, Halt>
        requires under_way { IsUnderWay profile.now plan.now (staging stage.old (map N.device boards.old.items)) }
        ensures goes_on { OnOk result (IsContinued profile.now plan.now (staging stage.old (map N.device boards.old.items))
            (staging stage.new (map N.device boards.new.items))) }
        ensures moves { result ≡ Ok Played.Done → Moves (ordered_course plan.now) profile.now plan.now
            (scene self.old stage.old (map N.device boards.old.items))
            (scene self.new stage.new (map N.device boards.new.items)) }
        ensures ordered { result ≡ Ok Played.Done → IsContinuedBy (λ more w. OrdersImage plan.now more) profile.now plan.now
            (staging stage.old (map N.device boards.old.items))
            (staging stage.new (map N.device boards.new.items)) }
        ensures full { result ≡ Ok Played.TooMany → IsFull (staging stage.new (map N.device boards.new.items)) }
    {
        if !plan.ordered {
            return Ok(Played::Done);
        }
        let word = self.draw();
        let event = Event::Order {
            mote: plan.at,
            number: 1,
            image: plan.image,
            version: plan.version,
            dt: 0,
            word,
        };
        self.event(event, profile, plan, stage, boards)
    }
}
