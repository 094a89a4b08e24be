//! A turn of a mote: its event, and who hears its frame.
ghost use Rattle.std.specs.Prelude.{◌≡◌, ◌≤◌, ◌<◌, ◌&&◌, ◌%◌, ◌^◌, ℕ, List, true, false, map, Ok, OnOk, Some, None, is_some};
ghost use Rattle.dg_nor.specs.Device.{Device};
ghost use Rattle.dg_netcfg.specs.declared.profile.NetProfile.{NetProfile as Profile};
ghost use Rattle.dg_rules.specs.Events.{mote_of};
ghost use Rattle.dg_script.specs.Places.{is_linked};
ghost use Rattle.dg_script.specs.Sizes.{most_motes};
ghost use Rattle.dg_rules.specs.World.{World as RuleWorld};
ghost use Rattle.dg_world.specs.Due.{due_at};
ghost use Rattle.dg_rehearse.specs.Along.{AreNeighbours};
ghost use Rattle.dg_rehearse.specs.Courses.{Moves, scene, IsStagedWorld};
ghost use Rattle.dg_rehearse.specs.Rehearsed.{IsRehearsed, IsUnderWay, IsContinued, MoreEvents, IsFull, Staging, staging};
ghost use Rattle.dg_rehearse.specs.Rehearsed.{SentBy, LastSentBy, GoesAlong};
ghost use Rattle.dg_rehearse.specs.Turns.{turn_course, delivered_course, heard_course, turn_event, since_moment};
ghost use Rattle.dg_rehearse.specs.declared.plan.Ending.{Ending as End};

use crate::neighbours::{Marks, neighbours_of};
use crate::plan::{Ending, Plan};
use crate::progress::is_set;
use crate::schedule::{Next, Schedule};
use crate::stage::{Played, Stage, later};
use crate::stop::Halt;
use dg_base::Event;
use dg_netcfg::NetProfile;
use dg_nor::Nor;

impl Schedule {
    /// Gives a mote its turn: it ticks or, if it is off, powers on again.
    pub(crate) fn turn<N: Nor>(
        &mut self,
        next: Next,
        profile: &NetProfile,
        plan: &Plan,
        stage: &mut Stage,
        boards: &mut Vec<N>,
    ) -> Result<Played, Halt>
        requires under_way { IsUnderWay profile.now plan.now (staging stage.old (map N.device boards.old.items)) }
        requires known { next.mote < profile.now.motes }
        ensures goes_on { OnOk result (IsContinued profile.now plan.now (staging stage.old (map N.device boards.old.items))
            (staging stage.new (map N.device boards.new.items))) }
        ensures moves { result ≡ Ok Played.Done → Moves (turn_course profile.now plan.now next) profile.now plan.now
            (scene self.old stage.old (map N.device boards.old.items))
            (scene self.new stage.new (map N.device boards.new.items)) }
        ensures events { result ≡ Ok Played.Done → MoreEvents (staging stage.old (map N.device boards.old.items))
            (staging stage.new (map N.device boards.new.items)) }
        ensures full { result ≡ Ok Played.TooMany → IsFull (staging stage.new (map N.device boards.new.items)) }
    {
        let dt = since(stage.moment, next.moment);
        let word = self.draw();
        let mote = next.mote;
        let event = event_of_turn(stage.world.due(mote).is_some(), mote, dt, word);
        let before = stage.world.frames_sent();
        let played = self.event(event, profile, plan, stage, boards)?;
        // a mote ticks at most once in a millisecond
        self.rest(mote, later(stage.moment, 1));
        match played {
            Played::Done => self.deliver(mote, before, profile, plan, stage, boards),
            Played::TooMany => Ok(Played::TooMany),
        }
    }

    /// If a mote sent a frame, that is, if there are more frames than before, lets each neighbour hear it that it reaches.
    #[tactic(auto, using(crate::proofs::PlayLemmas::goes_nowhere))]
    fn deliver<N: Nor>(
        &mut self,
        from: u8,
        before: usize,
        profile: &NetProfile,
        plan: &Plan,
        stage: &mut Stage,
        boards: &mut Vec<N>,
    ) -> Result<Played, Halt>
        requires under_way { IsUnderWay profile.now plan.now (staging stage.old (map N.device boards.old.items)) }
        requires sent { LastSentBy from before (staging stage.old (map N.device boards.old.items)) }
        ensures goes_on { OnOk result (IsContinued profile.now plan.now (staging stage.old (map N.device boards.old.items))
            (staging stage.new (map N.device boards.new.items))) }
        ensures moves { result ≡ Ok Played.Done → Moves (delivered_course profile.now plan.now from before) profile.now plan.now
            (scene self.old stage.old (map N.device boards.old.items))
            (scene self.new stage.new (map N.device boards.new.items)) }
        ensures full { result ≡ Ok Played.TooMany → IsFull (staging stage.new (map N.device boards.new.items)) }
    {
        let sent = stage.world.frames_sent();
        if sent <= before {
            return Ok(Played::Done);
        }
        let Some(frame) = numbered(sent) else {
            return Ok(Played::Done);
        };
        let on_air = OnAir {
            from,
            frame,
            near: neighbours_of(profile.links.as_slice(), from),
        };
        for mote in 0..profile.motes {
            match self.hear(&on_air, mote, profile, plan, stage, boards)? {
                Played::Done => {}
                Played::TooMany => return Ok(Played::TooMany),
            }
        }
        Ok(Played::Done)
    }

    /// Lets a mote hear a frame, if the frame reaches it.
    #[tactic(auto, using(crate::proofs::PlayLemmas::goes_nowhere))]
    fn hear<N: Nor>(
        &mut self,
        sent: &OnAir,
        mote: u8,
        profile: &NetProfile,
        plan: &Plan,
        stage: &mut Stage,
        boards: &mut Vec<N>,
    ) -> Result<Played, Halt>
        requires under_way { IsUnderWay profile.now plan.now (staging stage.old (map N.device boards.old.items)) }
        requires known { mote < profile.now.motes }
        requires numbered { 1 ≤ sent.now.frame }
        requires fits { sent.now.frame < 2 ^ 32 }
        requires near { AreNeighbours sent.now.near profile.now.links sent.now.from }
        requires sent { SentBy sent.now.from sent.now.frame (staging stage.old (map N.device boards.old.items)) }
        ensures goes_on { OnOk result (IsContinued profile.now plan.now (staging stage.old (map N.device boards.old.items))
            (staging stage.new (map N.device boards.new.items))) }
        ensures moves { result ≡ Ok Played.Done → Moves (heard_course profile.now plan.now sent.now.from sent.now.frame mote)
            profile.now plan.now
            (scene self.old stage.old (map N.device boards.old.items))
            (scene self.new stage.new (map N.device boards.new.items)) }
        ensures full { result ≡ Ok Played.TooMany → IsFull (staging stage.new (map N.device boards.new.items)) }
    {
        if !can_hear(sent, mote, profile, stage) {
            return Ok(Played::Done);
        }
        let drawn = self.draw();
        if is_lost(plan.loss, drawn) {
            return Ok(Played::Done);
        }
        let word = self.draw();
        let event = Event::Hear {
            mote,
            dt: 0,
            word,
            frame: sent.frame,
        };
        self.event(event, profile, plan, stage, boards)
    }
}

/// A frame on the air: who sent it, its number, and the neighbours of who sent it.
#[derive(Drop)]
struct OnAir {
    from: u8,
    frame: u32,
    near: Marks,
}

/// Whether a mote hears a frame, if nothing is lost: a link joins it with the one that sent the frame, and it is on.
fn can_hear(sent: &OnAir, mote: u8, profile: &NetProfile, stage: &Stage) -> bool
    requires known { mote < profile.now.motes }
    requires few { profile.now.motes ≤ most_motes }
    requires near { AreNeighbours sent.now.near profile.now.links sent.now.from }
    ensures linked { result ≡ true → is_linked profile.now.links sent.now.from mote ≡ true }
    ensures value { (boards : List Device) (w : RuleWorld) → IsStagedWorld profile.now (staging stage.now boards) w
        → result ≡ (is_linked profile.now.links sent.now.from mote && is_some (due_at w mote)) }
{
    if !is_set(&sent.near, mote) {
        return false;
    }
    stage.world.due(mote).is_some()
}

/// The number of the last of so many frames, if a script can name it.
fn numbered(sent: usize) -> Option<u32>
    ensures some { (frame : ℕ) → result ≡ Some frame → (frame ≡ sent) × (sent < 2 ^ 32) }
    ensures none { result ≡ None → 2 ^ 32 ≤ sent }
{
    if sent > u32::MAX as usize {
        None
    } else {
        Some(sent as u32)
    }
}

/// Whether a draw loses a frame of which so many in a hundred are lost.
fn is_lost(loss: u8, drawn: u32) -> bool
    ensures lost { result ≡ true → drawn % 100 < loss }
    ensures kept { result ≡ false → loss ≤ drawn % 100 }
{
    drawn % 100 < u32::from(loss)
}

/// The event of a mote's turn: a tick if it is on, and otherwise the reset by which it powers on.
pub(crate) fn event_of_turn(is_on: bool, mote: u8, dt: u32, word: u32) -> Event
    ensures fits { (motes : ℕ) → mote < motes → IsRehearsed motes result }
    ensures mote { mote_of result ≡ mote }
    ensures along { (n : Profile) (s : Staging) → GoesAlong n result s }
    ensures value { result ≡ turn_event is_on mote dt word }
{
    if is_on {
        Event::Tick { mote, dt, word }
    } else {
        Event::Reset { mote, dt, word }
    }
}

/// The milliseconds from one moment to another, which is not before it.
pub(crate) fn since(from: u64, to: u64) -> u32
    ensures { result ≡ since_moment from to }
{
    to.saturating_sub(from).min(u64::from(u32::MAX)) as u32
}

/// How an event ends a rehearsal, if it was one too many.
pub(crate) fn ending_of(played: Played) -> Option<Ending>
    ensures none { result ≡ None → played ≡ Played.Done }
    ensures many { (e : End) → result ≡ Some e → (e ≡ End.TooMany) × (played ≡ Played.TooMany) }
{
    match played {
        Played::Done => None,
        Played::TooMany => Some(Ending::TooMany),
    }
}
