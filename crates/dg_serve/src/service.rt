//! A service, part by part.
ghost use Rattle.std.specs.Prelude.{◌≡◌, ℕ, ◌+◌, ◌^◌, ◌<◌, ◌≤◌, [], ◌∷◌, map, Option};
ghost use Rattle.dg_base.specs.Clock.{Answers};
ghost use Rattle.dg_netcfg.specs.Readings.{IsAllowed};
ghost use Rattle.dg_serve.specs.Services.{Begins, Looks, Ticks, plan};
ghost use Rattle.dg_serve.specs.inner.Stretches.{beginning};
ghost use Rattle.dg_serve.specs.Standings.{StandsReady, IsUnderWay, PartsGoOn, EventAsks, ApplyEnds, stretch, standing_with};
ghost use Rattle.dg_serve.specs.Standings.{service_standing};

use crate::handing::{hand_on, receive};
use crate::stop::Stop;
use crate::telling::{event_line, put};
use crate::timeline::Timeline;
use dg_base::{Clock, Event, Sink};
use dg_link::Link;
use dg_netcfg::NetProfile;
use dg_node::Node;
use dg_nor::Nor;
use dg_rules::agreement_is_kept;
use dg_world::play_alone;
use std::alloc::Global;

/// The motes of a service, None where one is off, their time, and the text that is written next.
#[derive(Drop)]
pub struct Service {
    pub motes: Vec<Option<Node>>,
    pub timeline: Timeline,
    pub text: Vec<u8>,
    pub alloc: Global,
}

impl Service {
    /// An event is applied: its line is written, and then what it sent is forwarded. Where there is no memory for the line,
    /// the event is not applied.
    fn apply_event<K: Sink, N: Nor, L: Link>(
        &mut self,
        profile: &NetProfile,
        mote: u8,
        event: Event,
        boards: &mut [N],
        link: &mut L,
        out: &mut K,
    ) -> Result<(), Stop>
        requires allowed { IsAllowed profile.now }
        requires asks { (told : Option Answers) × (reached : ℕ)
            × EventAsks profile.now.motes mote profile.now.links event
            (standing_with (self.old, map N.device boards.old) (K.Sink, out.old) (L.Link, link.old) (told, reached)) }
        ensures ends { (told : Option Answers) (reached : ℕ) → ApplyEnds result profile.now.motes profile.now.links event
            (standing_with (self.old, map N.device boards.old) (K.Sink, out.old) (L.Link, link.old) (told, reached))
            (standing_with (self.new, map N.device boards.new) (K.Sink, out.new) (L.Link, link.new) (told, reached)) }
    {
        agreement_is_kept();
        event_line(&event, &mut self.text)?;
        let now = self.timeline.moment;
        let index = usize::from(mote);
        let motes = self.motes.as_mut_slice();
        let runs = &mut motes[index];
        let board = &mut boards[index];
        let sent = play_alone(runs, now, &event, board)?;
        put(self.text.as_slice(), out)?;
        hand_on(profile, mote, &sent, link)?;
        Ok(())
    }

    /// A mote powers on.
    fn begin<K: Sink, N: Nor, L: Link, C: Clock>(
        &mut self,
        profile: &NetProfile,
        mote: u8,
        boards: &mut [N],
        link: &mut L,
        clock: &mut C,
        out: &mut K,
    ) -> Result<(), Stop>
        requires allowed { IsAllowed profile.now }
        requires known { mote < profile.now.motes }
        requires ready { StandsReady profile.now.motes mote
            (service_standing (self.old, map N.device boards.old) (K.Sink, out.old) (L.Link, link.old) (C.Clock, clock.old)) }
        requires early { self.old.timeline.moment < 2 ^ 60 }
        ensures goes { PartsGoOn result profile.now.motes profile.now.links (stretch mote (mote + 1) (Begins mote ∷ []))
            (service_standing (self.old, map N.device boards.old) (K.Sink, out.old) (L.Link, link.old) (C.Clock, clock.old))
            (service_standing (self.new, map N.device boards.new) (K.Sink, out.new) (L.Link, link.new) (C.Clock, clock.new)) }
    {
        let timing = self.timeline.next(clock);
        let event = Event::Reset {
            mote,
            dt: timing.dt,
            word: timing.word,
        };
        self.apply_event(profile, mote, event, boards, link, out)
    }

    /// A mote looks whether a frame came, and hears it.
    fn look<K: Sink, N: Nor, L: Link, C: Clock>(
        &mut self,
        profile: &NetProfile,
        mote: u8,
        boards: &mut [N],
        link: &mut L,
        clock: &mut C,
        out: &mut K,
    ) -> Result<(), Stop>
        requires allowed { IsAllowed profile.now }
        requires known { mote < profile.now.motes }
        requires under_way { IsUnderWay profile.now.motes profile.now.links (2 ^ 60)
            (service_standing (self.old, map N.device boards.old) (K.Sink, out.old) (L.Link, link.old) (C.Clock, clock.old)) }
        ensures goes { PartsGoOn result profile.now.motes profile.now.links
            (stretch profile.now.motes profile.now.motes (Looks mote ∷ []))
            (service_standing (self.old, map N.device boards.old) (K.Sink, out.old) (L.Link, link.old) (C.Clock, clock.old))
            (service_standing (self.new, map N.device boards.new) (K.Sink, out.new) (L.Link, link.new) (C.Clock, clock.new)) }
    {
        match receive(self.alloc, link, mote)? {
            Some(bytes) => {
                let timing = self.timeline.next(clock);
                let event = Event::Frame {
                    mote,
                    dt: timing.dt,
                    word: timing.word,
                    bytes,
                };
                self.apply_event(profile, mote, event, boards, link, out)
            }
            None => Ok(()),
        }
    }

    /// A mote ticks.
    fn tick<K: Sink, N: Nor, L: Link, C: Clock>(
        &mut self,
        profile: &NetProfile,
        mote: u8,
        boards: &mut [N],
        link: &mut L,
        clock: &mut C,
        out: &mut K,
    ) -> Result<(), Stop>
        requires allowed { IsAllowed profile.now }
        requires known { mote < profile.now.motes }
        requires under_way { IsUnderWay profile.now.motes profile.now.links (2 ^ 60)
            (service_standing (self.old, map N.device boards.old) (K.Sink, out.old) (L.Link, link.old) (C.Clock, clock.old)) }
        ensures goes { PartsGoOn result profile.now.motes profile.now.links
            (stretch profile.now.motes profile.now.motes (Ticks mote ∷ []))
            (service_standing (self.old, map N.device boards.old) (K.Sink, out.old) (L.Link, link.old) (C.Clock, clock.old))
            (service_standing (self.new, map N.device boards.new) (K.Sink, out.new) (L.Link, link.new) (C.Clock, clock.new)) }
    {
        let timing = self.timeline.next(clock);
        let event = Event::Tick {
            mote,
            dt: timing.dt,
            word: timing.word,
        };
        self.apply_event(profile, mote, event, boards, link, out)
    }

    /// Each mote powers on, in ascending order.
    fn begin_all<K: Sink, N: Nor, L: Link, C: Clock>(
        &mut self,
        profile: &NetProfile,
        boards: &mut [N],
        link: &mut L,
        clock: &mut C,
        out: &mut K,
    ) -> Result<(), Stop>
        requires allowed { IsAllowed profile.now }
        requires ready { StandsReady profile.now.motes 0
            (service_standing (self.old, map N.device boards.old) (K.Sink, out.old) (L.Link, link.old) (C.Clock, clock.old)) }
        requires early { self.old.timeline.moment ≡ 0 }
        ensures goes { PartsGoOn result profile.now.motes profile.now.links
            (stretch 0 profile.now.motes (beginning profile.now.motes))
            (service_standing (self.old, map N.device boards.old) (K.Sink, out.old) (L.Link, link.old) (C.Clock, clock.old))
            (service_standing (self.new, map N.device boards.new) (K.Sink, out.new) (L.Link, link.new) (C.Clock, clock.new)) }
    {
        for mote in 0..profile.motes {
            self.begin(profile, mote, boards, link, clock, out)?;
        }
        Ok(())
    }

    /// Each mote powers on, and then this many turns are played. In a turn each mote looks and ticks, in ascending order.
    pub(crate) fn run<K: Sink, N: Nor, L: Link, C: Clock>(
        &mut self,
        turns: u32,
        profile: &NetProfile,
        boards: &mut [N],
        link: &mut L,
        clock: &mut C,
        out: &mut K,
    ) -> Result<(), Stop>
        requires allowed { IsAllowed profile.now }
        requires few { turns ≤ 1000000 }
        requires ready { StandsReady profile.now.motes 0
            (service_standing (self.old, map N.device boards.old) (K.Sink, out.old) (L.Link, link.old) (C.Clock, clock.old)) }
        requires early { self.old.timeline.moment ≡ 0 }
        ensures goes { PartsGoOn result profile.now.motes profile.now.links
            (stretch 0 profile.now.motes (plan profile.now.motes turns))
            (service_standing (self.old, map N.device boards.old) (K.Sink, out.old) (L.Link, link.old) (C.Clock, clock.old))
            (service_standing (self.new, map N.device boards.new) (K.Sink, out.new) (L.Link, link.new) (C.Clock, clock.new)) }
    {
        self.begin_all(profile, boards, link, clock, out)?;
        let motes = u32::from(profile.motes);
        for step in 0..turns * motes {
            let mote = (step % motes) as u8;
            self.look(profile, mote, boards, link, clock, out)?;
            self.tick(profile, mote, boards, link, clock, out)?;
        }
        Ok(())
    }
}
