//! Counts ticks.
ghost use Rattle.std.specs.Prelude.{◌≡◌, map};
ghost use Rattle.dg_meter.specs.Meters.{metered_device};
ghost use Rattle.dg_base.specs.declared.events.Event.TheVariants.{Tick};
ghost use Rattle.dg_rules.specs.Events.{mote_of, dt_of};
ghost use Rattle.dg_events.specs.Kinds.{event_number};
ghost use Rattle.dg_events.specs.Told.{nothing_told, told_by};
ghost use Rattle.dg_count.specs.Runs.{CountsEvent, NotesWholes, TimesEvent, placement_of};
ghost use Rattle.dg_count.specs.Shown.{CountsFrames};

use crate::counter::Counter;
use crate::frame_counting::count_sent;
use crate::noting::TICK;
use dg_events::{are_none, are_sent};
use dg_meter::Metered;
use dg_nor::Nor;
use dg_rules::Event;
use dg_script::Report;
use dg_world::World;

impl Counter {
    /// A tick of a mote was applied, after `dt` milliseconds. Most ticks report nothing and leave the chip unchanged.
    #[inline(always)]
    pub(crate) fn note_tick<N: Nor>(
        &mut self,
        world: &World,
        event: &Event,
        mote: u8,
        dt: u32,
        word: u32,
        boards: &[Metered<N>],
        reports: &[Report],
    )
        requires is { event.now ≡ Tick mote dt word }
        ensures counts { CountsEvent self.old.events self.new.events event.now reports.now }
        ensures placed { placement_of self.new ≡ placement_of self.old }
        ensures times { TimesEvent self.old self.new event.now reports.now }
        ensures frames { CountsFrames self.old.frames self.new.frames world.now event.now reports.now }
        ensures wholes { NotesWholes self.old self.new (map (metered_device N.device) boards.now) event.now reports.now }
    {
        if are_none(reports) && self.costs.is_idle(mote, boards) {
            self.note_quiet_tick(world, event, mote, dt, boards, reports);
            return;
        }
        self.note_busy_tick(world, mote, dt, word, boards, reports);
    }

    /// A tick of a mote was applied, after `dt` milliseconds, of which these lines tell no outcome.
    #[inline(always)]
    fn note_quiet_tick<N: Nor>(
        &mut self,
        world: &World,
        event: &Event,
        mote: u8,
        dt: u32,
        boards: &[Metered<N>],
        reports: &[Report],
    )
        requires kind { event_number event.now ≡ 0 }
        requires mote { mote ≡ mote_of event.now }
        requires dt { dt ≡ dt_of event.now }
        requires quiet { told_by reports.now ≡ nothing_told }
        ensures counts { CountsEvent self.old.events self.new.events event.now reports.now }
        ensures placed { placement_of self.new ≡ placement_of self.old }
        ensures times { TimesEvent self.old self.new event.now reports.now }
        ensures frames { CountsFrames self.old.frames self.new.frames world.now event.now reports.now }
        ensures wholes { NotesWholes self.old self.new (map (metered_device N.device) boards.now) event.now reports.now }
    {
        self.events.note_quiet(event, TICK, mote, reports);
        self.times.note_quiet(dt, reports);
        count_sent(&mut self.frames, world, event, mote, reports);
        let number = self.events.all;
        self.wholes
            .note(self.placed, mote, boards, reports, number, self.times.ms);
    }

    /// A tick was applied that reports something or made operations. The event is made again here: it then need not be in memory
    /// for the others.
    #[cold]
    #[inline(never)]
    fn note_busy_tick<N: Nor>(
        &mut self,
        world: &World,
        mote: u8,
        dt: u32,
        word: u32,
        boards: &[Metered<N>],
        reports: &[Report],
    )
        ensures counts { CountsEvent self.old.events self.new.events (Tick mote dt word) reports.now }
        ensures placed { placement_of self.new ≡ placement_of self.old }
        ensures times { TimesEvent self.old self.new (Tick mote dt word) reports.now }
        ensures frames { CountsFrames self.old.frames self.new.frames world.now (Tick mote dt word) reports.now }
        ensures wholes { NotesWholes self.old self.new (map (metered_device N.device) boards.now) (Tick mote dt word)
            reports.now }
    {
        let event = Event::Tick { mote, dt, word };
        if are_sent(reports) && self.costs.is_idle(mote, boards) {
            self.note_quiet_tick(world, &event, mote, dt, boards, reports);
            let now = self.now();
            self.costs.stamp(reports.len(), now);
            return;
        }
        self.note_told_tick(world, &event, mote, dt, boards, reports);
    }

    /// A tick was applied that reports something else than a frame that was sent, or made operations.
    #[inline(never)]
    fn note_told_tick<N: Nor>(
        &mut self,
        world: &World,
        event: &Event,
        mote: u8,
        dt: u32,
        boards: &[Metered<N>],
        reports: &[Report],
    )
        requires kind { event_number event.now ≡ 0 }
        requires mote { mote ≡ mote_of event.now }
        requires dt { dt ≡ dt_of event.now }
        ensures counts { CountsEvent self.old.events self.new.events event.now reports.now }
        ensures placed { placement_of self.new ≡ placement_of self.old }
        ensures times { TimesEvent self.old self.new event.now reports.now }
        ensures frames { CountsFrames self.old.frames self.new.frames world.now event.now reports.now }
        ensures wholes { NotesWholes self.old self.new (map (metered_device N.device) boards.now) event.now reports.now }
    {
        self.events.note(event, TICK, mote, reports);
        self.times.note(self.placed, mote, dt, reports);
        count_sent(&mut self.frames, world, event, mote, reports);
        let number = self.events.all;
        let done = self.costs.note_tick_cost(
            &mut self.frames,
            world,
            event,
            number,
            &self.times,
            mote,
            boards,
            reports,
        );
        self.costs.unless(done);
        self.wholes
            .note(self.placed, mote, boards, reports, number, self.times.ms);
    }
}
