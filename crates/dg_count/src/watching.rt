//! The watcher of a replay that counts what it is shown.
ghost use Rattle.std.specs.Prelude.{◌≡◌, false, length, map};
ghost use Rattle.dg_meter.specs.Meters.{metered_device};
ghost use Rattle.dg_events.specs.Frames.{is_hearing};
ghost use Rattle.dg_count.specs.Runs.{CountsEvent, NotesWholes, TimesEvent, placement_of, sight_of};
ghost use Rattle.dg_count.specs.Shown.{CountsFrames};

use crate::counter::Counter;
use crate::frame_counting::count_other;
use crate::place::place_of;
use crate::tallies::tallies_of;
use dg_meter::Metered;
use dg_nor::Nor;
use dg_replay::Watcher;
use dg_rules::Event;
use dg_script::Report;
use dg_world::World;

impl Counter {
    /// Another event was applied.
    #[inline(never)]
    fn note_other<N: Nor>(
        &mut self,
        world: &World,
        event: &Event,
        boards: &[Metered<N>],
        reports: &[Report],
    )
        requires none { is_hearing event.now ≡ false }
        ensures counts { CountsEvent self.old.events self.new.events event.now reports.now }
        ensures placed { placement_of self.new ≡ placement_of self.old }
        ensures times { TimesEvent self.old self.new event.now reports.now }
        ensures frames { CountsFrames self.old.frames self.new.frames world.now event.now reports.now }
        ensures wholes { NotesWholes self.old self.new (map (metered_device N.device) boards.now) event.now reports.now }
    {
        let place = place_of(event);
        self.events.note(event, place.kind, place.mote, reports);
        self.times.note(self.placed, place.mote, place.dt, reports);
        count_other(&mut self.frames, world, event, place.mote, reports);
        let number = self.events.all;
        let done = self.costs.note_other_cost(
            &mut self.frames,
            world,
            event,
            number,
            &self.times,
            place.mote,
            boards,
            reports,
        );
        self.costs.unless(done);
        self.wholes.note(
            self.placed,
            place.mote,
            boards,
            reports,
            number,
            self.times.ms,
        );
    }
}

impl<N: Nor> Watcher<Metered<N>> for Counter {
    ghost use Rattle.dg_count.specs.Rests.{have_rested};

    ghost saw = { λ counter initial now. sight_of counter initial now };

    ghost rests = { λ counter initial old new stores events rested seen.
        (seen.0, seen.1, have_rested (placement_of counter) (length stores) old new events rested seen.2) };

    fn begun(&mut self, motes: u8) {
        self.costs.count = motes;
    }

    fn placed(&mut self, motes: u8, used: Option<u32>, boards: &[Metered<N>]) {
        self.placed = motes;
        self.formatted = tallies_of(boards);
        let done = self.costs.place(motes, used, &self.wholes, boards);
        self.costs.unless(done);
        self.wholes.place(motes, used.is_none());
    }

    fn taken(&mut self) {
        let now = self.now();
        self.costs.stamp(1, now);
    }

    #[inline(always)]
    fn applied(
        &mut self,
        world: &World,
        event: &Event,
        boards: &[Metered<N>],
        reported: bool,
        reports: &[Report],
    ) {
        match event {
            Event::Tick { mote, dt, word } => {
                self.note_tick(world, event, *mote, *dt, *word, boards, reports)
            }
            Event::Hear {
                mote,
                dt,
                word,
                frame,
            } => {
                self.costs.scheduled = self.costs.scheduled || !reported;
                self.note_hear(world, event, *mote, *dt, *word, *frame, boards, reports)
            }
            Event::Last { from, to, dt, word } => {
                self.costs.scheduled = self.costs.scheduled || !reported;
                self.note_last(world, event, *from, *to, *dt, *word, boards, reports)
            }
            _ => {
                self.costs.scheduled = self.costs.scheduled || !reported;
                self.note_other(world, event, boards, reports)
            }
        }
    }

    #[inline(always)]
    fn ended(&mut self, event: &Event, boards: &[Metered<N>]) {
        let place = place_of(event);
        self.ended = Some(place);
        self.costs.note_end(place, boards);
    }
}
