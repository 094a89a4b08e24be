//! Counts that motes hear frames of motes.
ghost use Rattle.std.specs.Prelude.{◌≡◌, true, List, map};
ghost use Rattle.dg_meter.specs.Meters.{metered_device};
ghost use Rattle.dg_nor.specs.Device.{Device};
ghost use Rattle.dg_base.specs.declared.events.Event.TheVariants.{Hear, Last};
ghost use Rattle.dg_rules.specs.Events.{mote_of, dt_of};
ghost use Rattle.dg_rules.specs.World.{World as RuleWorld, wide_at};
ghost use Rattle.dg_world.specs.Worlds.{IsWorld};
ghost use Rattle.dg_events.specs.Kinds.{event_number};
ghost use Rattle.dg_events.specs.Frames.{is_hearing};
ghost use Rattle.dg_events.specs.Told.{nothing_told, told_by};
ghost use Rattle.dg_count.specs.Runs.{CountsEvent, NotesWholes, TimesEvent, placement_of};
ghost use Rattle.dg_count.specs.Shown.{CountsFrames, IsNumberOf};

use crate::counter::Counter;
use crate::frame_counting::count_wide;
use dg_base::MOST_MOTES;
use dg_events::{HeardFrame, are_none};
use dg_meter::Metered;
use dg_nor::Nor;
use dg_rules::Event;
use dg_script::Report;
use dg_world::World;

const HEAR: usize = 1;

const LAST: usize = 2;

/// Whether a script may have the mote with this number, and there is a board of it.
#[inline(always)]
fn has_board<N: Nor>(mote: u8, boards: &[Metered<N>]) -> bool {
    mote < MOST_MOTES && usize::from(mote) < boards.len()
}

/// What is known of a frame that a mote heard, where it may be known of the event which mote sent the frame.
#[inline(always)]
fn sent_by(heard: HeardFrame, by: Option<u8>) -> HeardFrame {
    match by {
        Some(by) => HeardFrame { by, ..heard },
        None => heard,
    }
}

impl Counter {
    /// An event of this kind was applied that brings a wide mote the frame with this number, after `dt` milliseconds. These lines
    /// tell no outcome. It is known of some events which mote sent the frame.
    #[inline(always)]
    fn note_quiet_hearing<N: Nor>(
        &mut self,
        world: &World,
        event: &Event,
        kind: usize,
        mote: u8,
        by: Option<u8>,
        dt: u32,
        frame: usize,
        boards: &[Metered<N>],
        reports: &[Report],
    )
        requires kind { kind ≡ event_number event.now }
        requires mote { mote ≡ mote_of event.now }
        requires dt { dt ≡ dt_of event.now }
        requires hears { is_hearing event.now ≡ true }
        requires number { IsNumberOf world.now event.now frame }
        requires quiet { told_by reports.now ≡ nothing_told }
        requires wide { (stores : List Device) (w : RuleWorld) → IsWorld world.now stores w → wide_at w mote ≡ true }
        ensures counts { CountsEvent self.old.events self.new.events event.now reports.now }
        ensures placed { placement_of self.new ≡ placement_of self.old }
        ensures times { TimesEvent self.old self.new event.now reports.now }
        ensures frames { CountsFrames self.old.frames self.new.frames world.now event.now reports.now }
        ensures wholes { NotesWholes self.old self.new (map (metered_device N.device) boards.now) event.now reports.now }
    {
        self.events.note_quiet(event, kind, mote, reports);
        self.times.note_quiet(dt, reports);
        let number = self.events.all;
        self.wholes
            .note(self.placed, mote, boards, reports, number, self.times.ms);
        let Some(heard) = count_wide(&mut self.frames, world, event, mote, frame, reports) else {
            return;
        };
        let heard = sent_by(heard, by);
        let answer = world.heard();
        self.costs
            .note_hearing_cost(&mut self.frames, kind, mote, frame, heard, boards, answer);
    }

    /// An event of this kind was applied that brings a mote the frame with this number, after `dt` milliseconds.
    #[inline(never)]
    fn note_told_hearing<N: Nor>(
        &mut self,
        world: &World,
        event: &Event,
        kind: usize,
        mote: u8,
        dt: u32,
        frame: usize,
        boards: &[Metered<N>],
        reports: &[Report],
    )
        requires kind { kind ≡ event_number event.now }
        requires mote { mote ≡ mote_of event.now }
        requires dt { dt ≡ dt_of event.now }
        requires hears { is_hearing event.now ≡ true }
        requires number { IsNumberOf world.now event.now frame }
        ensures counts { CountsEvent self.old.events self.new.events event.now reports.now }
        ensures placed { placement_of self.new ≡ placement_of self.old }
        ensures times { TimesEvent self.old self.new event.now reports.now }
        ensures frames { CountsFrames self.old.frames self.new.frames world.now event.now reports.now }
        ensures wholes { NotesWholes self.old self.new (map (metered_device N.device) boards.now) event.now reports.now }
    {
        self.events.note(event, kind, mote, reports);
        self.times.note(self.placed, mote, dt, reports);
        let number = self.events.all;
        self.costs.note_told_cost(
            &mut self.frames,
            world,
            event,
            number,
            &self.times,
            mote,
            frame,
            boards,
            reports,
        );
        self.wholes
            .note(self.placed, mote, boards, reports, number, self.times.ms);
    }

    /// A mote heard the frame with this number. The events of rounds are none of these.
    #[inline(never)]
    pub(crate) fn note_hear<N: Nor>(
        &mut self,
        world: &World,
        event: &Event,
        mote: u8,
        dt: u32,
        word: u32,
        frame: u32,
        boards: &[Metered<N>],
        reports: &[Report],
    )
        requires is { event.now ≡ Hear mote dt word frame }
        ensures counts { CountsEvent self.old.events self.new.events event.now reports.now }
        ensures placed { placement_of self.new ≡ placement_of self.old }
        ensures times { TimesEvent self.old self.new event.now reports.now }
        ensures frames { CountsFrames self.old.frames self.new.frames world.now event.now reports.now }
        ensures wholes { NotesWholes self.old self.new (map (metered_device N.device) boards.now) event.now reports.now }
    {
        if are_none(reports) && has_board(mote, boards) && world.is_wide(mote) {
            let frame = frame as usize;
            self.note_quiet_hearing(world, event, HEAR, mote, None, dt, frame, boards, reports);
            return;
        }
        self.note_told_hear(world, mote, dt, word, frame, boards, reports);
    }

    #[cold]
    #[inline(never)]
    fn note_told_hear<N: Nor>(
        &mut self,
        world: &World,
        mote: u8,
        dt: u32,
        word: u32,
        frame: u32,
        boards: &[Metered<N>],
        reports: &[Report],
    )
        ensures counts { CountsEvent self.old.events self.new.events (Hear mote dt word frame) reports.now }
        ensures placed { placement_of self.new ≡ placement_of self.old }
        ensures times { TimesEvent self.old self.new (Hear mote dt word frame) reports.now }
        ensures frames { CountsFrames self.old.frames self.new.frames world.now (Hear mote dt word frame) reports.now }
        ensures wholes { NotesWholes self.old self.new (map (metered_device N.device) boards.now) (Hear mote dt word frame)
            reports.now }
    {
        let event = Event::Hear {
            mote,
            dt,
            word,
            frame,
        };
        self.note_told_hearing(
            world,
            &event,
            HEAR,
            mote,
            dt,
            frame as usize,
            boards,
            reports,
        );
    }

    /// A mote heard the last frame of another one, if that sent one.
    #[inline(always)]
    pub(crate) fn note_last<N: Nor>(
        &mut self,
        world: &World,
        event: &Event,
        from: u8,
        to: u8,
        dt: u32,
        word: u32,
        boards: &[Metered<N>],
        reports: &[Report],
    )
        requires is { event.now ≡ Last from to dt word }
        ensures counts { CountsEvent self.old.events self.new.events event.now reports.now }
        ensures placed { placement_of self.new ≡ placement_of self.old }
        ensures times { TimesEvent self.old self.new event.now reports.now }
        ensures frames { CountsFrames self.old.frames self.new.frames world.now event.now reports.now }
        ensures wholes { NotesWholes self.old self.new (map (metered_device N.device) boards.now) event.now reports.now }
    {
        if are_none(reports) && from < MOST_MOTES && has_board(to, boards) && world.is_wide(to) {
            let frame = world.last_frame(from);
            self.note_quiet_hearing(
                world,
                event,
                LAST,
                to,
                Some(from),
                dt,
                frame,
                boards,
                reports,
            );
            return;
        }
        self.note_told_last(world, from, to, dt, word, boards, reports);
    }

    #[cold]
    #[inline(never)]
    fn note_told_last<N: Nor>(
        &mut self,
        world: &World,
        from: u8,
        to: u8,
        dt: u32,
        word: u32,
        boards: &[Metered<N>],
        reports: &[Report],
    )
        ensures counts { CountsEvent self.old.events self.new.events (Last from to dt word) reports.now }
        ensures placed { placement_of self.new ≡ placement_of self.old }
        ensures times { TimesEvent self.old self.new (Last from to dt word) reports.now }
        ensures frames { CountsFrames self.old.frames self.new.frames world.now (Last from to dt word) reports.now }
        ensures wholes { NotesWholes self.old self.new (map (metered_device N.device) boards.now) (Last from to dt word)
            reports.now }
    {
        let event = Event::Last { from, to, dt, word };
        let frame = world.last_frame(from);
        self.note_told_hearing(world, &event, LAST, to, dt, frame, boards, reports);
    }
}
