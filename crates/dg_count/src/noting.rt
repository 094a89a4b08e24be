//! Notes what an event cost, besides the event itself and its frames.
ghost use Rattle.std.specs.Prelude.{◌≡◌, true};
ghost use Rattle.dg_rules.specs.Events.{mote_of};
ghost use Rattle.dg_events.specs.Frames.{is_hearing};
ghost use Rattle.dg_events.specs.FrameCounters.{KeepsFrames};
ghost use Rattle.dg_count.specs.Shown.{CountsFrames, IsNumberOf};

use crate::costs::Costs;
use crate::frame_counting::count_heard;
use crate::place::{EventPlace, place_of};
use dg_cost_text::Moment;
use dg_events::{FrameCounter, HeardFrame, NOTHING_TOLD, Told, Uptimes, told_by};
use dg_meter::{Metered, Tally};
use dg_mote::Heard;
use dg_mote_cost::{Have, NO_WORK, Work};
use dg_nor::Nor;
use dg_rules::Event;
use dg_script::Report;
use dg_world::World;
use std::alloc::AllocError;

/// The number of ticks among the kinds of events.
pub const TICK: usize = 0;

impl Costs {
    /// Notes what a mote keeps, by these lines.
    fn note_kept(&mut self, mote: u8, reports: &[Report]) {
        for report in reports {
            match report {
                Report::Lost { image, .. } => self.pages.set(mote, *image, None),
                Report::Have {
                    image,
                    version,
                    pages: done,
                    ..
                } => {
                    let have = Have {
                        version: *version,
                        done: *done,
                    };
                    self.pages.set(mote, *image, Some(have));
                }
                _ => {}
            }
        }
    }

    /// A tick of a mote was applied that reports something else than a frame that was sent, or made operations.
    pub fn note_tick_cost<N: Nor>(
        &mut self,
        frames: &mut FrameCounter,
        world: &World,
        event: &Event,
        number: u64,
        times: &Uptimes,
        mote: u8,
        boards: &[Metered<N>],
        reports: &[Report],
    ) -> Result<(), AllocError>
        ensures { KeepsFrames frames.old frames.new }
    {
        let index = usize::from(mote);
        if boards.len() <= index {
            return Ok(());
        }
        self.note_all(
            frames,
            world,
            event,
            number,
            times,
            None,
            &boards[index],
            reports,
        )
    }

    /// A mote heard the frame with this number in an event of this kind, and nothing is reported of it.
    #[inline(always)]
    pub fn note_hearing_cost<N: Nor>(
        &mut self,
        frames: &mut FrameCounter,
        kind: usize,
        mote: u8,
        number: usize,
        heard: HeardFrame,
        boards: &[Metered<N>],
        answer: Heard,
    )
        ensures { KeepsFrames frames.old frames.new }
    {
        self.note_frame(mote, heard, answer);
        let index = usize::from(mote);
        if boards.len() <= index || self.is_idle(mote, boards) {
            return;
        }
        self.note_put(frames, kind, mote, number, boards[index].tally());
    }

    /// A mote heard the frame with this number, of which nothing is reported, and its chip changed. Mostly a packet was put.
    #[inline(never)]
    fn note_put(
        &mut self,
        frames: &mut FrameCounter,
        kind: usize,
        mote: u8,
        number: usize,
        tally: &Tally,
    )
        ensures { KeepsFrames frames.old frames.new }
    {
        let index = usize::from(mote);
        if self.note_one_put(index, kind, tally) {
            self.fill_one(frames, index, number);
            return;
        }
        self.note_more(frames, kind, mote, number, tally);
    }

    /// The same, where the chip changed by more than one packet.
    #[cold]
    #[inline(never)]
    fn note_more(
        &mut self,
        frames: &mut FrameCounter,
        kind: usize,
        mote: u8,
        number: usize,
        tally: &Tally,
    )
        ensures { KeepsFrames frames.old frames.new }
    {
        let work = self.note_work(mote, kind, tally, false, &[]);
        self.drop_if_begun(frames, mote, work);
        self.fill_by(frames, mote, number, work);
    }

    /// An event brought a mote the frame with this number, and these lines are reported of it.
    #[inline(never)]
    pub fn note_told_cost<N: Nor>(
        &mut self,
        frames: &mut FrameCounter,
        world: &World,
        event: &Event,
        number: u64,
        times: &Uptimes,
        mote: u8,
        frame: usize,
        boards: &[Metered<N>],
        reports: &[Report],
    )
        requires mote { mote ≡ mote_of event.now }
        requires hears { is_hearing event.now ≡ true }
        requires number { IsNumberOf world.now event.now frame }
        ensures { CountsFrames frames.old frames.new world.now event.now reports.now }
    {
        let heard = count_heard(frames, world, event, mote, frame, reports);
        let index = usize::from(mote);
        if boards.len() <= index {
            return;
        }
        let board = &boards[index];
        let done = self.note_all(frames, world, event, number, times, heard, board, reports);
        self.unless(done);
    }

    /// Another event was applied.
    #[inline(never)]
    pub fn note_other_cost<N: Nor>(
        &mut self,
        frames: &mut FrameCounter,
        world: &World,
        event: &Event,
        number: u64,
        times: &Uptimes,
        mote: u8,
        boards: &[Metered<N>],
        reports: &[Report],
    ) -> Result<(), AllocError>
        ensures { KeepsFrames frames.old frames.new }
    {
        let index = usize::from(mote);
        if self.operations.len() <= index {
            return Ok(());
        }
        if boards.len() <= index {
            return Ok(());
        }
        let board = &boards[index];
        if !reports.is_empty() || self.operations[index] != board.tally().operations {
            return self.note_all(frames, world, event, number, times, None, board, reports);
        }
        self.note_heard(frames, world, mote, event, None, NOTHING_TOLD, NO_WORK)
    }

    /// An event was applied that reports something or made operations.
    #[inline(never)]
    pub fn note_all<N: Nor>(
        &mut self,
        frames: &mut FrameCounter,
        world: &World,
        event: &Event,
        number: u64,
        times: &Uptimes,
        heard: Option<HeardFrame>,
        board: &Metered<N>,
        reports: &[Report],
    ) -> Result<(), AllocError>
        ensures { KeepsFrames frames.old frames.new }
    {
        let EventPlace { mote, kind, .. } = place_of(event);
        let now = Moment {
            event: number,
            ms: times.ms,
        };
        self.stamp(reports.len(), now);
        let told = told_by(reports);
        let work = self.note_work(mote, kind, board.tally(), told.off, reports);
        self.drop_if_begun(frames, mote, work);
        if !reports.is_empty() || kind == TICK {
            self.note_power(world, mote, event, now.ms, told, work);
        }
        self.note_brought(frames, world, mote, event, heard, told, work)?;
        self.note_kept(mote, reports);
        Ok(())
    }

    /// Counts the frame that an event brought to its mote, if it brought one and was not refused.
    fn note_brought(
        &mut self,
        frames: &mut FrameCounter,
        world: &World,
        mote: u8,
        event: &Event,
        heard: Option<HeardFrame>,
        told: Told,
        work: Work,
    ) -> Result<(), AllocError>
        ensures { KeepsFrames frames.old frames.new }
    {
        if told.refused.is_some() {
            return Ok(());
        }
        self.note_heard(frames, world, mote, event, heard, told, work)
    }

    /// A start found no image.
    #[cold]
    #[inline(never)]
    pub fn note_end<N: Nor>(&mut self, place: EventPlace, boards: &[Metered<N>]) {
        let EventPlace { mote, kind, .. } = place;
        if let Some(board) = boards.get(usize::from(mote)) {
            self.note_work(mote, kind, board.tally(), false, &[]);
        }
        let index = usize::from(mote);
        if index < self.motes.len() {
            let cost = &mut self.motes[index];
            cost.no_image = cost.no_image.saturating_add(1);
        }
    }
}
