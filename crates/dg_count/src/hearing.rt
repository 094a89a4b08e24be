//! Frames that are delivered to motes.
ghost use Rattle.dg_events.specs.FrameCounters.{KeepsFrames};

use crate::costs::Costs;
use dg_events::{FrameCounter, HeardFrame, SentFrame, Told, add_one, bit};
use dg_mote::Heard;
use dg_mote_cost::{CUT_ANSWER, FILL, PUT, TRACED_PUT, USED, Work};
use dg_rules::Event;
use dg_world::World;
use std::alloc::AllocError;

/// The number of the frame that an event brings to its mote, 0 if the frame comes from outside.
fn number_of(world: &World, event: &Event) -> usize {
    match event {
        Event::Hear { frame, .. } => *frame as usize,
        Event::Last { from, .. } => world.last_frame(*from),
        _ => 0,
    }
}

impl Costs {
    /// The frame with this number has more outcomes.
    #[inline(always)]
    pub fn mark(&mut self, frames: &mut FrameCounter, number: usize, outcomes: u8)
        ensures { KeepsFrames frames.old frames.new }
    {
        if let Some(before) = frames.mark(number, 0, outcomes) {
            self.marked(&before, outcomes);
        }
    }

    /// A frame has more outcomes than before.
    #[inline(always)]
    fn marked(&mut self, before: &SentFrame, outcomes: u8) {
        let by = usize::from(before.by);
        if by < self.hot.len() {
            self.hot[by].mark(before, outcomes);
        }
    }

    /// The bytes of this frame, if it was found, came to a mote from outside.
    fn mark_traced(&mut self, frames: &mut FrameCounter, found: Option<usize>, mote: u8, work: Work)
        ensures { KeepsFrames frames.old frames.new }
    {
        let Some(number) = found else {
            return;
        };
        let outcomes = if 0 < work.puts { TRACED_PUT } else { 0 };
        if let Some(before) = frames.mark(number, bit(mote), outcomes) {
            self.traced(&before, outcomes);
        }
    }

    /// The bytes of a frame came from outside, which has more outcomes than before.
    fn traced(&mut self, before: &SentFrame, outcomes: u8) {
        let by = usize::from(before.by);
        if by < self.hot.len() {
            self.hot[by].trace(before);
            self.hot[by].mark(before, outcomes);
        }
    }

    /// A frame was delivered to a mote.
    #[inline(always)]
    pub fn heard_frame(&mut self, mote: u8, heard: HeardFrame) {
        let index = usize::from(mote);
        if self.hot.len() <= index {
            return;
        }
        if self.hot[index].hear(bit(mote), heard) {
            self.reached(heard);
        }
    }

    /// A frame was heard that no mote heard before.
    #[inline(always)]
    fn reached(&mut self, heard: HeardFrame) {
        let by = usize::from(heard.by);
        if by < self.hot.len() {
            self.hot[by].reach(heard);
        }
    }

    /// A mote answered a frame.
    #[inline(always)]
    pub fn answered(&mut self, mote: u8, heard: Heard) {
        let index = usize::from(mote);
        if index < self.hot.len() {
            self.hot[index].answer(heard);
        }
    }

    /// A frame was delivered to a mote that gave no answer, since its power was cut.
    fn answered_none(&mut self, mote: u8) {
        let index = usize::from(mote);
        if index < self.hot.len() {
            add_one(&mut self.hot[index].answers, CUT_ANSWER);
        }
    }

    /// Bytes from outside were delivered to a mote.
    #[inline(never)]
    fn heard_bytes(
        &mut self,
        frames: &mut FrameCounter,
        world: &World,
        mote: u8,
        bytes: &[u8],
        heard: Option<Heard>,
        work: Work,
    ) -> Result<(), AllocError>
        ensures { KeepsFrames frames.old frames.new }
    {
        let found = self.index.find(world, frames, mote, bytes)?;
        self.mark_traced(frames, found, mote, work);
        self.note_outside(mote, bytes, found.is_some(), heard);
        self.fill_by(frames, mote, 0, work);
        Ok(())
    }

    /// Counts what a mote made of bytes from outside, and whether they are those of a frame that was sent.
    fn note_outside(&mut self, mote: u8, bytes: &[u8], found: bool, heard: Option<Heard>) {
        let index = usize::from(mote);
        if self.motes.len() <= index {
            return;
        }
        if found {
            self.motes[index].traced = self.motes[index].traced.and(bytes.len());
        }
        match heard {
            Some(heard) => self.answered(mote, heard),
            None => self.answered_none(mote),
        }
    }

    /// A mote heard a frame, and gave this answer.
    #[inline(always)]
    pub fn note_frame(&mut self, mote: u8, heard: HeardFrame, answer: Heard) {
        self.heard_frame(mote, heard);
        self.answered(mote, answer);
    }

    /// Counts that a packet of the frame with this number was put into the page that the mote at this index fills.
    #[inline(always)]
    pub fn fill_one(&mut self, frames: &mut FrameCounter, index: usize, number: usize)
        ensures { KeepsFrames frames.old frames.new }
    {
        if index < self.hot.len() && !self.hot[index].fill_with(number) {
            self.mark_put(frames, number);
        }
    }

    /// Counts that packet if it was put into the page.
    fn fill_some(&mut self, frames: &mut FrameCounter, index: usize, number: usize, work: Work)
        ensures { KeepsFrames frames.old frames.new }
    {
        if 0 < work.puts {
            self.fill_one(frames, index, number);
        }
    }

    /// The packet of the frame with this number was put into a page, for which there was no room in the list.
    #[cold]
    #[inline(never)]
    fn mark_put(&mut self, frames: &mut FrameCounter, number: usize)
        ensures { KeepsFrames frames.old frames.new }
    {
        self.mark(frames, number, PUT);
    }

    /// Counts the packet of this frame if it was put into a page, and the page if it became complete.
    pub fn fill_by(&mut self, frames: &mut FrameCounter, mote: u8, number: usize, work: Work)
        ensures { KeepsFrames frames.old frames.new }
    {
        let index = usize::from(mote);
        self.fill_some(frames, index, number, work);
        if 0 < work.sealed {
            self.use_fill(frames, index);
        }
    }

    /// Counts the frame that an event brought to its mote, if it brought one. The event was not refused.
    #[inline(never)]
    pub fn note_heard(
        &mut self,
        frames: &mut FrameCounter,
        world: &World,
        mote: u8,
        event: &Event,
        heard: Option<HeardFrame>,
        told: Told,
        work: Work,
    ) -> Result<(), AllocError>
        ensures { KeepsFrames frames.old frames.new }
    {
        match event {
            Event::Hear { .. } | Event::Last { .. } => {
                self.note_heard_frame(world, mote, heard, told);
                self.fill_by(frames, mote, number_of(world, event), work);
                Ok(())
            }
            Event::Frame { bytes, .. } => {
                let answer = if told.off { None } else { Some(world.heard()) };
                self.heard_bytes(frames, world, mote, bytes.as_slice(), answer, work)
            }
            _ => Ok(()),
        }
    }

    /// A mote heard this frame, or its power was cut then.
    fn note_heard_frame(&mut self, world: &World, mote: u8, heard: Option<HeardFrame>, told: Told) {
        let Some(heard) = heard else {
            return;
        };
        if !told.off {
            self.note_frame(mote, heard, world.heard());
            return;
        }
        self.heard_frame(mote, heard);
        self.answered_none(mote);
    }

    /// The mote at this index fills no page any more. The packets of the last one have these outcomes.
    #[inline(always)]
    fn end_fill(&mut self, frames: &mut FrameCounter, index: usize, outcomes: u8)
        ensures { KeepsFrames frames.old frames.new }
    {
        if self.hot.len() <= index {
            return;
        }
        let filled = self.hot[index].filled.min(FILL);
        self.hot[index].filled = 0;
        for place in 0..filled {
            self.mark_at(frames, index, place, outcomes);
        }
    }

    /// The packet at this place of that page has more outcomes.
    #[inline(always)]
    fn mark_at(&mut self, frames: &mut FrameCounter, index: usize, place: usize, outcomes: u8)
        ensures { KeepsFrames frames.old frames.new }
    {
        if index < self.hot.len() && place < FILL {
            let number = self.hot[index].fill[place];
            self.mark(frames, number, outcomes);
        }
    }

    /// The page that the mote at this index fills became complete.
    #[inline(never)]
    fn use_fill(&mut self, frames: &mut FrameCounter, index: usize)
        ensures { KeepsFrames frames.old frames.new }
    {
        self.end_fill(frames, index, PUT + USED);
    }

    /// A mote fills its last page no longer if it began another one.
    pub fn drop_if_begun(&mut self, frames: &mut FrameCounter, mote: u8, work: Work)
        ensures { KeepsFrames frames.old frames.new }
    {
        if work.begun {
            self.drop_fill(frames, usize::from(mote));
        }
    }

    /// The mote at this index no longer fills its last page, which is not complete.
    #[inline(never)]
    pub fn drop_fill(&mut self, frames: &mut FrameCounter, index: usize)
        ensures { KeepsFrames frames.old frames.new }
    {
        self.end_fill(frames, index, PUT);
    }
}
