//! What is counted of a replay besides its events.
ghost use Rattle.dg_events.specs.FrameCounters.{KeepsFrames};

use crate::frames::FrameIndex;
use dg_base::MOST_MOTES;
use dg_cost_text::{Moment, Stamp};
use dg_events::FrameCounter;
use dg_meter::{Metered, SLOTS, Tally};
use dg_moments::{Given, Wholes};
use dg_mote_cost::{Have, HotCost, KeptPages, MoteCost, narrow};
use dg_nor::Nor;
use std::alloc::{AllocError, Global};

/// The room of a chip that was never used, in commits.
const MOST_ROOM: u64 = 520_223;

/// What a replay costs besides its events, counted while it is played.
#[derive(Drop)]
pub struct Costs {
    alloc: Global,
    pub motes: Vec<MoteCost>,
    /// What is counted of a mote in many events.
    pub hot: [HotCost; MOST_MOTES as usize],
    /// The frames that were sent, by their bytes.
    pub index: FrameIndex,
    /// The operations of each mote's chip up to the last event.
    pub operations: [u64; MOST_MOTES as usize],
    /// Of these, the programs of pages.
    pub page_programs: [u64; MOST_MOTES as usize],
    pub pages: KeptPages,
    pub stamps: Vec<Stamp>,
    /// Whether stamps are wanted.
    pub timed: bool,
    /// How many motes the script has.
    pub count: u8,
    /// The boards are used.
    pub placed: bool,
    /// Rounds or sweeps were played.
    pub scheduled: bool,
    /// Memory ran out: none of these counts is valid.
    pub failed: bool,
}

impl Costs {
    pub fn new(alloc: Global, timed: bool) -> Costs {
        Costs {
            alloc,
            motes: Vec::new(alloc),
            hot: [HotCost::none(); MOST_MOTES as usize],
            index: FrameIndex::new(alloc),
            operations: [0; MOST_MOTES as usize],
            page_programs: [0; MOST_MOTES as usize],
            pages: KeptPages::new(alloc),
            stamps: Vec::new(alloc),
            timed,
            count: 0,
            placed: false,
            scheduled: false,
            failed: false,
        }
    }

    /// What was counted of a mote, nothing where its board was not used.
    pub fn of(&self, mote: usize) -> MoteCost {
        match self.motes.get(mote) {
            Some(cost) => *cost,
            None => MoteCost::new(),
        }
    }

    /// What was counted of a mote in many events.
    pub fn hot_of(&self, mote: usize) -> HotCost {
        match self.hot.get(mote) {
            Some(cost) => *cost,
            None => HotCost::none(),
        }
    }

    /// Takes over the packets of the pages that are not complete at the end of the replay.
    pub fn settle_fills(&mut self, frames: &mut FrameCounter)
        ensures { KeepsFrames frames.old frames.new }
    {
        for index in 0..self.hot.len() {
            self.drop_fill(frames, index);
        }
    }

    /// Whether the mote with this number made no operation on its board since the last event that it did.
    #[inline(always)]
    pub fn is_idle<N: Nor>(&self, mote: u8, boards: &[Metered<N>]) -> bool {
        let index = usize::from(mote);
        if self.operations.len() <= index {
            return false;
        }
        if boards.len() <= index {
            return false;
        }
        self.operations[index] == boards[index].tally().operations
    }

    /// Records whether memory ran out.
    #[inline(always)]
    pub fn unless(&mut self, done: Result<(), AllocError>) {
        if done.is_err() {
            self.failed = true;
        }
    }

    /// Stamps this many lines, which are reported in the event at this moment.
    pub fn stamp(&mut self, lines: usize, now: Moment) {
        if !self.timed || lines == 0 {
            return;
        }
        if self.stamps.push(Stamp { at: now, lines }).is_err() {
            self.failed = true;
        }
    }

    /// The motes begin on boards with these tallies.
    pub fn place<N: Nor>(
        &mut self,
        motes: u8,
        used: Option<u32>,
        wholes: &Wholes,
        boards: &[Metered<N>],
    ) -> Result<(), AllocError> {
        self.placed = true;
        for mote in 0..motes {
            let mut cost = MoteCost::new();
            if let Some(board) = boards.get(usize::from(mote)) {
                cost.tally = *board.tally();
                self.note_made(usize::from(mote), &cost.tally);
            }
            cost.room_begin = match (used, wholes.given_at(mote)) {
                (Some(used), _) => MOST_ROOM.saturating_sub(u64::from(used)),
                (None, Some(given)) => u64::from(given.room),
                (None, None) => 0,
            };
            self.motes.push(cost)?;
            self.pages.add()?;
        }
        if used.is_none() {
            for mote in 0..motes {
                if let Some(given) = wholes.given_at(mote) {
                    self.keep_given(mote, &given);
                }
            }
        }
        Ok(())
    }

    /// Notes the operations that were made on the chip of the mote with this index.
    #[inline(always)]
    pub fn note_made(&mut self, index: usize, tally: &Tally) {
        if index < self.operations.len() {
            self.operations[index] = tally.operations;
            self.page_programs[index] = tally.programs.page.count;
        }
    }

    /// A mote keeps what its board kept before the run.
    fn keep_given(&mut self, mote: u8, given: &Given) {
        for image in 1..SLOTS {
            if let Some(Some(kept)) = given.kept.get(image) {
                let have = Have {
                    version: kept.version,
                    done: kept.done,
                };
                self.pages.set(mote, narrow(image), Some(have));
            }
        }
    }
}
