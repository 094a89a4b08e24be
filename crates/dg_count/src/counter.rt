//! What is counted of a replay.
ghost use Rattle.std.specs.Prelude.{◌≡◌, ◌<◌, ◌^◌, true, false, List, [], length, map, IfSome};
ghost use Rattle.dg_volume.specs.Store.{Store};
ghost use Rattle.dg_rules.specs.Runs.{Played};
ghost use Rattle.dg_rules.specs.World.{World as RuleWorld};
ghost use Rattle.dg_base.specs.declared.events.Step.{Step as RuleStep};
ghost use Rattle.dg_nor.specs.Device.{Device};
ghost use Rattle.dg_moments.specs.Looking.{ReadsBoards};
ghost use Rattle.dg_moments.specs.Moments.{is_loaded, newest_at};
ghost use Rattle.dg_moments.specs.Wholes.{KnowsImage};
ghost use Rattle.dg_meter.specs.Meters.{metered_device};
ghost use Rattle.dg_count.specs.Chips.{AreTallies};
ghost use Rattle.dg_count.specs.Runs.{HasSeen, HasSeenEnd};
ghost use Rattle.dg_count.specs.Ended.{counts_at, times_until, all_until};

use crate::costs::Costs;
use crate::place::EventPlace;
use crate::tallies::tallies_of;
use dg_base::MOST_MOTES;
use dg_cost_text::Moment;
use dg_events::{
    EventCounter, EventCounts, FrameCounter, Uptimes, add_one, have_lines_tell_what_became_whole,
};
use dg_meter::{Metered, Tally};
use dg_moments::{Given, Wholes};
use dg_nor::Nor;
use std::alloc::Global;

/// What a replay costs, counted while it is played.
#[derive(Drop)]
pub struct Counter {
    /// What is counted of its events.
    pub events: EventCounter,
    /// How many motes' boards are used: none before the `golden` or `boards` line is done.
    pub placed: u8,
    /// The moment, and how long each mote was on.
    pub times: Uptimes,
    /// The frames that motes sent and heard.
    pub frames: FrameCounter,
    /// When images became whole.
    pub wholes: Wholes,
    /// What they cost.
    pub costs: Costs,
    /// The event that found no image to start, and ended the replay.
    pub ended: Option<EventPlace>,
    /// The operations that formatted the chips, or were made on them before they were used as they are.
    pub formatted: [Tally; MOST_MOTES as usize],
    /// The operations that were made on the chips up to the end of the replay.
    pub settled: [Tally; MOST_MOTES as usize],
}

impl Counter {
    /// Nothing was played. This is given of each board, by its mote: what it keeps, or nothing, if it is no volume.
    pub fn new(alloc: Global, given: Vec<Option<Given>>, timed: bool) -> Counter
        ensures seen { (initial now : List Device) → ReadsBoards given.items initial → HasSeen result initial now [] [] }
    {
        have_lines_tell_what_became_whole();
        Counter {
            events: EventCounter::new(),
            placed: 0,
            times: Uptimes::new(),
            frames: FrameCounter::new(alloc),
            wholes: Wholes::new(alloc, given),
            costs: Costs::new(alloc, timed),
            ended: None,
            formatted: [Tally::none(); MOST_MOTES as usize],
            settled: [Tally::none(); MOST_MOTES as usize],
        }
    }

    /// Memory ran out: none of these counts is valid.
    pub fn failed(&self) -> bool
        ensures frames { result ≡ false → self.now.frames.lost ≡ false }
        ensures wholes { result ≡ false → self.now.wholes.lost ≡ false }
    {
        self.costs.failed || self.frames.lost || self.wholes.lost
    }

    /// The replay ended on these boards. What was counted of events, times and frames stays counted.
    pub fn settle<N: Nor>(&mut self, boards: &[Metered<N>])
        ensures seen { (initial now : List Device) (stores : List Store) (played : List Played)
            → HasSeen self.old initial now stores played → HasSeen self.new initial now stores played }
        ensures end { (initial now : List Device) (stores : List Store) (played : List Played) (w : RuleWorld) (step : RuleStep)
            → HasSeenEnd self.old initial now stores played w step → HasSeenEnd self.new initial now stores played w step }
        ensures tallies { AreTallies self.new.settled (map (metered_device N.device) boards.now) }
    {
        self.settled = tallies_of(boards);
        self.costs.settle_fills(&mut self.frames);
    }

    /// What was counted of the events at a mote, plus this event if it was there and found no image to start.
    pub fn events_at(&self, ended: Option<EventPlace>, mote: usize) -> EventCounts
        ensures { result ≡ counts_at ended self.now.events mote }
    {
        let mut counts = self.events.at(mote);
        let Some(ended) = ended else {
            return counts;
        };
        if usize::from(ended.mote) != mote {
            return counts;
        }
        add_one(&mut counts.events, ended.kind);
        counts
    }

    /// The last event that was played, and its moment.
    #[inline(always)]
    pub fn now(&self) -> Moment
        ensures event { result.event ≡ self.now.events.all }
        ensures ms { result.ms ≡ self.now.times.ms }
    {
        Moment {
            event: self.events.all,
            ms: self.times.ms,
        }
    }

    /// The times up to the end, with this event if it found no image to start.
    pub fn times_until(&self, ended: Option<EventPlace>) -> Uptimes
        ensures times { result ≡ times_until ended self.now.times }
        ensures fits { IfSome ended (λ place. place.dt < 2 ^ 32) }
    {
        match ended {
            Some(ended) => self.times.ended_at(ended.mote, ended.dt),
            None => self.times,
        }
    }

    /// The last event and its moment, which is this event if it found no image to start.
    pub fn last(&self, ended: Option<EventPlace>) -> Moment
        ensures events { result.event ≡ all_until ended self.now.events.all }
        ensures ms { result.ms ≡ (times_until ended self.now.times).ms }
    {
        match ended {
            Some(_) => Moment {
                event: self.events.all.saturating_add(1),
                ms: self.times_until(ended).ms,
            },
            None => self.now(),
        }
    }

    /// The last moment at which the newest version of an image that any mote keeps whole became whole at the last of the motes,
    /// if they all keep it.
    pub fn newest(&self, image: u8) -> Option<Moment>
        ensures { (stores : List Store) (events : List Played) → self.now.placed ≡ length stores → is_loaded image ≡ true
            → KnowsImage self.now.wholes stores events image → result ≡ newest_at stores events image }
    {
        self.wholes.newest(self.placed, image)
    }
}
