//! When events are applied, and with which words.
ghost use Rattle.std.specs.Prelude.{◌≡◌, ◌+◌, ◌-◌, ◌^◌, ◌<◌, ◌≤◌, min};
ghost use Rattle.rand_pcg.specs.Pcg.{pcg32};
ghost use Rattle.dg_base.specs.Clock.{Answered};
ghost use Rattle.dg_seed.specs.Draws.{first_generator, generator_of};
ghost use Rattle.dg_serve.specs.inner.Stretches.{later};

use dg_base::Clock;
use dg_seed::Draws;

/// The moment of the last event, what the clock answered last, and the draws to come.
#[derive(Drop)]
pub struct Timeline {
    /// In milliseconds since the service began, by the times of its events.
    pub moment: u64,
    pub reading: u64,
    pub draws: Draws,
}

/// The time and the random number of an event: the milliseconds since the event before, and a word.
#[derive(Clone, Copy, Debug, PartialEq, Eq)]
pub struct Timing {
    pub dt: u32,
    pub word: u32,
}

impl Timeline {
    /// Reads the clock for the origin. The draws are those of a seed.
    pub fn begin<C: Clock>(clock: &mut C, seed: u32) -> Timeline
        ensures moment { result.moment ≡ 0 }
        ensures draws { generator_of result.draws ≡ first_generator seed }
        ensures told { Answered (C.told clock.old) (C.told clock.new) result.reading }
        ensures reached { result.reading ≤ C.reached clock.new }
        ensures rises { C.reached clock.old ≤ C.reached clock.new }
    {
        Timeline {
            moment: 0,
            reading: clock.read(),
            draws: Draws::of_seed(seed),
        }
    }

    /// The timing of the next event: the clock is read and a word is taken.
    pub fn next<C: Clock>(&mut self, clock: &mut C) -> Timing
        requires known { self.old.reading ≤ C.reached clock.old }
        requires early { self.old.moment < 2 ^ 60 }
        ensures dt { result.dt ≡ later self.old.reading self.new.reading }
        ensures rises { self.old.reading ≤ self.new.reading }
        ensures told { Answered (C.told clock.old) (C.told clock.new) self.new.reading }
        ensures word { (result.word, generator_of self.new.draws) ≡ pcg32 (generator_of self.old.draws) }
        ensures moment { self.new.moment ≡ self.old.moment + result.dt }
        ensures reached { self.new.reading ≤ C.reached clock.new }
        ensures goes_on { C.reached clock.old ≤ C.reached clock.new }
        ensures short { result.dt < 2 ^ 32 }
        ensures drawn { result.word < 2 ^ 32 }
    {
        let reading = clock.read();
        let dt = as_event_time(reading - self.reading);
        self.reading = reading;
        self.moment += u64::from(dt);
        let word = self.draws.next();
        Timing { dt, word }
    }
}

/// `passed` milliseconds, or the most that an event can hold.
fn as_event_time(passed: u64) -> u32
    ensures { result ≡ min passed (2 ^ 32 - 1) }
{
    match u32::try_from(passed) {
        Ok(dt) => dt,
        Err(_) => u32::MAX,
    }
}
