//! When events happen, and with which words.
ghost use Rattle.std.specs.Prelude.{◌≡◌, ℕ, suc, ◌+◌, ◌^◌, ◌<◌, ◌≤◌};
ghost use Rattle.dg_serial_base.specs.BaseEvents.{Base, moment_at};
ghost use Rattle.dg_serial_base.specs.inner.Words.{draw_at};
ghost use Rattle.dg_serial_base.specs.inner.Standing.{IsTime};

use dg_seed::Draws;

/// The moment of the last event, and the draws to come.
#[derive(Drop)]
pub(crate) struct Timeline {
    /// The milliseconds from each event to the next.
    pub(crate) step: u32,
    pub(crate) moment: u64,
    pub(crate) draws: Draws,
}

/// The time and the random number of an event: its moment, and a word.
#[derive(Clone, Copy, Debug, PartialEq, Eq)]
pub(crate) struct Timing {
    pub(crate) now: u64,
    pub(crate) word: u32,
}

impl Timeline {
    /// No event happened yet.
    pub(crate) fn begin(step: u32, seed: u32) -> Timeline
        ensures time { (b : Base) → b.step ≡ step → b.seed ≡ seed → IsTime result b 0 }
        ensures moment { result.moment ≡ 0 }
        ensures step { result.step ≡ step }
    {
        Timeline {
            step,
            moment: 0,
            draws: Draws::of_seed(seed),
        }
    }

    /// The moment and the word of the next event.
    pub(crate) fn next(&mut self) -> Timing
        requires early { self.old.moment < 2 ^ 61 }
        requires little { self.old.step ≤ 60000 }
        ensures time { (b : Base) (n : ℕ) → IsTime self.old b n → IsTime self.new b (suc n) }
        ensures drawn { (b : Base) (n : ℕ) → IsTime self.old b n → (result.now ≡ moment_at b n)
            × (result.word ≡ draw_at b n) }
        ensures now { result.now ≡ self.new.moment }
        ensures moment { self.new.moment ≡ self.old.moment + self.old.step }
        ensures step { self.new.step ≡ self.old.step }
    {
        self.moment += u64::from(self.step);
        let word = self.draws.next();
        Timing {
            now: self.moment,
            word,
        }
    }
}
