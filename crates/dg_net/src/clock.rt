//! The clock of the system.
ghost use Rattle.std.specs.Prelude.{◌≡◌, ◌≤◌, None};

use crate::pace::elapsed;
use dg_base::Clock;
use std::time::{Clock as Timer, Instant};

/// The clock of the system, in whole milliseconds since it was made. If the system's clock can't be read, it repeats
/// its last answer. A scaled clock runs `scale` times as fast.
#[derive(Drop)]
pub struct SystemClock<'r, R> {
    timer: &'r R,
    began: Option<Instant>,
    last: u64,
    scale: u64,
}

impl<'r, R: Timer> SystemClock<'r, R> {
    /// A clock that begins at 0 now.
    pub fn new(timer: &'r R) -> SystemClock<'r, R>
        ensures { result.last ≡ 0 }
    {
        SystemClock::scaled(timer, 1)
    }

    /// The same, but each millisecond of the system counts as `scale` milliseconds.
    pub fn scaled(timer: &'r R, scale: u64) -> SystemClock<'r, R>
        ensures { result.last ≡ 0 }
    {
        SystemClock {
            timer,
            began: Instant::now(timer).ok(),
            last: 0,
            scale,
        }
    }
}

impl<'r, R: Timer> Clock for SystemClock<'r, R> {
    ghost told = { λ _. None };

    ghost reached = { λ c. c.last };

    fn read(&mut self) -> u64 {
        let now = passed(self.began, self.timer)
            .unwrap_or(0)
            .saturating_mul(self.scale);
        self.last = self.last.max(now);
        self.last
    }
}

// The milliseconds since an instant, if the system reports them.
fn passed<R: Timer>(began: Option<Instant>, timer: &R) -> Option<u64> {
    u64::try_from(elapsed(began, timer)?.as_millis()).ok()
}
