//! The Trickle timer of RFC 6206: when to send, when a transmission is suppressed, and when to restart.
//!
//! Times are in milliseconds, and a `word` is a random number. Section 4.1 of the RFC leaves three parameters
//! open: here Imin is 500 ms, Imax is Imin doubled seven times, and k is 1.
#![tactic(auto)]

ghost use Rattle.std.specs.Prelude.{◌≡◌, ℕ, ◌<◌, ◌≤◌, ◌^◌, List, [], ◌∷◌, Contains};
ghost use Rattle.dg_trickle.specs.Times.{shortest_interval, longest_interval, redundancy};
ghost use Rattle.dg_trickle.specs.Timer.{Timer};
ghost use Rattle.dg_trickle.specs.Steps.{interval_begun, started, after_same, after_other, after_tick, act_of, IsRunning};
ghost use Rattle.dg_trickle.specs.Runs.{Call, after, timer, Heard, current_marks, sends, IsDoubled, DoublesOrFalls};

use std::marker::Model;

/// Imin, the shortest interval, in milliseconds.
pub const SHORTEST_INTERVAL: u32 = 500;

/// Imax, the longest interval, in milliseconds: the shortest, doubled seven times.
pub const LONGEST_INTERVAL: u32 = 64_000;

/// k, the redundancy constant: a timer sends if it heard fewer consistent transmissions than this.
pub const REDUNDANCY: u16 = 1;

/// What a tick asks of its caller.
#[derive(Clone, Copy, Debug, PartialEq, Eq)]
pub enum Act {
    /// The timer fired: transmit.
    Send,
    /// The timer fired, but enough was heard: transmit nothing.
    Quiet,
    /// The interval is over, and the next one began.
    Expired,
    /// Neither time has been reached.
    Nothing,
}

/// A Trickle timer.
#[derive(Clone, Copy, Debug, PartialEq, Eq)]
pub struct Trickle {
    interval: u32,
    begin: u64,
    fires_after: u32,
    heard: u16,
    fired: bool,
}

impl Model for Trickle {
    ghost use Rattle.std.specs.Prelude.{◌<◌, ◌^◌};
    ghost use Rattle.dg_trickle.specs.Timer.{Timer};

    ghost Value = { Timer };

    ghost use Rattle.dg_trickle.specs.Steps.{IsRunning};

    ghost view = { λ a. record {
      interval = a.interval;
      begin = a.begin;
      t = a.fires_after;
      count = a.heard;
      fired = a.fired;
    } };

    ghost invariant = { λ a. IsRunning (record {
      interval = a.interval;
      begin = a.begin;
      t = a.fires_after;
      count = a.heard;
      fired = a.fired;
    }) × (a.begin < 2 ^ 62) };

    ghost inverse = { λ s. record {
      interval = s.interval;
      begin = s.begin;
      fires_after = s.t;
      heard = s.count;
      fired = s.fired;
    } };
}

impl Trickle {
    /// Starts a timer: the shortest interval begins at `now`.
    pub fn new(now: u64, word: u32) -> Self
        requires { now < 2 ^ 62 }
        ensures value { result ≡ started now word }
        ensures running { IsRunning result }
    {
        Self::begin(SHORTEST_INTERVAL, now, word)
    }

    /// Notes that a consistent transmission was heard (RFC 6206).
    pub fn heard_same(&mut self)
        ensures value { self.new ≡ after_same self.old }
        ensures running { IsRunning self.new }
    {
        self.heard = self.heard.saturating_add(1);
    }

    /// Notes that an inconsistent transmission was heard (RFC 6206): the shortest interval begins, unless it is running.
    pub fn heard_other(&mut self, now: u64, word: u32)
        requires { now < 2 ^ 62 }
        ensures value { self.new ≡ after_other self.old now word }
        ensures running { IsRunning self.new }
    {
        if self.interval > SHORTEST_INTERVAL {
            *self = Self::begin(SHORTEST_INTERVAL, now, word);
        }
    }

    /// Advances the timer to the time `now`.
    #[inline(always)]
    pub fn tick(&mut self, now: u64, word: u32) -> Act
        requires { now < 2 ^ 62 }
        ensures act { result ≡ act_of self.old now }
        ensures value { self.new ≡ after_tick self.old now word }
        ensures running { IsRunning self.new }
    {
        if !self.fired {
            if now < self.begin + u64::from(self.fires_after) {
                return Act::Nothing;
            }
            self.fired = true;
            return if self.heard < REDUNDANCY {
                Act::Send
            } else {
                Act::Quiet
            };
        }
        if now < self.begin + u64::from(self.interval) {
            return Act::Nothing;
        }
        let longer = (2 * self.interval).min(LONGEST_INTERVAL);
        *self = Self::begin(longer, now, word);
        Act::Expired
    }

    /// The time before which a tick does nothing: when the timer fires, or when its interval is over.
    pub fn due(&self) -> u64
        ensures waits { (moment word : ℕ) → moment < result
            → (act_of self.now moment ≡ Act.Nothing) × (after_tick self.now moment word ≡ self.now) }
        ensures acts { (moment : ℕ) → result ≤ moment → act_of self.now moment ≡ Act.Nothing → ⊥ }
    {
        self.begin
            + u64::from(if self.fired {
                self.interval
            } else {
                self.fires_after
            })
    }

    // Begins an interval. The time from which on the timer may fire is drawn from its second half.
    fn begin(interval: u32, now: u64, word: u32) -> Self
        requires shortest { shortest_interval ≤ interval }
        requires longest { interval ≤ longest_interval }
        requires moment { now < 2 ^ 62 }
        ensures value { result ≡ interval_begun interval now word }
        ensures running { IsRunning result }
    {
        let half = interval / 2;
        Self {
            interval,
            begin: now,
            fires_after: half + word % half,
            heard: 0,
            fired: false,
        }
    }
}

/// The parameters are those of this profile: Imin is 500 ms, Imax is 64,000 ms, and k is 1.
pub fn the_parameters_are_these()
    ensures shortest { SHORTEST_INTERVAL ≡ shortest_interval }
    ensures longest { LONGEST_INTERVAL ≡ longest_interval }
    ensures redundancy { REDUNDANCY ≡ redundancy }
{}

/// Bounds that hold in every run, for any calls, in any order and at any times. The interval is the shortest one
/// doubled up to seven times, it only doubles or falls back to the shortest, and t lies in its second half.
pub fn interval_bounds()
    ensures running { (start word : ℕ) (calls : List Call) → IsRunning (timer start word calls) }
    ensures sizes { (start word : ℕ) (calls : List Call) → IsDoubled (timer start word calls) }
    ensures changes { (start word : ℕ) (earlier : List Call) (call : Call)
        → DoublesOrFalls (timer start word earlier) (timer start word (call ∷ earlier)) }
    ensures step { (s : Timer) (call : Call) → IsRunning s → IsRunning (after s call) }
{}

/// Suppression, in every run: a tick sends only if no consistent transmission was heard and nothing was sent
/// since the interval began. It is suppressed only if a consistent transmission was heard. So a timer sends at
/// most once per interval.
pub fn suppression()
    ensures untouched { (start word : ℕ) (earlier : List Call) (moment : ℕ)
        → act_of (timer start word earlier) moment ≡ Act.Send → current_marks start word earlier ≡ [] }
    ensures heard { (start word : ℕ) (earlier : List Call) (moment : ℕ)
        → act_of (timer start word earlier) moment ≡ Act.Quiet
        → Contains (current_marks start word earlier) Heard }
    ensures once { (start word : ℕ) (calls : List Call) → sends (current_marks start word calls) ≤ 1 }
{}
