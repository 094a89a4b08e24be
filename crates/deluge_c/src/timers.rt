//! The Trickle timer, whose state lies with the caller.
ghost use Rattle.std.specs.Prelude.{◌≡◌, ◌≢◌, ◌↔◌, ◌^◌, ◌<◌, ◌≤◌, IsTrue};
ghost use Rattle.dg_trickle.specs.Times.{shortest_interval, longest_interval};
ghost use Rattle.dg_trickle.specs.Steps.{interval_begun, started, after_same, after_other, after_tick, act_of};
ghost use Rattle.deluge_c.specs.Answers.{done};
ghost use Rattle.deluge_c.specs.Timers.{timer_of_fields, RunsAt, act_number};

use crate::answers::{DONE, RANGE};
use dg_trickle::{Act, LONGEST_INTERVAL, REDUNDANCY, SHORTEST_INTERVAL};

/// The moments of a clock end before this one, in milliseconds.
const CLOCK_END: u64 = 1 << 62;

/// A timer, which lies with the caller. It is made by `deluge_timer_start`.
#[repr(C)]
#[derive(Clone, Copy, PartialEq, Eq)]
pub struct TimerFields {
    /// When the interval began, in milliseconds.
    pub begin: u64,
    /// The size of the interval, 500 to 64,000 milliseconds.
    pub interval: u32,
    /// How long after its beginning it fires, in milliseconds.
    pub fires_after: u32,
    /// How many consistent transmissions were heard in it (RFC 6206).
    pub heard: u16,
    /// It has fired.
    pub fired: bool,
}

/// Starts a timer: the shortest interval begins at `now`.
#[unsafe(no_mangle)]
pub extern "C" fn deluge_timer_start(timer: &mut TimerFields, now: u64, word: u32) -> u32
    ensures answer { (result ≡ done) ↔ (now < 2 ^ 62) }
    ensures started { result ≡ done → timer_of_fields timer.new ≡ started now word }
    ensures runs { result ≡ done → RunsAt timer.new now }
    ensures refused { result ≢ done → timer.new ≡ timer.old }
{
    if now >= CLOCK_END {
        return RANGE;
    }
    *timer = begun(SHORTEST_INTERVAL, now, word);
    DONE
}

/// Notes that a consistent transmission was heard (RFC 6206).
#[unsafe(no_mangle)]
pub extern "C" fn deluge_timer_same(timer: &mut TimerFields) -> u32
    ensures answer { result ≡ done }
    ensures noted { timer_of_fields timer.new ≡ after_same (timer_of_fields timer.old) }
{
    timer.heard = timer.heard.saturating_add(1);
    DONE
}

/// Notes that an inconsistent transmission was heard (RFC 6206): the shortest interval begins, unless it runs.
#[unsafe(no_mangle)]
pub extern "C" fn deluge_timer_other(timer: &mut TimerFields, now: u64, word: u32) -> u32
    ensures answer { (result ≡ done) ↔ RunsAt timer.old now }
    ensures noted { result ≡ done → timer_of_fields timer.new ≡ after_other (timer_of_fields timer.old) now word }
    ensures runs { result ≡ done → RunsAt timer.new now }
    ensures refused { result ≢ done → timer.new ≡ timer.old }
{
    if !runs_at(timer, now) {
        return RANGE;
    }
    if timer.interval > SHORTEST_INTERVAL {
        *timer = begun(SHORTEST_INTERVAL, now, word);
    }
    DONE
}

/// Looks at the clock, and answers what is due: 0 for nothing, 1 to send, 2 if nothing is sent since enough was heard, 3 if the
/// next interval began.
#[unsafe(no_mangle)]
pub extern "C" fn deluge_timer_tick(
    timer: &mut TimerFields,
    now: u64,
    word: u32,
    act: &mut u32,
) -> u32
    ensures answer { (result ≡ done) ↔ RunsAt timer.old now }
    ensures ticked { result ≡ done → timer_of_fields timer.new ≡ after_tick (timer_of_fields timer.old) now word }
    ensures act { result ≡ done → act.new ≡ act_number (act_of (timer_of_fields timer.old) now) }
    ensures runs { result ≡ done → RunsAt timer.new now }
    ensures refused { result ≢ done → (timer.new ≡ timer.old) × (act.new ≡ act.old) }
{
    if !runs_at(timer, now) {
        return RANGE;
    }
    *act = act_number(ticked(timer, now, word));
    DONE
}

/// What is due at a moment.
fn ticked(timer: &mut TimerFields, now: u64, word: u32) -> Act
    requires { RunsAt timer.old now }
    ensures ticked { timer_of_fields timer.new ≡ after_tick (timer_of_fields timer.old) now word }
    ensures act { result ≡ act_of (timer_of_fields timer.old) now }
    ensures runs { RunsAt timer.new now }
{
    if !timer.fired {
        if now < timer.begin + u64::from(timer.fires_after) {
            return Act::Nothing;
        }
        timer.fired = true;
        return if timer.heard < REDUNDANCY {
            Act::Send
        } else {
            Act::Quiet
        };
    }
    if now < timer.begin + u64::from(timer.interval) {
        return Act::Nothing;
    }
    let longer = (2 * timer.interval).min(LONGEST_INTERVAL);
    *timer = begun(longer, now, word);
    Act::Expired
}

/// The number of an act.
fn act_number(act: Act) -> u32
    ensures { result ≡ act_number act }
{
    match act {
        Act::Nothing => 0,
        Act::Send => 1,
        Act::Quiet => 2,
        Act::Expired => 3,
    }
}

/// Whether these are the fields of a timer that runs, at a moment that a clock may show.
fn runs_at(timer: &TimerFields, now: u64) -> bool
    ensures { IsTrue result ↔ RunsAt timer.now now }
{
    let interval = timer.interval;
    let fires = timer.fires_after;
    interval >= SHORTEST_INTERVAL
        && interval <= LONGEST_INTERVAL
        && fires >= interval / 2
        && fires < interval
        && timer.begin < CLOCK_END
        && now < CLOCK_END
}

/// An interval begins. The moment from which on it may fire is drawn from its second half.
fn begun(interval: u32, now: u64, word: u32) -> TimerFields
    requires shortest { shortest_interval ≤ interval }
    requires longest { interval ≤ longest_interval }
    requires moment { now < 2 ^ 62 }
    ensures value { timer_of_fields result ≡ interval_begun interval now word }
    ensures runs { RunsAt result now }
{
    let half = interval / 2;
    TimerFields {
        begin: now,
        interval,
        fires_after: half + word % half,
        heard: 0,
        fired: false,
    }
}
