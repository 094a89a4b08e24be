//! How long a turn of a link's motes lasts.
use std::thread;
use std::time::{Clock as Timer, Duration, Instant};

/// How long a turn in which nothing came lasts, in milliseconds of the rules. It is the time between two packets of a mote.
const TURN: u64 = 16;

/// How long such a turn lasts once nothing has come for `QUIET`, in milliseconds of the rules.
const QUIET_TURN: u64 = 50;

/// How long nothing has to come before turns last `QUIET_TURN`, in milliseconds of the rules.
const QUIET: u64 = 1_000;

/// The shortest turn in which nothing came, in milliseconds of the system, so that such turns do not keep a processor busy.
const LEAST_TURN: u64 = 1;

/// What is known of the current turn. In a turn each mote checks once whether a frame came, in ascending order. So a mote
/// that checks after a mote of its own or a higher number begins the next turn. Only then does the link wait, once for all
/// motes.
#[derive(Drop)]
pub(crate) struct Pace {
    /// When the turn began. None if the system's clock could not be read.
    began: Option<Instant>,
    /// When the last frame came, or the link was opened.
    last: Option<Instant>,
    /// All motes below this one have checked in this turn, if they check at all.
    next: u16,
    /// Whether a frame came in this turn.
    came: bool,
    /// A millisecond of the system counts as this many milliseconds of the rules.
    scale: u64,
}

impl Pace {
    /// The first turn begins now. A millisecond of the system counts as `scale` milliseconds of the rules.
    pub(crate) fn begin<R: Timer>(timer: &R, scale: u64) -> Pace {
        let now = Instant::now(timer).ok();
        Pace {
            began: now,
            last: now,
            next: 0,
            came: false,
            scale,
        }
    }

    /// A mote is about to check. If it begins a turn, this waits for the rest of the previous turn.
    pub(crate) fn look<R: Timer>(&mut self, timer: &R, mote: u16) {
        if mote < self.next {
            self.end_turn(timer);
        }
        self.next = mote.saturating_add(1);
    }

    /// A mote checked, and a frame came or did not.
    pub(crate) fn note<R: Timer>(&mut self, timer: &R, came: bool) {
        if came {
            self.came = true;
            self.last = Instant::now(timer).ok();
        }
    }

    // A turn ends, and the next one begins.
    fn end_turn<R: Timer>(&mut self, timer: &R) {
        if !self.came {
            self.wait(timer);
        }
        self.began = Instant::now(timer).ok();
        self.came = false;
    }

    // Waits for the rest of a turn in which nothing came. If the clock cannot be read, that is a whole turn.
    fn wait<R: Timer>(&self, timer: &R) {
        let quiet = elapsed(self.last, timer).unwrap_or(Duration::ZERO);
        let passed = elapsed(self.began, timer).unwrap_or(Duration::ZERO);
        thread::sleep(timer, turn_after(quiet, self.scale).saturating_sub(passed));
    }
}

// How long a turn lasts if nothing came for this long.
fn turn_after(quiet: Duration, scale: u64) -> Duration {
    if quiet < scaled(QUIET, scale) {
        scaled(TURN, scale)
    } else {
        scaled(QUIET_TURN, scale)
    }
}

// This many milliseconds of the rules by the system's clock, in whole milliseconds and at least one.
fn scaled(millis: u64, scale: u64) -> Duration {
    Duration::from_millis((millis / scale.max(1)).max(LEAST_TURN))
}

/// The time since an instant, if the system reports both.
pub(crate) fn elapsed<R: Timer>(moment: Option<Instant>, timer: &R) -> Option<Duration> {
    moment?.elapsed(timer).ok()
}
