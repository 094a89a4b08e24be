//! How long motes are on.
ghost use Rattle.std.specs.Prelude.{◌≡◌, ◌<◌, ◌^◌, ◌∷◌, ◌++◌, ℕ, [], List, slice_index_or};
ghost use Rattle.dg_base.specs.declared.events.Event.{Event};
ghost use Rattle.dg_rules.specs.Events.{mote_of, dt_of};
ghost use Rattle.dg_rules.specs.Runs.{Played};
ghost use Rattle.dg_events.specs.Noted.{IsEventPlayed};
ghost use Rattle.dg_events.specs.Told.{nothing_told, told_by};
ghost use Rattle.dg_events.specs.Uptimes.{never_on, up_until, with_start, with_stop, with_outcome, with_outcome_at};
ghost use Rattle.dg_events.specs.Uptimes.{with_time, with_end, IsBefore, HasTimed};

use crate::told::{Told, told_by};
use dg_base::MOST_MOTES;
use dg_script::Report;

/// How long a mote is on.
#[derive(Clone, Copy)]
pub struct Uptime {
    pub on: bool,
    /// The moment at which it last powered on, in milliseconds.
    pub since: u64,
    /// How long it was on before that, in milliseconds.
    pub before: u64,
}

impl Uptime {
    /// It was never on.
    pub fn none() -> Uptime
        ensures { result ≡ never_on }
    {
        Uptime {
            on: false,
            since: 0,
            before: 0,
        }
    }

    /// How long it was on up to this moment, in milliseconds.
    pub fn until(&self, ms: u64) -> u64
        ensures { result ≡ up_until self.now ms }
    {
        if self.on {
            self.before.saturating_add(ms.saturating_sub(self.since))
        } else {
            self.before
        }
    }

    /// It starts at this moment. If it was off, it powers on.
    fn start(&mut self, ms: u64)
        ensures { self.new ≡ with_start self.old ms }
    {
        if !self.on {
            self.on = true;
            self.since = ms;
        }
    }

    /// It goes off at this moment.
    fn stop(&mut self, ms: u64)
        ensures { self.new ≡ with_stop self.old ms }
    {
        self.before = self.until(ms);
        self.on = false;
    }

    /// An event with this outcome ends at this moment.
    fn note(&mut self, ms: u64, told: Told)
        ensures { self.new ≡ with_outcome told self.old ms }
    {
        if told.off {
            self.stop(ms);
        } else if told.started.is_some() {
            self.start(ms);
        }
    }
}

/// The moment, and how long each mote was on up to it.
#[derive(Clone, Copy)]
pub struct Uptimes {
    /// The moment, in milliseconds.
    pub ms: u64,
    /// The motes that a script may have, by number.
    pub motes: [Uptime; MOST_MOTES as usize],
}

impl Uptimes {
    /// Nothing was played.
    pub fn new() -> Uptimes
        ensures { HasTimed result [] }
    {
        Uptimes {
            ms: 0,
            motes: [Uptime::none(); MOST_MOTES as usize],
        }
    }

    /// How long a mote was on.
    pub fn at(&self, mote: usize) -> Uptime
        ensures { result ≡ slice_index_or self.now.motes mote never_on }
    {
        if mote < self.motes.len() {
            return self.motes[mote];
        }
        Uptime::none()
    }

    /// An event comes `dt` milliseconds after the one before, at one of `count` motes, and these lines are reported of it.
    #[inline(always)]
    pub fn note(&mut self, count: u8, mote: u8, dt: u32, reports: &[Report])
        ensures { (past : List Played) (e : Event) (p : Played) → mote ≡ mote_of e → dt ≡ dt_of e
            → IsEventPlayed e reports.now p → IsBefore count past p.before → HasTimed self.old past
            → HasTimed self.new (past ++ p ∷ []) }
    {
        self.advance(count, mote, dt, reports);
    }

    /// An event comes `dt` milliseconds after the one before, of which these lines tell no outcome.
    #[inline(always)]
    pub fn note_quiet(&mut self, dt: u32, reports: &[Report])
        requires { told_by reports.now ≡ nothing_told }
        ensures { (count : ℕ) (past : List Played) (e : Event) (p : Played) → dt ≡ dt_of e → IsEventPlayed e reports.now p
            → IsBefore count past p.before → HasTimed self.old past → HasTimed self.new (past ++ p ∷ []) }
    {
        self.advance_quiet(dt);
    }

    /// The same, by the clock alone.
    #[inline(always)]
    fn advance_quiet(&mut self, dt: u32)
        ensures fits { dt < 2 ^ 32 }
        ensures timed { (count mote : ℕ) → self.new ≡ with_time self.old count mote dt nothing_told }
    {
        self.ms = self.ms.wrapping_add(u64::from(dt));
    }

    /// An event comes `dt` milliseconds after the one before, by the clock alone.
    #[inline(always)]
    fn advance(&mut self, count: u8, mote: u8, dt: u32, reports: &[Report])
        ensures fits { dt < 2 ^ 32 }
        ensures timed { self.new ≡ with_time self.old count mote dt (told_by reports.now) }
    {
        self.ms = self.ms.wrapping_add(u64::from(dt));
        if !reports.is_empty() && mote < count {
            note_told_at(&mut self.motes, usize::from(mote), self.ms, reports);
        }
    }

    /// The times after an event that came `dt` milliseconds later and left a mote off.
    pub fn ended_at(&self, mote: u8, dt: u32) -> Uptimes
        ensures fits { dt < 2 ^ 32 }
        ensures ended { result ≡ with_end self.now mote dt }
    {
        let ms = self.ms.saturating_add(u64::from(dt));
        let mut motes = self.motes;
        let index = usize::from(mote);
        if index < motes.len() {
            motes[index].stop(ms);
        }
        Uptimes { ms, motes }
    }
}

/// The outcome of an event at a mote, of which these lines are reported. Of most events nothing is reported.
#[inline(never)]
fn note_told_at(motes: &mut [Uptime], mote: usize, ms: u64, reports: &[Report])
    ensures { motes.new ≡ with_outcome_at (told_by reports.now) mote motes.old ms }
{
    let told = told_by(reports);
    if mote < motes.len() {
        motes[mote].note(ms, told);
    }
}
