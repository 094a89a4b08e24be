//! What is counted of the events at motes.
ghost use Rattle.std.specs.Prelude.{◌≡◌, ◌∷◌, ◌++◌, [], List, slice_index_or};
ghost use Rattle.dg_rules.specs.Events.{mote_of};
ghost use Rattle.dg_rules.specs.Runs.{Played};
ghost use Rattle.dg_events.specs.Kinds.{event_number};
ghost use Rattle.dg_events.specs.Told.{nothing_told, told_by};
ghost use Rattle.dg_events.specs.Counters.{no_counts, AllCounted, HasCounted};
ghost use Rattle.dg_events.specs.Noted.{IsEventPlayed, IsOutcome};

use crate::event_counts::EventCounts;
use crate::told::{Told, told_by};
use dg_base::MOST_MOTES;
use dg_rules::Event;
use dg_script::Report;

/// What is counted of the events at motes, by what is reported of each.
#[derive(Clone, Copy)]
pub struct EventCounter {
    /// How many events were played.
    pub all: u64,
    /// The counts of each mote that a script may have, by its number.
    pub motes: [EventCounts; MOST_MOTES as usize],
}

impl EventCounter {
    /// Nothing was played.
    pub fn new() -> EventCounter
        ensures { HasCounted result [] }
    {
        EventCounter {
            all: 0,
            motes: [EventCounts::none(); MOST_MOTES as usize],
        }
    }

    /// What was counted of the events at a mote.
    pub fn at(&self, mote: usize) -> EventCounts
        ensures { result ≡ slice_index_or self.now.motes mote no_counts }
    {
        if mote < self.motes.len() {
            return self.motes[mote];
        }
        EventCounts::none()
    }

    /// Counts an event of this kind at this mote, of which these lines are reported.
    #[inline(always)]
    pub fn note(&mut self, event: &Event, kind: usize, mote: u8, reports: &[Report])
        requires kind { kind ≡ event_number event.now }
        requires mote { mote ≡ mote_of event.now }
        ensures { (past : List Played) (p : Played) → IsEventPlayed event.now reports.now p → HasCounted self.old past
            → HasCounted self.new (past ++ p ∷ []) }
    {
        self.all = self.all.wrapping_add(1);
        if reports.is_empty() {
            note_quiet_at(&mut self.motes, usize::from(mote), event, kind);
        } else {
            note_told_at(&mut self.motes, usize::from(mote), event, kind, reports);
        }
    }

    /// Counts an event of this kind at this mote, of which these lines tell no outcome.
    #[inline(always)]
    pub fn note_quiet(&mut self, event: &Event, kind: usize, mote: u8, reports: &[Report])
        requires kind { kind ≡ event_number event.now }
        requires mote { mote ≡ mote_of event.now }
        requires quiet { told_by reports.now ≡ nothing_told }
        ensures { (past : List Played) (p : Played) → IsEventPlayed event.now reports.now p → HasCounted self.old past
            → HasCounted self.new (past ++ p ∷ []) }
    {
        self.all = self.all.wrapping_add(1);
        note_quiet_at(&mut self.motes, usize::from(mote), event, kind);
    }
}

/// Counts an event of this kind at a mote, of which these lines are reported. Of most events nothing is reported.
#[inline(never)]
fn note_told_at(
    motes: &mut [EventCounts],
    mote: usize,
    event: &Event,
    kind: usize,
    reports: &[Report],
)
    requires kind { kind ≡ event_number event.now }
    requires mote { mote ≡ mote_of event.now }
    ensures { (past : List Played) (p : Played) → IsEventPlayed event.now reports.now p → AllCounted motes.old past
        → AllCounted motes.new (past ++ p ∷ []) }
{
    let told = told_by(reports);
    note_at(motes, mote, event, kind, told);
}

/// Counts an event of this kind at a mote, with its outcome.
fn note_at(motes: &mut [EventCounts], mote: usize, event: &Event, kind: usize, told: Told)
    requires kind { kind ≡ event_number event.now }
    requires mote { mote ≡ mote_of event.now }
    ensures { (past : List Played) (p : Played) → IsOutcome event.now told p → AllCounted motes.old past
        → AllCounted motes.new (past ++ p ∷ []) }
{
    if mote < motes.len() {
        motes[mote].note(event, kind, told);
    }
}

/// Counts an event of this kind at a mote, of which nothing is reported.
#[inline(always)]
fn note_quiet_at(motes: &mut [EventCounts], mote: usize, event: &Event, kind: usize)
    requires kind { kind ≡ event_number event.now }
    requires mote { mote ≡ mote_of event.now }
    ensures { (past : List Played) (p : Played) → IsOutcome event.now nothing_told p → AllCounted motes.old past
        → AllCounted motes.new (past ++ p ∷ []) }
{
    if mote < motes.len() {
        motes[mote].note_quiet(event, kind);
    }
}
