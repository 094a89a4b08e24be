//! What is counted of the events at a mote.
ghost use Rattle.std.specs.Prelude.{◌≡◌, ◌∷◌, ◌++◌, ℕ, [], List};
ghost use Rattle.dg_rules.specs.Events.{mote_of};
ghost use Rattle.dg_rules.specs.Runs.{Played};
ghost use Rattle.dg_events.specs.Kinds.{event_number};
ghost use Rattle.dg_events.specs.Told.{nothing_told};
ghost use Rattle.dg_events.specs.Counters.{no_counts, CountsAre};
ghost use Rattle.dg_events.specs.Counts.{is_reset, is_tick};
ghost use Rattle.dg_events.specs.Noted.{up_if, up_for, up_by_cause, with_event};

use crate::counting::add_one;
use crate::kinds::cause_kind;
use crate::told::Told;
use dg_control::IMAGES;
use dg_rules::{Cause, Event};

/// What is counted of the events at a mote. A count wraps after the greatest `u64`, which no run reaches.
#[derive(Clone, Copy)]
pub struct EventCounts {
    /// The events by kind, refused ones included.
    pub events: [u64; 7],
    /// The refused events, by cause.
    pub refused: [u64; 11],
    /// The events in which a cut fired.
    pub cuts: u64,
    /// The successful starts of resets.
    pub by_power: u64,
    /// The successful restarts in ticks.
    pub by_order: u64,
    /// The starts of resets in which a cut fired.
    pub cut_by_power: u64,
    /// The successful starts, by the image that then runs.
    pub of_image: [u64; IMAGES],
}

/// Whether an event is a reset.
fn is_reset(event: &Event) -> bool
    ensures { result ≡ is_reset event.now }
{
    match event {
        Event::Reset { .. } => true,
        Event::Tick { .. }
        | Event::Hear { .. }
        | Event::Last { .. }
        | Event::Inject { .. }
        | Event::Order { .. }
        | Event::Frame { .. } => false,
    }
}

/// Whether an event is a tick.
fn is_tick(event: &Event) -> bool
    ensures { result ≡ is_tick event.now }
{
    match event {
        Event::Tick { .. } => true,
        Event::Reset { .. }
        | Event::Hear { .. }
        | Event::Last { .. }
        | Event::Inject { .. }
        | Event::Order { .. }
        | Event::Frame { .. } => false,
    }
}

/// The count, plus one if `more` holds.
fn up_if(count: u64, more: bool) -> u64
    ensures { result ≡ up_if more count }
{
    if more { count.wrapping_add(1) } else { count }
}

/// One more of this cause, if there is one.
fn add_cause(counts: &mut [u64], cause: Option<Cause>)
    ensures { counts.new ≡ up_by_cause cause counts.old }
{
    match cause {
        Some(cause) => add_one(counts, cause_kind(cause)),
        None => {}
    }
}

/// One more of this image, if there is one.
fn add_image(counts: &mut [u64], image: Option<u8>)
    ensures { counts.new ≡ up_for image counts.old }
{
    match image {
        Some(image) => add_one(counts, usize::from(image)),
        None => {}
    }
}

impl EventCounts {
    /// Nothing was counted.
    pub fn none() -> EventCounts
        ensures value { result ≡ no_counts }
        ensures counts { (mote : ℕ) → CountsAre mote [] result }
    {
        EventCounts {
            events: [0; 7],
            refused: [0; 11],
            cuts: 0,
            by_power: 0,
            by_order: 0,
            cut_by_power: 0,
            of_image: [0; IMAGES],
        }
    }

    /// Counts an event of this kind of which nothing is reported.
    #[inline(always)]
    pub fn note_quiet(&mut self, event: &Event, kind: usize)
        requires { kind ≡ event_number event.now }
        ensures { self.new ≡ with_event self.old event.now nothing_told }
    {
        add_one(&mut self.events, kind);
    }

    /// Counts an event of this kind with its outcome.
    #[inline(never)]
    pub fn note(&mut self, event: &Event, kind: usize, told: Told)
        requires { kind ≡ event_number event.now }
        ensures { self.new ≡ with_event self.old event.now told }
    {
        let reset = is_reset(event);
        let tick = is_tick(event);
        let started = told.started.is_some();
        add_one(&mut self.events, kind);
        add_cause(&mut self.refused, told.refused);
        self.cuts = up_if(self.cuts, told.off);
        self.by_power = up_if(self.by_power, reset && started);
        self.by_order = up_if(self.by_order, tick && started);
        self.cut_by_power = up_if(self.cut_by_power, reset && told.off);
        add_image(&mut self.of_image, told.started);
    }
}
