//! The kind, the mote and the time of an event.
ghost use Rattle.std.specs.Prelude.{◌≡◌};
ghost use Rattle.dg_rules.specs.Events.{mote_of, dt_of};
ghost use Rattle.dg_shared.specs.EventKinds.{IsEventKind};

use dg_rules::Event;

/// The kind of an event. The two common kinds have their fields here, so that an event is told apart once.
#[derive(Clone, Copy)]
pub enum EventKind {
    Tick {
        mote: u8,
        dt: u32,
        word: u32,
    },
    Last {
        from: u8,
        to: u8,
        dt: u32,
        word: u32,
    },
    /// Any event.
    Other,
}

/// The kind of an event.
#[inline(always)]
pub fn kind_of(event: &Event) -> EventKind
    ensures { IsEventKind result event.now }
{
    match event {
        Event::Tick { mote, dt, word } => EventKind::Tick {
            mote: *mote,
            dt: *dt,
            word: *word,
        },
        Event::Last { from, to, dt, word } => EventKind::Last {
            from: *from,
            to: *to,
            dt: *dt,
            word: *word,
        },
        Event::Hear { .. }
        | Event::Frame { .. }
        | Event::Reset { .. }
        | Event::Inject { .. }
        | Event::Order { .. } => EventKind::Other,
    }
}

/// The mote of an event.
#[inline(always)]
pub fn mote_at(kind: EventKind, event: &Event) -> u8
    requires { IsEventKind kind event.now }
    ensures { result ≡ mote_of event.now }
{
    match kind {
        EventKind::Tick { mote, .. } => mote,
        EventKind::Last { to, .. } => to,
        EventKind::Other => mote_in(event),
    }
}

fn mote_in(event: &Event) -> u8
    ensures { result ≡ mote_of event.now }
{
    match event {
        Event::Tick { mote, .. }
        | Event::Hear { mote, .. }
        | Event::Last { to: mote, .. }
        | Event::Frame { mote, .. }
        | Event::Reset { mote, .. }
        | Event::Inject { mote, .. }
        | Event::Order { mote, .. } => *mote,
    }
}

/// How many milliseconds an event comes after the one before.
#[inline(always)]
pub fn dt_at(kind: EventKind, event: &Event) -> u32
    requires { IsEventKind kind event.now }
    ensures { result ≡ dt_of event.now }
{
    match kind {
        EventKind::Tick { dt, .. } => dt,
        EventKind::Last { dt, .. } => dt,
        EventKind::Other => dt_in(event),
    }
}

fn dt_in(event: &Event) -> u32
    ensures { result ≡ dt_of event.now }
{
    match event {
        Event::Tick { dt, .. }
        | Event::Hear { dt, .. }
        | Event::Last { dt, .. }
        | Event::Frame { dt, .. }
        | Event::Reset { dt, .. }
        | Event::Inject { dt, .. }
        | Event::Order { dt, .. } => *dt,
    }
}
