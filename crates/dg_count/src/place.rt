//! The mote, the time step and the kind of an event.
ghost use Rattle.std.specs.Prelude.{◌≡◌};
ghost use Rattle.dg_rules.specs.Events.{mote_of, dt_of};
ghost use Rattle.dg_events.specs.Kinds.{event_number};

use dg_events::event_kind;
use dg_rules::Event;

/// The mote, the time step and the kind of an event.
#[derive(Clone, Copy)]
pub struct EventPlace {
    pub mote: u8,
    pub dt: u32,
    pub kind: usize,
}

#[inline(always)]
pub fn place_of(event: &Event) -> EventPlace
    ensures mote { result.mote ≡ mote_of event.now }
    ensures dt { result.dt ≡ dt_of event.now }
    ensures kind { result.kind ≡ event_number event.now }
{
    let kind = event_kind(event);
    match event {
        Event::Last { to, dt, .. } => EventPlace {
            mote: *to,
            dt: *dt,
            kind,
        },
        Event::Tick { mote, dt, .. }
        | Event::Hear { mote, dt, .. }
        | Event::Reset { mote, dt, .. }
        | Event::Inject { mote, dt, .. }
        | Event::Order { mote, dt, .. }
        | Event::Frame { mote, dt, .. } => EventPlace {
            mote: *mote,
            dt: *dt,
            kind,
        },
    }
}
