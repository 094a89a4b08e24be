//! The numbers of kinds and causes, in the order of their names in keys.
ghost use Rattle.std.specs.Prelude.{◌≡◌};
ghost use Rattle.dg_events.specs.Kinds.{event_number, cause_number};

use dg_rules::{Cause, Event};

/// The names of the kinds of events.
pub const EVENTS: [&str; 7] = ["tick", "hear", "last", "reset", "inject", "order", "frame"];

/// The names of the causes for which events are refused.
pub const CAUSES: [&str; 11] = [
    "off", "frame", "link", "image", "empty", "toolarge", "reserved", "stale", "taken", "worn",
    "oldorder",
];

/// The number of an event's kind.
#[inline(always)]
pub fn event_kind(event: &Event) -> usize
    ensures { result ≡ event_number event.now }
{
    match event {
        Event::Tick { .. } => 0,
        Event::Hear { .. } => 1,
        Event::Last { .. } => 2,
        Event::Reset { .. } => 3,
        Event::Inject { .. } => 4,
        Event::Order { .. } => 5,
        Event::Frame { .. } => 6,
    }
}

/// The number of a cause.
pub fn cause_kind(cause: Cause) -> usize
    ensures { result ≡ cause_number cause }
{
    match cause {
        Cause::Off => 0,
        Cause::Frame => 1,
        Cause::Link => 2,
        Cause::Image => 3,
        Cause::Empty => 4,
        Cause::TooLarge { .. } => 5,
        Cause::Reserved => 6,
        Cause::Stale { .. } => 7,
        Cause::Taken => 8,
        Cause::Worn { .. } => 9,
        Cause::OldOrder { .. } => 10,
    }
}
