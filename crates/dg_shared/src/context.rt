//! The context of an event.
ghost use Rattle.std.specs.Prelude.{◌^◌, ◌<◌};
ghost use Rattle.dg_rules.specs.Sizes.{most_motes};

use crate::events::EventKind;
use crate::shared::Shared;

/// Where and when an event is applied: its inputs besides its board and what the mote there runs.
#[derive(Clone, Copy)]
pub struct EventContext<'a> {
    /// What the motes of the world share.
    pub shared: &'a Shared,
    /// The kind of the event.
    pub kind: EventKind,
    /// The number of its mote.
    pub mote: u8,
    /// The moment, in milliseconds.
    pub moment: u64,
    /// Whether the board is known: it may be mounted again by binary search.
    pub known: bool,
    /// Whether a frame that is sent is reported.
    pub reported: bool,
    ghost in_world: { mote < most_motes },
    ghost early: { moment < 2 ^ 62 },
}
