//! Which events make the board of their mote known: it may be mounted again by binary search.
ghost use Rattle.std.specs.Prelude.{◌≡◌, ◌↔◌, ◌<◌, ℕ, IsTrue};
ghost use Rattle.dg_rules.specs.Sizes.{most_motes};
ghost use Rattle.dg_rules.specs.World.{World as RuleWorld};
ghost use Rattle.dg_rules.specs.Events.{mote_of};
ghost use Rattle.dg_base.specs.declared.events.Event.TheVariants.{Inject};
ghost use Rattle.dg_shared.specs.Shareds.{IsShared};
ghost use Rattle.dg_shared.specs.LookedInto.{MakesKnown};
ghost use Rattle.dg_shared.specs.EventKinds.{IsEventKind};

use crate::events::EventKind;
use crate::shared::Shared;
use dg_rules::{Event, ImageVersion};

/// Whether an event makes the board of its mote, which has this number, known, if that is orderly after it.
#[inline(always)]
pub fn makes_known(shared: &Shared, mote: u8, kind: EventKind, event: &Event) -> bool
    requires mote { mote < most_motes }
    requires kind { IsEventKind kind event.now }
    ensures { (w : RuleWorld) → IsShared shared.now w → mote_of event.now ≡ mote → IsTrue result ↔ MakesKnown w event.now }
{
    match kind {
        EventKind::Tick { .. } => false,
        EventKind::Last { .. } => false,
        EventKind::Other => looks_into(shared, mote, event),
    }
}

fn looks_into(shared: &Shared, mote: u8, event: &Event) -> bool
    requires { mote < most_motes }
    ensures { (w : RuleWorld) → IsShared shared.now w → mote_of event.now ≡ mote → IsTrue result ↔ MakesKnown w event.now }
{
    match event {
        Event::Tick { .. } | Event::Hear { .. } | Event::Last { .. } | Event::Frame { .. } => false,
        Event::Reset { .. } => true,
        Event::Order { image, .. } => shared.knows(mote, *image),
        Event::Inject { image, version, .. } => is_declared(shared, mote, *image, *version),
    }
}

/// Whether an image is declared that is not golden, and that a mote knows.
fn is_declared(shared: &Shared, mote: u8, image: u8, version: u32) -> bool
    requires { mote < most_motes }
    ensures { (w : RuleWorld) (dt word : ℕ) → IsShared shared.now w
        → IsTrue result ↔ MakesKnown w (Inject mote image version dt word) }
{
    if !shared.knows(mote, image) {
        return false;
    }
    if image == 0 {
        return false;
    }
    match shared.images.get(ImageVersion { image, version }) {
        None => false,
        Some(_) => true,
    }
}
