//! Which boards a world knows: those that may be mounted again by binary search.
ghost use Rattle.std.specs.Prelude.{◌||◌, ◌≡◌, ◌≢◌, ◌<◌, ℕ, List, Option, Some, None, true, false, length};
ghost use Rattle.std.specs.Prelude.{slice_index_or};
ghost use Rattle.dg_nor.specs.Device.{Device};
ghost use Rattle.dg_rules.specs.Sizes.{most_motes};
ghost use Rattle.dg_rules.specs.World.{World as RuleWorld};
ghost use Rattle.dg_world.specs.Worlds.{IsWorld};
ghost use Rattle.dg_world.specs.Known.{known_of};
ghost use Rattle.dg_world.specs.inner.Sees.{KnownAfter};

use crate::world::World;
use dg_node::Node;
use dg_shared::MOST_MOTES;

impl World {
    /// Whether the board of a mote is known: it is orderly, and the world mounts it again by binary search. A reset makes the
    /// board of its mote known, and so do an injection and an order that are not refused as `reserved` or `image`.
    pub fn known(&self, mote: u8) -> bool
        requires { (boards : List Device) × (w : RuleWorld) × IsWorld self.now boards w × (mote < length w.sites) }
        ensures { result ≡ known_of self.now mote }
    {
        has(&self.known, mote)
    }
}

/// Whether a board is known, or was made known.
pub(crate) fn is_watched(known: bool, makes: bool) -> bool
    ensures { result ≡ (known || makes) }
{
    known || makes
}

/// Whether a board is known after an event that leaves `runs` there. `seen` is whether the chip is orderly, if that was seen.
/// `known` is whether the board was known before or the event makes it known.
pub(crate) fn known_after(runs: &Option<Node>, seen: Option<bool>, known: bool) -> bool
    ensures { (c : List ℕ) → KnownAfter known seen runs.now c result }
{
    match runs {
        Some(node) => known && node.volume().orderly(),
        None => known && seen.unwrap_or(true),
    }
}

/// Whether a board is known.
pub(crate) fn has(boards: &[bool; MOST_MOTES], mote: u8) -> bool
    requires { mote < most_motes }
    ensures value { result ≡ slice_index_or boards.now mote false }
{
    boards[usize::from(mote)]
}

/// Sets whether a board is known.
pub(crate) fn note(boards: &mut [bool; MOST_MOTES], mote: u8, known: bool)
    requires { mote < most_motes }
    ensures here { slice_index_or boards.new mote false ≡ known }
    ensures others { (m : ℕ) → m ≢ mote → slice_index_or boards.new m false ≡ slice_index_or boards.old m false }
{
    boards[usize::from(mote)] = known;
}
