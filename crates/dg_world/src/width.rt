//! Which motes of a world are wide.
ghost use Rattle.std.specs.Prelude.{◌≡◌, List};
ghost use Rattle.dg_nor.specs.Device.{Device};
ghost use Rattle.dg_rules.specs.World.{World as RuleWorld, wide_at};
ghost use Rattle.dg_world.specs.Worlds.{IsWorld};

use crate::world::World;

impl World {
    /// Whether a mote is wide. A number that is no mote's counts as wide.
    #[inline(always)]
    pub fn is_wide(&self, mote: u8) -> bool
        ensures { (boards : List Device) (w : RuleWorld) → IsWorld self.now boards w → result ≡ wide_at w mote }
    {
        self.shared.is_wide(mote)
    }
}
