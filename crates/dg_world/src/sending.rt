//! How many frames were sent.
ghost use Rattle.std.specs.Prelude.{◌≡◌, List, length};
ghost use Rattle.dg_nor.specs.Device.{Device};
ghost use Rattle.dg_rules.specs.World.{World as RuleWorld};
ghost use Rattle.dg_world.specs.Worlds.{IsWorld};

use crate::world::World;

impl World {
    /// How many frames were sent. The last one has this number.
    pub fn frames_sent(&self) -> usize
        ensures { (boards : List Device) (w : RuleWorld) → IsWorld self.now boards w → result ≡ length w.sent }
    {
        self.shared.air.count()
    }
}
