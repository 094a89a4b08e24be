//! What holds of profiles. The functions do nothing: their contracts are the laws.
ghost use Rattle.std.specs.Prelude.{◌≡◌, ◌≢◌, ◌↔◌, ℕ, List, Result, Err};
ghost use Rattle.dg_netcfg.specs.declared.profile.NetProfile.{NetProfile};
ghost use Rattle.dg_netcfg.specs.declared.profile.ProfileFault.{ProfileFault};
ghost use Rattle.dg_netcfg.specs.declared.profile.ProfileFault.TheVariants.{Memory};
ghost use Rattle.dg_netcfg.specs.Profile.{netprofile};
ghost use Rattle.dg_netcfg.specs.Readings.{IsProfileReading};
ghost use Rattle.dg_netcfg.specs.Sizes.{least_port};

use crate::LEAST_PORT;

/// The number is that of this profile: ports are 1,024 or more.
pub fn the_least_port_is_this()
    ensures { LEAST_PORT ≡ least_port }
{}

/// Bytes are read in one way: as the profile that they encode, or refused for the first cause that applies.
pub fn one_profile()
    ensures { (b : List ℕ) (r : Result NetProfile ProfileFault) → r ≢ Err Memory → (netprofile b ≡ r) ↔ IsProfileReading b r }
{}
