//! A network profile as a TOML document.
use dg_base::Pairs;
use std::alloc::AllocError;
use std::error::Error;
use std::fmt;

/// The least port that a profile may name. Those below are the system's.
pub const LEAST_PORT: u16 = 1_024;

/// How many motes a network has, the port of the first, and which motes are linked.
#[derive(Debug, Drop)]
pub struct NetProfile {
    /// From 1 to 16. The motes have the numbers from 0.
    pub motes: u8,
    /// From 1,024 to 65,500. The ports of the further motes follow it.
    pub port: u16,
    /// Pairs of different motes, no pair twice in either order.
    pub links: Pairs,
}

/// Why bytes are not a network profile. The first cause that applies is reported.
#[derive(Clone, Copy, PartialEq, Eq, Debug)]
pub enum ProfileFault {
    /// They are not a TOML document.
    NotToml,
    /// A key is missing or unknown, a number is not a whole number, or the links are not an array.
    Key,
    /// The number of motes is out of its range.
    Id,
    /// An entry of the links is not an array of exactly two different motes, or a pair repeats in either order.
    Link,
    /// The port is out of its range.
    Port,
    /// Memory ran out.
    Memory,
}

impl fmt::Display for ProfileFault {
    ghost use Rattle.std.specs.Prelude.{Some};
    ghost use Rattle.dg_netcfg.specs.Faults.{profile_fault_text};

    ghost output = { λ fault. Some (profile_fault_text fault) };

    fn fmt<W: fmt::Write>(&self, f: &mut fmt::Formatter<W>) -> fmt::Result {
        match self {
            ProfileFault::NotToml => f.write_str("nottoml"),
            ProfileFault::Key => f.write_str("key"),
            ProfileFault::Id => f.write_str("id"),
            ProfileFault::Link => f.write_str("link"),
            ProfileFault::Port => f.write_str("port"),
            ProfileFault::Memory => f.write_str("out of memory"),
        }
    }
}

impl Error for ProfileFault {}

impl From<AllocError> for ProfileFault {
    ghost use Rattle.std.specs.Prelude.{◌≡◌};
    ghost use Rattle.dg_netcfg.specs.declared.profile.ProfileFault.{ProfileFault};

    ghost from_gives = { λ _ e. e ≡ ProfileFault.Memory };

    fn from(_error: AllocError) -> ProfileFault {
        ProfileFault::Memory
    }
}
