//! Network profiles: how many motes a service has, at which ports, and which of them are linked.
#![tactic(auto)]

mod laws;
mod links;
mod profile;
mod reading;

pub use laws::{one_profile, the_least_port_is_this};
pub use profile::{LEAST_PORT, NetProfile, ProfileFault};
pub use reading::read_profile;
