//! The service of one mote of a network profile: over its board and a link, by a clock. The others run elsewhere.
#![tactic(auto)]

mod laws;
mod network;
mod parts;
mod playing;
mod program;
mod serving;
mod turns;
mod watch;

pub use laws::services_of_one_keep_the_rules;
pub use network::serve_mote_of_network;
pub use program::serve_for_program;
pub use serving::serve_mote;
