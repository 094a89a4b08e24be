//! A service: all motes of a network profile over a link, by a clock.
#![tactic(auto)]

mod handing;
mod laws;
mod network;
mod service;
mod serving;
mod stop;
mod telling;
mod timeline;

pub use handing::{hand_on, receive};
pub use laws::services_keep_the_rules;
pub use network::{read_network, serve_network};
pub use service::Service;
pub use serving::{open_service, serve};
pub use stop::Stop;
pub use telling::{event_line, put};
pub use timeline::{Timeline, Timing};
