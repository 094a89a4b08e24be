//! The real link and the real clock: datagrams between sockets of this machine, and the clock of its system.
#![tactic(auto)]

mod alone;
mod cause;
mod clock;
mod pace;
mod udp;

pub use alone::MoteLink;
pub use cause::LinkCause;
pub use clock::SystemClock;
pub use udp::{UdpLink, receive_datagram};
