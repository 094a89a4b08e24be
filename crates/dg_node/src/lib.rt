//! One mote over its board: it powers on, it ticks, it hears a frame, an image is injected, an order is kept.
//!
//! Each call has the effect that `dg_mote/specs/Effects` specifies. A world and a service play their motes by these
//! calls alone.
#![tactic(auto)]

mod acts;
mod answers;
mod hear;
mod inject;
mod laws;
mod mounting;
mod node;
mod order;
mod power;
mod report;
mod tick;

pub use acts::{ActFault, Change, Injected, Ordered};
pub use answers::{Powered, StartedImage, TickFault, Ticked};
pub use inject::ImageBytes;
pub use laws::a_node_stays_timely;
pub use mounting::mount_known;
pub use node::{At, Node};
pub use report::{ChipReport, report_chip};
