//! What the motes of a world share: the images that were declared, which motes are neighbours, which are narrow, and the frames
//! that were sent. And what an event finds there: a frame that is heard, an image that is injected.
#![tactic(auto)]

mod air;
mod context;
mod events;
mod finding;
mod images;
mod links;
mod making_known;
mod sent;
mod shared;

pub use air::Air;
pub use context::EventContext;
pub use events::{EventKind, dt_at, kind_of, mote_at};
pub use finding::{Found, find_last, find_nth};
pub use images::{Image, Images};
pub use links::{Links, MOST_MOTES};
pub use making_known::makes_known;
pub use sent::SentFrame;
pub use shared::Shared;
