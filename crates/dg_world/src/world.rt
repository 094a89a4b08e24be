//! The world as the code keeps it.
use crate::outcome::Outcome;
use dg_node::Node;
use dg_shared::{MOST_MOTES, Shared};

/// A world of 1 to 16 motes. Their boards are kept apart from it.
#[derive(Drop)]
pub struct World {
    /// The moment, in milliseconds.
    pub(crate) moment: u64,
    /// How many events were applied, refused ones included.
    pub(crate) events: u32,
    pub(crate) shared: Shared,
    /// Each mote, None where it is off.
    pub(crate) motes: Vec<Option<Node>>,
    /// The motes whose boards are known: they may be mounted again by binary search.
    pub(crate) known: [bool; MOST_MOTES],
    /// The outcome of an event. It is kept only to reuse its memory: filling this many bytes again takes long compared with
    /// most events.
    pub(crate) outcome: Outcome,
}

/// Why an image is not declared. Nothing has changed.
#[derive(Clone, Copy, Debug, PartialEq, Eq)]
pub enum DeclareFault {
    Memory,
    /// Its version was declared with another name or content.
    Taken,
}

/// Why an event is not applied. After `Flash`, `NotAVolume` and `NoImage` the world is not used again.
#[derive(Clone, Copy, Debug, PartialEq, Eq)]
pub enum WorldFault {
    /// Out of memory. Nothing has changed.
    Memory,
    /// This board stopped.
    Flash { board: u8 },
    /// A million events were applied. Nothing has changed.
    TooMany,
    /// The mote's board is not a volume.
    NotAVolume,
    /// The mote was to start, and there was no image.
    NoImage,
}
