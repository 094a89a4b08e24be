//! The results of the events of a node.
use crate::node::Node;
use dg_base::ImageVersion;

/// An image that was started.
#[derive(Clone, Copy, Debug, PartialEq, Eq)]
pub struct StartedImage {
    pub image_version: ImageVersion,
    /// The bytes of the image.
    pub length: u32,
    /// The checksum of its bytes in program memory.
    pub crc: u16,
}

/// A node that was powered on, and the image that was started there.
#[derive(Drop)]
pub struct Powered {
    pub node: Node,
    pub image: StartedImage,
}

/// What a tick did.
#[derive(Clone, Copy, Debug, PartialEq, Eq)]
pub enum Ticked {
    /// Nothing is sent.
    Idle,
    /// A frame is in the outbox.
    Sent,
    /// The chip was started for its order.
    Restarted(StartedImage),
}

/// Why a tick failed. The node must not be used again.
#[derive(Clone, Copy, Debug, PartialEq, Eq)]
pub enum TickFault {
    /// The chip is stopped.
    Stopped,
    /// The chip was to start for its order, but there was no image to start.
    NoImage,
}
