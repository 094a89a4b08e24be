//! A mounted volume, and why a call on a volume fails.
use dg_control::{Control, IMAGES};

/// Why a mote starts.
#[derive(Clone, Copy, Debug, PartialEq, Eq)]
pub enum StartCause {
    /// It powers on.
    Power,
    /// An order waits.
    Order,
}

/// What is kept of an image: its version, its page count, how many pages are complete, and the CRC of page 0.
#[derive(Clone, Copy, Debug, PartialEq, Eq)]
pub struct Kept {
    pub version: u32,
    pub pages: u8,
    pub done: u8,
    pub crc: u16,
}

/// What an injection made: the pages of the image, which is whole.
#[derive(Clone, Copy, Debug, PartialEq, Eq)]
pub struct Injected {
    pub pages: u8,
}

/// Why a chip was not formatted.
#[derive(Clone, Copy, Debug, PartialEq, Eq)]
pub enum FormatFault {
    /// The chip is stopped. It has to be formatted again.
    Stopped,
    /// The golden image has no bytes.
    Empty,
    /// The golden image has more than 70,656 bytes.
    TooLarge,
}

/// Why a chip was not mounted.
#[derive(Clone, Copy, Debug, PartialEq, Eq)]
pub enum MountFault {
    /// The chip is stopped.
    Stopped,
    /// Its bytes are not a volume.
    NotAVolume,
}

/// Why a slot was not taken.
#[derive(Clone, Copy, Debug, PartialEq, Eq)]
pub enum TakeFault {
    /// The chip is stopped. It has to be mounted again.
    Stopped,
    /// This version or a larger one is kept.
    Stale { kept: u32 },
    /// Image 0 is golden, which only formatting writes.
    Reserved,
    /// There is no room for two commits.
    Worn { room: u32 },
}

/// Why an image was not injected.
#[derive(Clone, Copy, Debug, PartialEq, Eq)]
pub enum InjectFault {
    /// The chip is stopped. It has to be mounted again.
    Stopped,
    /// The image has no bytes.
    Empty,
    /// The image has more than 70,656 bytes.
    TooLarge,
    /// A larger version is kept.
    Stale { kept: u32 },
    /// Image 0 is golden, which only formatting writes.
    Reserved,
    /// The version is not kept, and there is no room for two commits.
    Worn { room: u32 },
    /// The version is kept with other content.
    Taken,
}

/// Why an order was not kept.
#[derive(Clone, Copy, Debug, PartialEq, Eq)]
pub enum OrderFault {
    /// The chip is stopped. It has to be mounted again.
    Stopped,
    /// There is no room for a commit.
    Worn { room: u32 },
    /// The kept order's number is not smaller.
    OldOrder { kept: u32 },
}

/// What a chip keeps, as the last call with the volume and the chip left it. After `Stopped` the value is invalid: the chip has
/// to be mounted again.
#[derive(Drop)]
pub struct Volume {
    pub(crate) control: Control,
    /// What is kept of each image, except pages that were made complete in a lent slot.
    pub(crate) kept: [Option<Kept>; IMAGES],
    /// The images whose slots are lent.
    pub(crate) lent: [bool; IMAGES],
}
