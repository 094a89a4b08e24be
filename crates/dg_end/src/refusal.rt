//! Why a verb is refused.

/// Why a verb is refused: by the image that it is given, or by what the board holds.
#[derive(Clone, Copy, Debug, PartialEq, Eq)]
pub enum Refusal {
    /// The image has no byte.
    Empty,
    /// The image has this many bytes, more than 70,656.
    TooLarge {
        length: usize,
    },
    /// Image 0 is golden, which is written by formatting alone.
    Reserved,
    /// A larger version is kept.
    Stale {
        version: u32,
    },
    /// The version is kept with other content.
    Taken,
    /// The chip has room for only this many commits.
    Worn {
        room: u32,
    },
    /// The number of the order that is kept is not smaller.
    OldOrder {
        number: u32,
    },
    /// Nothing is kept of the image.
    Absent,
    /// Only this many pages of the image are complete.
    NotWhole {
        done: u8,
        pages: u8,
    },
    /// The first data page whose digest is not the one that is kept of it, with both. Data page 1 is 1. The digests are
    /// those of SHA-256.
    Broken {
        page: u8,
        kept: [u8; 32],
        found: [u8; 32],
    },
    /// The data pages are not those of the length that the first one gives, or more are named.
    Shape,
    /// The first data page whose digest is not the expected one.
    Foreign {
        page: u8,
    },
}
