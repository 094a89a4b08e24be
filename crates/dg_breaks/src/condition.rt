//! The conditions of a volume, and where a chip breaks one.

/// A condition of a volume.
#[derive(Clone, Copy, Debug, PartialEq, Eq)]
pub enum Condition {
    /// Sector 0 is a ledger.
    Ledger,
    /// The control sector whose places count has a committed place, and the last one is a snapshot.
    Snapshot,
    /// Slot 0 keeps golden whole.
    Golden,
    /// The slot of this image, where it is Live, has a header of its version.
    Header { image: u8 },
    /// Page 0 of this image, where it is complete, is the descriptor that the header keeps the CRC of.
    Descriptor { image: u8 },
    /// Program memory begins with the descriptor of the image that it is set to.
    Program,
}

/// The first condition of a volume that a chip does not meet, in their order, and where it breaks: a
/// sector, and the first byte of it that is not as the condition needs it.
#[derive(Clone, Copy, Debug, PartialEq, Eq)]
pub struct Break {
    pub condition: Condition,
    pub sector: u32,
    pub byte: u32,
}
