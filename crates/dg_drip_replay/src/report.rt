//! What is reported of an event.

use dg_drip::Entry;

/// Why an event was refused.
#[derive(Clone, Copy, Debug, PartialEq, Eq)]
pub enum DripCause {
    /// The last number of the key is taken.
    Last,
    /// No such frame was sent.
    Frame,
    /// The frame's sender is not a neighbour.
    Link,
}

/// A line of a report.
#[derive(Clone, Copy, Debug, PartialEq, Eq)]
pub enum DripReport {
    /// An event at a node was refused.
    Refused { node: u8, cause: DripCause },
    /// A node sent a frame with this entry.
    Sent { node: u8, key: u8, entry: Entry },
    /// A node now keeps this entry.
    Got { node: u8, key: u8, entry: Entry },
    /// The script ended after this many events, refused ones included.
    End { events: u32 },
    /// A node keeps this entry at the end.
    Value { node: u8, key: u8, entry: Entry },
}
