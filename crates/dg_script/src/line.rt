//! What the lines of a script say.

use dg_base::{Bytes, Cut, Event};

/// What a line says.
#[derive(Debug, Drop)]
pub enum Line {
    /// The line is empty, or a comment.
    Nothing,
    /// There are this many motes, 1 to 16.
    Motes(u8),
    /// The boards are formatted with a golden image.
    Golden {
        name: Bytes,
        /// The commits that the chips count as spent.
        used: u32,
        content: Bytes,
    },
    /// The boards are used as they are.
    Boards,
    /// Two motes are neighbours.
    Link(u8, u8),
    /// A mote is narrow: it has the old radio.
    Narrow(u8),
    /// An image is declared.
    Image {
        /// Its number, 1 to 6.
        image: u8,
        version: u32,
        name: Bytes,
        content: Bytes,
    },
    /// The power is cut in the next event.
    Cut(Cut),
    /// An event happens at a mote.
    Happens(Event),
    /// A mote brings a page to another.
    Round(u8, u8),
    /// Rounds over each link in both directions, this many times.
    Sweeps(u32),
}
