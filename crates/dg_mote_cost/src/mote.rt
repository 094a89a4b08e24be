//! What is counted of a mote.

use dg_meter::{REGIONS, Share, Tally};

/// What is counted of a mote.
#[derive(Clone, Copy)]
pub struct MoteCost {
    /// The moment of its last start.
    pub started: u64,
    /// How many short starts are counted.
    pub gesture: u8,
    /// What came from outside and equals a frame that a neighbour sent.
    pub traced: Share,
    /// The restarts in ticks in which a cut fired.
    pub cut_restarts: u64,
    /// The starts that found no image.
    pub no_image: u64,
    /// The successful starts that copied into program memory.
    pub starts_copied: u64,
    /// Its chip's operations up to the last event in which it did more than to put a packet into a page.
    pub tally: Tally,
    pub cut_programs: [u64; REGIONS],
    pub cut_erases: [u64; REGIONS],
    pub begun: u64,
    pub sealed: u64,
    pub copied: u64,
    pub takes: u64,
    pub commits: u64,
    /// Commits in which a cut fired.
    pub torn: u64,
    pub handovers: u64,
    pub room_begin: u64,
    pub room_end: Option<u64>,
}

impl MoteCost {
    pub fn new() -> MoteCost {
        MoteCost {
            started: 0,
            gesture: 0,
            traced: Share::none(),
            cut_restarts: 0,
            no_image: 0,
            starts_copied: 0,
            tally: Tally::none(),
            cut_programs: [0; REGIONS],
            cut_erases: [0; REGIONS],
            begun: 0,
            sealed: 0,
            copied: 0,
            takes: 0,
            commits: 0,
            torn: 0,
            handovers: 0,
            room_begin: 0,
            room_end: None,
        }
    }
}
