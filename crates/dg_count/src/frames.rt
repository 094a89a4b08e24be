//! The frames that were sent, by their bytes.

use dg_events::{FrameCounter, bit};
use dg_frame::write;
use dg_world::World;
use std::alloc::{AllocError, Global};
use std::collections::BTreeMap;

/// The frames that were sent, by their bytes.
#[derive(Drop)]
pub struct FrameIndex {
    /// For each frame that was indexed, the number of the last one before it with the same hash, 0 if there is none.
    before: Vec<usize>,
    /// The number of the last frame with a hash.
    heads: BTreeMap<u64, usize>,
}

/// The FNV-1a hash of a frame's bytes.
fn hash_of(bytes: &[u8]) -> u64 {
    let mut hash: u64 = 0xcbf2_9ce4_8422_2325;
    for byte in bytes {
        hash = (hash ^ u64::from(*byte)).wrapping_mul(0x0000_0100_0000_01b3);
    }
    hash
}

impl FrameIndex {
    pub fn new(alloc: Global) -> FrameIndex {
        FrameIndex {
            before: Vec::new(alloc),
            heads: BTreeMap::new(alloc),
        }
    }

    /// Indexes the frames up to this many that are not indexed yet.
    fn index(&mut self, world: &World, count: usize) -> Result<(), AllocError> {
        for number in self.before.len()..count {
            let hash = match world.frame(number.saturating_add(1)) {
                Some(message) => hash_of(write(message).as_slice()),
                None => 0,
            };
            let before = match self.heads.get(&hash) {
                Some(before) => *before,
                None => 0,
            };
            self.before.push(before)?;
            if self.heads.insert(hash, number.saturating_add(1)).is_err() {
                return Err(AllocError);
            }
        }
        Ok(())
    }

    /// The frame of a neighbour that has these bytes: the earliest one that has not reached the mote yet, else the last.
    pub fn find(
        &mut self,
        world: &World,
        frames: &FrameCounter,
        mote: u8,
        bytes: &[u8],
    ) -> Result<Option<usize>, AllocError> {
        self.index(world, frames.sent.len())?;
        let hash = hash_of(bytes);
        let mut number = match self.heads.get(&hash) {
            Some(found) => *found,
            None => 0,
        };
        let mut last = None;
        let mut earliest = None;
        for _ in 0..frames.sent.len() {
            let Some(frame) = frames.get(number) else {
                break;
            };
            if world.are_joined(frame.by, mote) && has_bytes(world, number, bytes) {
                if last.is_none() {
                    last = Some(number);
                }
                if (frame.heard | frame.traced) & bit(mote) == 0 {
                    earliest = Some(number);
                }
            }
            number = match self.before.get(number.saturating_sub(1)) {
                Some(before) => *before,
                None => 0,
            };
        }
        Ok(if earliest.is_some() { earliest } else { last })
    }
}

/// Whether the frame with this number has these bytes.
fn has_bytes(world: &World, number: usize, bytes: &[u8]) -> bool {
    match world.frame(number) {
        Some(message) => write(message).as_slice() == bytes,
        None => false,
    }
}
