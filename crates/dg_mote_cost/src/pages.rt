//! How many pages motes keep of images, by the lines of their events.

use dg_meter::SLOTS;
use std::alloc::{AllocError, Global};

/// What a mote keeps of an image.
#[derive(Clone, Copy)]
pub struct Have {
    pub version: u32,
    /// How many of its pages are complete.
    pub done: u8,
}

/// How many pages motes keep of images.
#[derive(Drop)]
pub struct KeptPages {
    motes: Vec<[Option<Have>; SLOTS]>,
}

impl KeptPages {
    pub fn new(alloc: Global) -> KeptPages {
        KeptPages {
            motes: Vec::new(alloc),
        }
    }

    /// One more mote, which keeps nothing yet.
    pub fn add(&mut self) -> Result<(), AllocError> {
        self.motes.push([None; SLOTS])?;
        Ok(())
    }

    /// What a mote keeps of an image.
    pub fn kept(&self, mote: u8, image: u8) -> Option<Have> {
        match self.motes.get(usize::from(mote)) {
            Some(images) => match images.get(usize::from(image)) {
                Some(have) => *have,
                None => None,
            },
            None => None,
        }
    }

    /// A mote now keeps this of an image, or nothing.
    pub fn set(&mut self, mote: u8, image: u8, have: Option<Have>) {
        if usize::from(mote) < self.motes.len() && usize::from(image) < SLOTS {
            let mut images = self.motes[usize::from(mote)];
            images[usize::from(image)] = have;
            self.motes[usize::from(mote)] = images;
        }
    }
}
