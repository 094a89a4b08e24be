//! What happens to motes, event by event, and cuts of their power.
ghost use Rattle.std.specs.Prelude.{◌≡◌, ◌≤◌, [], ◌∷◌, ◌++◌, length, OnOk, OnErr};
ghost use Rattle.dg_base.specs.Sizes.{longest_frame, longest_mask};

use crate::texts::Bytes;
use arrayvec::ArrayVec;
use std::alloc::AllocError;
use std::marker::Model;

/// The most bytes of a frame that comes from outside.
pub const LONGEST_FRAME: usize = 64;

/// The most bytes of a cut's mask: as many as a sector has.
pub const LONGEST_MASK: usize = 2_048;

/// The bytes of a frame, at most 64.
#[derive(Debug, PartialEq, Eq, Drop)]
pub struct FrameBytes {
    bytes: ArrayVec<u8, LONGEST_FRAME>,
}

impl Model for FrameBytes {
    ghost use Rattle.std.specs.Prelude.{ℕ, List};

    ghost Value = { List ℕ };

    ghost view = { λ b. b.bytes.items };

    ghost inverse = { λ bytes. record { bytes = record { items = bytes } } };
}

impl FrameBytes {
    /// The frame with these bytes.
    pub fn new(bytes: &[u8]) -> FrameBytes
        requires { length bytes.now ≤ longest_frame }
        ensures { result ≡ bytes.now }
    {
        let mut held = ArrayVec::new();
        let _ = held.try_extend_from_slice(bytes);
        FrameBytes { bytes: held }
    }

    /// The bytes.
    pub fn as_slice(&self) -> &[u8]
        ensures value { result.now ≡ self.now }
        ensures fits { length result.now ≤ longest_frame }
    {
        self.bytes.as_slice()
    }
}

/// One event at one mote. `dt` is the time since the event before it, in milliseconds, and `word`
/// stands for a random number.
#[derive(Debug, Drop)]
pub enum Event {
    /// Time passes.
    Tick {
        /// The mote at which it passes.
        mote: u8,
        dt: u32,
        word: u32,
    },
    /// A mote hears a frame that was sent.
    Hear {
        /// The mote that hears it.
        mote: u8,
        dt: u32,
        word: u32,
        /// The number of the frame, counted from 1 over all frames that were sent.
        frame: u32,
    },
    /// A mote hears the last frame that another one sent.
    Last {
        /// The mote that sent it.
        from: u8,
        /// The mote that hears it.
        to: u8,
        dt: u32,
        word: u32,
    },
    /// A mote drops what it runs, and its chip is started.
    Reset {
        /// The mote that is reset.
        mote: u8,
        dt: u32,
        word: u32,
    },
    /// A version of an image is injected into a mote.
    Inject {
        /// The mote that is to keep it.
        mote: u8,
        image: u8,
        version: u32,
        dt: u32,
        word: u32,
    },
    /// A mote is ordered to start a version of an image.
    Order {
        /// The mote that is to keep the order.
        mote: u8,
        /// The number of the order. A mote keeps the order with the largest number.
        number: u32,
        image: u8,
        version: u32,
        dt: u32,
        word: u32,
    },
    /// A mote hears bytes that come from outside.
    Frame {
        /// The mote that hears them.
        mote: u8,
        dt: u32,
        word: u32,
        /// At most [`LONGEST_FRAME`] of them.
        bytes: Bytes,
    },
}

/// A cut of a mote's power in one of an event's flash operations.
#[derive(Debug, Drop)]
pub struct Cut {
    /// The number of the program or erase that is interrupted, counted from 1.
    pub after: u32,
    /// What the interrupted operation leaves, repeated over its bytes.
    pub mask: Bytes,

    ghost numbered: { 1 ≤ after },
    ghost some: { 1 ≤ length mask },
    ghost within: { length mask ≤ longest_mask },
}

/// An event, and the cut in it, if there is one.
#[derive(Debug, Drop)]
pub struct Step {
    pub event: Event,
    pub cut: Option<Cut>,
}

/// A version of an image.
#[derive(Clone, Copy, Debug, PartialEq, Eq, PartialOrd, Ord)]
pub struct ImageVersion {
    pub image: u8,
    pub version: u32,
}

/// Pairs of motes that are neighbours.
#[derive(Debug, Drop)]
pub struct Pairs {
    pairs: Vec<(u8, u8)>,
}

impl Model for Pairs {
    ghost use Rattle.std.specs.Prelude.{ℕ, List};

    ghost Value = { List (ℕ × ℕ) };

    ghost view = { λ p. p.pairs.items };
}

impl Pairs {
    /// The pairs of a vector, which is kept unchanged.
    pub fn new(pairs: Vec<(u8, u8)>) -> Pairs
        ensures { result ≡ pairs.items }
    {
        Pairs { pairs }
    }

    /// Appends a pair. If memory runs out, nothing changes.
    pub fn push(&mut self, pair: (u8, u8)) -> Result<(), AllocError>
        ensures ok { OnOk result (self.new ≡ self.old ++ pair ∷ []) }
        ensures err { OnErr result (self.new ≡ self.old) }
    {
        self.pairs.push(pair)?;
        Ok(())
    }

    /// The pairs.
    pub fn as_slice(&self) -> &[(u8, u8)]
        ensures { result.now ≡ self.now }
    {
        &self.pairs
    }
}
