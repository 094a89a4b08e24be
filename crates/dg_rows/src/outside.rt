//! What stands outside of a command: an input that is read in pieces, calls that fail, and chips that stop.

ghost use Rattle.std.specs.Prelude.{Some};

use dg_base::{MemSink, MemSource, ReadFailed, Source};
use dg_link::{FailLink, MemLink};
use std::alloc::{AllocError, Global};

/// The frames that an inbox of the link holds.
const INBOX: usize = 4;

/// The bytes of a mask, which says what an interrupted operation leaves, and is repeated.
pub(crate) const MASK_SIZE: usize = 64;

/// The milliseconds between two answers of the clock.
pub(crate) const CLOCK_STEP: u64 = 100;

/// What goes wrong, and how an input comes. Calls are numbered from 1; number 0 is not a call.
#[derive(Clone, Copy)]
pub(crate) struct Outside {
    /// The most bytes that a read gives, if there is such a limit.
    pub(crate) piece: u32,
    /// The read, the write and the call of the link that fail.
    pub(crate) read: u32,
    pub(crate) write: u32,
    pub(crate) call: u32,
    /// The most bytes that the output takes, if it is known.
    pub(crate) room: Option<u32>,
    /// The operation at which each chip stops, and what it leaves.
    pub(crate) stop: u32,
    pub(crate) mask: [u8; MASK_SIZE],
    /// Whether each chip is stopped from the beginning.
    pub(crate) stopped: bool,
}

/// Nothing goes wrong.
pub(crate) const CALM: Outside = Outside {
    piece: 0,
    read: 0,
    write: 0,
    call: 0,
    room: None,
    stop: 0,
    mask: [0xFF; MASK_SIZE],
    stopped: false,
};

/// An input of which each read gives at most some number of bytes, and at least one.
#[derive(Drop)]
pub(crate) struct Pieces {
    input: MemSource,
    most: usize,
}

impl Source for Pieces {
    ghost left = { λ p. Some p.input.left };

    ghost faults = { λ p. p.input.faults };

    fn read(&mut self, into: &mut [u8]) -> Result<usize, ReadFailed> {
        let most = self.most.max(1).min(into.len());
        self.input.read(&mut into[..most])
    }
}

/// The calls that fail.
fn failing(alloc: Global, number: u32) -> Result<Vec<u32>, AllocError> {
    let mut numbers = Vec::new(alloc);
    if number > 0 {
        numbers.push(number)?;
    }
    Ok(numbers)
}

impl Outside {
    /// An input of these bytes.
    pub(crate) fn input(&self, alloc: Global, bytes: &[u8]) -> Result<Pieces, AllocError> {
        let input = MemSource::new(Vec::from_slice(alloc, bytes)?, failing(alloc, self.read)?);
        let most = if self.piece > 0 {
            self.piece as usize
        } else {
            bytes.len()
        };
        Ok(Pieces { input, most })
    }

    /// An output that takes this many bytes, unless its room is known.
    pub(crate) fn output(&self, alloc: Global, ample: usize) -> Result<MemSink, AllocError> {
        let room = match self.room {
            Some(room) => room as usize,
            None => ample,
        };
        MemSink::new(alloc, room, failing(alloc, self.write)?)
    }

    /// A link in memory.
    pub(crate) fn link(&self, alloc: Global) -> Result<FailLink, AllocError> {
        Ok(FailLink::new(MemLink::new(alloc, INBOX), failing(alloc, self.call)?))
    }
}

/// How many bytes an input still gives, up to two million.
pub(crate) fn rest(input: &mut Pieces) -> usize {
    let mut count: usize = 0;
    let mut piece = [0; 4096];
    for _ in 0..500 {
        match input.read(&mut piece) {
            Ok(0) => break,
            Ok(more) => count = count.saturating_add(more),
            Err(_) => break,
        }
    }
    count
}
