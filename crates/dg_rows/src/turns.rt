//! What goes wrong outside as a row is played: once as it says, or each read, write or byte of its output in turn.

use crate::outside::Outside;
use crate::row::Row;
use dg_base::Status;
use std::alloc::{AllocError, Global};

/// More reads than a row has whose reads fail in turn.
const MOST_READS: u32 = 1_000;

/// How often a row is played.
#[derive(Clone, Copy)]
pub(crate) enum Sweep {
    /// Once.
    Once,
    /// Each read fails in turn, and then no read.
    Reads,
    /// Each write fails in turn, and then no write.
    Writes,
    /// The output ends at each of its bytes in turn, and then after them.
    Bytes,
}

/// A turn: what goes wrong, and the expected outcome of the command then.
#[derive(Clone, Copy)]
pub(crate) struct Turn {
    pub(crate) outside: Outside,
    pub(crate) status: u32,
    /// How many of the row's bytes are written.
    pub(crate) written: usize,
}

/// How far the input of a row goes, and what must be written by then.
#[derive(Clone, Copy)]
pub(crate) struct Part {
    pub(crate) given: usize,
    pub(crate) written: usize,
}

impl Row {
    /// The turns of the row.
    pub(crate) fn turns(&self, alloc: Global) -> Result<Vec<Turn>, AllocError> {
        let mut turns = match self.sweep {
            Sweep::Once => Vec::new(alloc),
            Sweep::Reads => self.failing_reads(alloc)?,
            Sweep::Writes => self.failing_writes(alloc)?,
            Sweep::Bytes => self.full_outputs(alloc)?,
        };
        turns.push(self.turn(self.wanted.status, self.wanted.written.len()))?;
        Ok(turns)
    }

    /// A turn in which nothing goes wrong but what the row says.
    fn turn(&self, status: u32, written: usize) -> Turn {
        Turn {
            outside: self.outside,
            status,
            written,
        }
    }

    /// Each read fails: the whole lines before it are reported. The last one finds the end of the input.
    fn failing_reads(&self, alloc: Global) -> Result<Vec<Turn>, AllocError> {
        let mut turns = Vec::new(alloc);
        let length = self.input.len() as u64;
        for before in 0..MOST_READS {
            let taken = u64::from(before) * u64::from(self.outside.piece);
            let mut turn = self.turn(u32::from(Status::ReadFault.code()), self.reported(taken));
            turn.outside.read = before + 1;
            turns.push(turn)?;
            if taken >= length {
                break;
            }
        }
        Ok(turns)
    }

    /// What is reported of the lines that are whole within this many bytes.
    fn reported(&self, taken: u64) -> usize {
        let mut written: usize = 0;
        for part in &self.parts {
            if part.given as u64 <= taken {
                written = part.written.min(self.lines_written);
            }
        }
        written
    }

    /// Each write fails: what comes before it is written.
    fn failing_writes(&self, alloc: Global) -> Result<Vec<Turn>, AllocError> {
        let mut turns = Vec::new(alloc);
        for (before, written) in self.writes(alloc)?.iter().enumerate() {
            let mut turn = self.turn(u32::from(Status::WriteFault.code()), *written);
            turn.outside.write = u32::try_from(before).unwrap_or(0).saturating_add(1);
            turns.push(turn)?;
        }
        Ok(turns)
    }

    /// The output ends at each byte: the writes that it has room for are done.
    fn full_outputs(&self, alloc: Global) -> Result<Vec<Turn>, AllocError> {
        let mut turns = Vec::new(alloc);
        let writes = self.writes(alloc)?;
        for room in 0..self.wanted.written.len() {
            let mut done: usize = 0;
            for written in &writes {
                if *written <= room {
                    done = *written;
                }
            }
            let mut turn = self.turn(u32::from(Status::WriteFault.code()), done);
            turn.outside.room = u32::try_from(room).ok();
            turns.push(turn)?;
        }
        Ok(turns)
    }

    /// The chip stops at each of the operations that are listed, so that nothing is written, and then after the last.
    pub(crate) fn stops(&self, alloc: Global) -> Result<Vec<Turn>, AllocError> {
        let mut turns = Vec::new(alloc);
        for (before, _) in self.operations.iter().enumerate() {
            let mut turn = self.turn(u32::from(Status::FlashFault.code()), 0);
            turn.outside.stop = u32::try_from(before).unwrap_or(0).saturating_add(1);
            turns.push(turn)?;
        }
        let mut last = self.turn(self.wanted.status, self.wanted.written.len());
        last.outside.stop = u32::try_from(turns.len()).unwrap_or(0).saturating_add(1);
        turns.push(last)?;
        Ok(turns)
    }

    /// How much was written before each write.
    fn writes(&self, alloc: Global) -> Result<Vec<usize>, AllocError> {
        let mut writes = Vec::new(alloc);
        let mut before: usize = 0;
        writes.push(before)?;
        for part in &self.parts {
            let written = part.written.min(self.lines_written);
            if written > before {
                writes.push(written)?;
                before = written;
            }
        }
        Ok(writes)
    }
}
