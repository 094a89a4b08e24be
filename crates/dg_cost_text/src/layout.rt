//! Columns of a table.

use crate::csv::push_u64;
use std::alloc::{AllocError, Global};

/// A text of lines, each of at most 100 columns where numbers are those of a run.
#[derive(Drop)]
pub(crate) struct Layout {
    alloc: Global,
    pub text: Vec<u8>,
}

impl Layout {
    pub fn new(alloc: Global) -> Layout {
        Layout {
            alloc,
            text: Vec::new(alloc),
        }
    }

    /// Appends a text.
    pub fn put(&mut self, text: &str) -> Result<(), AllocError> {
        self.text.extend_from_slice(text.as_bytes())
    }

    /// Appends a line.
    pub fn line(&mut self, line: &str) -> Result<(), AllocError> {
        self.put(line)?;
        self.put("\n")
    }

    /// Appends bytes at the right of a column of this width.
    fn right(&mut self, cell: &[u8], width: usize) -> Result<(), AllocError> {
        for _ in cell.len()..width {
            self.text.push(b' ')?;
        }
        self.text.extend_from_slice(cell)
    }

    /// Appends a word at the right of a column of this width.
    pub fn word(&mut self, word: &str, width: usize) -> Result<(), AllocError> {
        self.right(word.as_bytes(), width)
    }

    /// Appends a number at the right of a column of this width.
    pub fn number(&mut self, number: u64, width: usize) -> Result<(), AllocError> {
        let mut cell = Vec::new(self.alloc);
        push_u64(&mut cell, number)?;
        self.right(&cell, width)
    }

    /// Appends a large number at the right of a column of this width.
    pub fn great(&mut self, number: u128, width: usize) -> Result<(), AllocError> {
        let cell = format!(in self.alloc; "{number}")?;
        self.right(cell.as_bytes(), width)
    }

    /// Appends milliseconds as seconds at the right of a column of this width.
    pub fn seconds(&mut self, ms: u64, width: usize) -> Result<(), AllocError> {
        let (seconds, rest) = (ms / 1_000, ms % 1_000);
        let cell = format!(in self.alloc; "{seconds}.{rest:03}")?;
        self.right(cell.as_bytes(), width)
    }

    /// Appends the name of a mote, or `all` where there is none.
    pub fn name(&mut self, mote: Option<usize>) -> Result<(), AllocError> {
        match mote {
            Some(mote) => self.number(mote as u64, 4),
            None => self.word("all", 4),
        }
    }
}
