//! Playing the lines of a file of rows, one after the other.

use crate::chips::{
    Chip, are_same, blank_chip, blank_chips, chip_named, copy_of, patch, put_back, take, take_named,
};
use crate::operations::operation_of;
use crate::row::{Came, Row};
use crate::runner::Runner;
use crate::saved::{Saved, copies_of};
use crate::stops::{MASKS, stop_at_each};
use crate::turns::Turn;
use dg_base::{parse_hex, parse_u32};
use std::alloc::{AllocError, Global};

/// What the next lines continue.
#[derive(Drop)]
enum Open {
    Nothing,
    Row(Row),
    File(Saved),
}

/// How many rows there were, how many of them were wrong, and what is reported of these.
#[derive(Drop)]
pub struct Tally {
    pub rows: u32,
    pub wrong: u32,
    pub told: String,
}

/// What the lines so far have made.
#[derive(Drop)]
pub(crate) struct Player<'a, R> {
    alloc: Global,
    runner: &'a R,
    /// The number of the line.
    line: usize,
    open: Open,
    chips: Vec<Chip>,
    saved: Vec<Saved>,
    /// How many blank chips a command that names no chip gets.
    unnamed: u32,
    /// What the last row wrote, and how much it read of its chips.
    written: Vec<u8>,
    taken: u64,
    tally: Tally,
}

impl<'a, R: Runner> Player<'a, R> {
    pub(crate) fn new(alloc: Global, runner: &'a R) -> Player<'a, R> {
        Player {
            alloc,
            runner,
            line: 0,
            open: Open::Nothing,
            chips: Vec::new(alloc),
            saved: Vec::new(alloc),
            unnamed: 0,
            written: Vec::new(alloc),
            taken: 0,
            tally: Tally {
                rows: 0,
                wrong: 0,
                told: String::new(alloc),
            },
        }
    }

    /// The outcome of the rows.
    pub(crate) fn tally(self) -> Tally {
        self.tally
    }

    /// Plays a line. Its index counts from 0.
    pub(crate) fn line(&mut self, index: usize, text: &str) -> Result<(), AllocError> {
        self.line = index.saturating_add(1);
        if text.is_empty() || text.starts_with('#') {
            return Ok(());
        }
        let (head, rest) = text.split_once(' ').unwrap_or((text, ""));
        if self.goes_on(head, rest)? {
            return Ok(());
        }
        self.end()?;
        if self.acts(head, rest)? {
            return Ok(());
        }
        self.refuse("no such line")
    }

    /// Continues what is open, if the line does so.
    fn goes_on(&mut self, head: &str, rest: &str) -> Result<bool, AllocError> {
        let operation = operation_of(self.alloc, head, rest);
        if let (Open::Row(row), Some(operation)) = (&mut self.open, operation) {
            row.operations.push(operation)?;
            return Ok(true);
        }
        let bytes = match head {
            "<" | ">" => Some(self.line_of(rest)?),
            "<x" | ">x" | "mask" => parse_hex(self.alloc, rest.as_bytes()).ok(),
            "<@" | ">@" => copies_of(self.alloc, &self.saved, rest)?,
            _ => None,
        };
        let number = parse_u32(rest.as_bytes());
        match (&mut self.open, bytes, number) {
            (Open::Row(row), Some(bytes), _) => row.take(head, &bytes),
            (Open::File(file), Some(bytes), _) => {
                file.bytes.extend_from_slice(&bytes)?;
                Ok(true)
            }
            (Open::Row(row), None, Some(number)) => Ok(row.set(head, number)),
            (Open::Row(row), None, None) => Ok(row.mark(head, rest)),
            _ => Ok(false),
        }
    }

    /// A text, and LF.
    fn line_of(&self, text: &str) -> Result<Vec<u8>, AllocError> {
        let mut bytes = Vec::from_slice(self.alloc, text.as_bytes())?;
        bytes.push(b'\n')?;
        Ok(bytes)
    }

    /// Ends what is open: a row is played, and a file is kept.
    pub(crate) fn end(&mut self) -> Result<(), AllocError> {
        let mut open = Open::Nothing;
        std::mem::swap(&mut open, &mut self.open);
        match open {
            Open::Nothing => Ok(()),
            Open::File(file) => {
                self.saved.push(file)?;
                Ok(())
            }
            Open::Row(row) => self.play(&row),
        }
    }

    /// The chips that the words of a row name, in their order, or blank ones where they name none.
    fn handed(&mut self, row: &Row) -> Result<Vec<Chip>, AllocError> {
        let named = take_named(self.alloc, &mut self.chips, &row.words)?;
        if named.is_empty() {
            return blank_chips(self.alloc, self.unnamed);
        }
        Ok(named)
    }

    /// Plays a row in each of its turns.
    fn play(&mut self, row: &Row) -> Result<(), AllocError> {
        if !row.operations.is_empty() {
            return self.play_stops(row);
        }
        for turn in &row.turns(self.alloc)? {
            self.play_turn(row, turn)?;
        }
        Ok(())
    }

    /// Plays a turn of a row, and compares its outcome with the expected one.
    fn play_turn(&mut self, row: &Row, turn: &Turn) -> Result<(), AllocError> {
        let mut handed = self.handed(row)?;
        let came = row.play(self.alloc, self.runner, &turn.outside, &mut handed)?;
        put_back(&mut self.chips, handed)?;
        let right = row.wanted.is_met(turn, &came, self.taken);
        if !right {
            self.tell(row, &came)?;
        }
        self.taken = came.taken;
        self.written = came.written;
        self.count(right);
        Ok(())
    }

    /// Plays a row over copies of its chip, each of which stops at another of the operations that it lists.
    fn play_stops(&mut self, row: &Row) -> Result<(), AllocError> {
        for turn in &row.stops(self.alloc)? {
            let Some(chip) = chip_named(&self.chips, &row.words) else {
                return self.refuse("no such chip");
            };
            let (came, same) = row.play_listed(self.alloc, self.runner, turn, chip)?;
            let right = same && row.wanted.is_met(turn, &came, 0);
            if !right {
                self.tell(row, &came)?;
            }
            self.count(right);
        }
        Ok(())
    }

    /// Counts a row.
    fn count(&mut self, right: bool) {
        self.tally.rows = self.tally.rows.saturating_add(1);
        if !right {
            self.tally.wrong = self.tally.wrong.saturating_add(1);
        }
    }

    /// Counts a line that is wrong by itself, and reports why.
    fn refuse(&mut self, cause: &str) -> Result<(), AllocError> {
        let line = self.line;
        let told = format!(in self.alloc; "line {line}: {cause}\n")?;
        self.tally.told.push_str(told.as_str())?;
        self.count(false);
        Ok(())
    }

    /// Does what a line between rows says. It answers whether there is such a line.
    fn acts(&mut self, head: &str, rest: &str) -> Result<bool, AllocError> {
        let mut words = rest.split(' ');
        match (head, words.next(), words.next()) {
            ("$", _, _) => self.open = Open::Row(Row::new(self.alloc, self.line, rest)?),
            ("anew", _, _) => self.chips.clear(),
            ("file", Some(name), None) => {
                self.open = Open::File(Saved::new(self.alloc, name)?);
            }
            ("save", Some(name), None) => self.save(name)?,
            ("blank", Some(name), None) => self.put(blank_chip(self.alloc, name)?)?,
            ("unnamed", Some(count), None) => {
                self.unnamed = parse_u32(count.as_bytes()).unwrap_or(0);
            }
            ("copy", Some(one), Some(other)) => return self.copy(one, other),
            ("same", Some(one), Some(other)) => return self.compare(one, other),
            ("stops", Some(name), Some(used)) => return self.stops(name, used),
            ("patch", Some(name), Some(sector)) => {
                return self.patch(name, sector, words.next(), words.next());
            }
            _ => return Ok(false),
        }
        Ok(true)
    }

    /// Keeps what the last row wrote, but for its first line, as a file.
    fn save(&mut self, name: &str) -> Result<(), AllocError> {
        let mut saved = Saved::new(self.alloc, name)?;
        let mut first = true;
        for byte in &self.written {
            if !first {
                saved.bytes.push(*byte)?;
            }
            first = first && *byte != b'\n';
        }
        self.saved.push(saved)?;
        Ok(())
    }

    /// Puts a chip in the place of the one of its name, if there is one.
    fn put(&mut self, chip: Chip) -> Result<(), AllocError> {
        let _ = take(&mut self.chips, chip.name.as_str());
        self.chips.push(chip)?;
        Ok(())
    }

    /// Copies a chip.
    fn copy(&mut self, one: &str, other: &str) -> Result<bool, AllocError> {
        let Some(board) = copy_of(self.alloc, &self.chips, one)? else {
            return Ok(false);
        };
        let name = String::from_str(self.alloc, other)?;
        self.put(Chip { name, board })?;
        Ok(true)
    }

    /// Compares two chips, as a row.
    fn compare(&mut self, one: &str, other: &str) -> Result<bool, AllocError> {
        let Some(mut first) = copy_of(self.alloc, &self.chips, one)? else {
            return Ok(false);
        };
        let Some(mut second) = copy_of(self.alloc, &self.chips, other)? else {
            return Ok(false);
        };
        if are_same(&mut first, &mut second).unwrap_or(false) {
            self.count(true);
        } else {
            self.refuse("the chips differ")?;
        }
        Ok(true)
    }

    /// Stops a run over a chip, of which this many commits are spent, at each operation and after the last, as rows.
    fn stops(&mut self, name: &str, used: &str) -> Result<bool, AllocError> {
        let Some(board) = copy_of(self.alloc, &self.chips, name)? else {
            return Ok(false);
        };
        let Some(used) = parse_u32(used.as_bytes()) else {
            return Ok(false);
        };
        for mask in &MASKS {
            for right in &stop_at_each(self.alloc, self.runner, &board, used, mask)? {
                self.count(*right);
            }
        }
        Ok(true)
    }

    /// Puts bytes into a chip.
    fn patch(
        &mut self,
        name: &str,
        sector: &str,
        at: Option<&str>,
        hex: Option<&str>,
    ) -> Result<bool, AllocError> {
        let (Some(at), Some(hex)) = (at, hex) else {
            return Ok(false);
        };
        let (Some(sector), Some(at)) = (parse_u32(sector.as_bytes()), parse_u32(at.as_bytes()))
        else {
            return Ok(false);
        };
        let Ok(bytes) = parse_hex(self.alloc, hex.as_bytes()) else {
            return Ok(false);
        };
        for chip in self.chips.iter_mut() {
            if chip.name.as_str() == name {
                return Ok(patch(&mut chip.board, sector, at, &bytes).unwrap_or(false));
            }
        }
        Ok(false)
    }

    /// Reports the outcome of a row.
    fn tell(&mut self, row: &Row, came: &Came) -> Result<(), AllocError> {
        let (status, taken, rest) = (came.status, came.taken, came.rest);
        let line = row.line;
        let told = match str::from_utf8(&came.written) {
            Ok(text) => format!(in self.alloc;
                "line {line}: status {status}, {taken} bytes read, {rest} left\n{text}"
            )?,
            Err(_) => format!(in self.alloc; "line {line}: status {status}, and no text\n")?,
        };
        self.tally.told.push_str(told.as_str())?;
        Ok(())
    }
}
