//! A row: a command, what stands outside of it, and its expected outcome.
ghost use Rattle.std.specs.Prelude.{◌≤◌, IfSome};

use crate::chips::Chip;
use crate::operations::Operation;
use crate::outside::{CALM, CLOCK_STEP, MASK_SIZE, Outside, rest};
use crate::runner::Runner;
use crate::turns::{Part, Sweep, Turn};
use dg_base::StepClock;
use dg_nor::{Board, Counted, Fused, Nor};
use std::alloc::{AllocError, Global};

/// More bytes than a command writes beyond what it must.
const MORE: usize = 400_000;

/// A command and its expected outcome.
#[derive(Drop)]
pub(crate) struct Row {
    /// Where it begins in its file.
    pub(crate) line: usize,
    pub(crate) words: Vec<String>,
    pub(crate) input: Vec<u8>,
    pub(crate) outside: Outside,
    pub(crate) wanted: Wanted,
    pub(crate) sweep: Sweep,
    /// The operations that it makes on its chip, where they are listed.
    pub(crate) operations: Vec<Operation>,
    /// How far the input goes with each of its lines, and what is written by then.
    pub(crate) parts: Vec<Part>,
    /// How much of what is written comes before the input is at its end.
    pub(crate) lines_written: usize,
}

/// The expected outcome of a command.
#[derive(Drop)]
pub(crate) struct Wanted {
    pub(crate) status: u32,
    pub(crate) written: Vec<u8>,
    /// Whether what is written is checked.
    pub(crate) seen: bool,
    /// The bytes of the input that it leaves, at least.
    pub(crate) rest: u32,
    /// Whether the bytes that it reads of its chips are counted, and how many more than in the row before they have to be: at
    /// most, and at least.
    pub(crate) counted: bool,
    pub(crate) most_taken: Option<u32>,
    pub(crate) least_taken: u32,
}

/// The outcome of a command.
#[derive(Drop)]
pub(crate) struct Came {
    pub(crate) status: u8,
    pub(crate) written: Vec<u8>,
    pub(crate) rest: usize,
    pub(crate) taken: u64,
}

/// The words of a text. There are none in an empty one.
fn words_of(alloc: Global, text: &str) -> Result<Vec<String>, AllocError> {
    let mut words = Vec::new(alloc);
    if text != "" {
        for word in text.split(' ') {
            words.push(String::from_str(alloc, word)?)?;
        }
    }
    Ok(words)
}

/// A mask of these bytes, repeated.
fn spread(bytes: &[u8]) -> [u8; MASK_SIZE] {
    let mut mask = [0xFF; MASK_SIZE];
    if bytes.is_empty() {
        return mask;
    }
    for k in 0..MASK_SIZE {
        mask[k] = bytes[k % bytes.len()];
    }
    mask
}

/// The operation at which chips stop, if there is one.
fn stopping(number: u32) -> Option<u32>
    ensures { IfSome result (λ n. 1 ≤ n) }
{
    if number > 0 { Some(number) } else { None }
}

/// Stops chips whose first operation stops, which leaves their bytes unchanged.
fn stop_all(boards: &mut [Fused<Board>]) {
    for board in boards.iter_mut() {
        let _ = board.program(0, &[0xFF]);
    }
}

impl Row {
    /// A command of these words, which has no input, and is done without writing anything.
    pub(crate) fn new(alloc: Global, line: usize, words: &str) -> Result<Row, AllocError> {
        Ok(Row {
            line,
            words: words_of(alloc, words)?,
            input: Vec::new(alloc),
            outside: CALM,
            wanted: Wanted {
                status: 0,
                written: Vec::new(alloc),
                seen: true,
                rest: 0,
                counted: false,
                most_taken: None,
                least_taken: 0,
            },
            sweep: Sweep::Once,
            operations: Vec::new(alloc),
            parts: Vec::new(alloc),
            lines_written: usize::MAX,
        })
    }

    /// Sets what a line says of the row by its words alone. It answers whether there is such a line.
    pub(crate) fn mark(&mut self, head: &str, rest: &str) -> bool {
        match (head, rest) {
            (">?", "") => self.wanted.seen = false,
            ("end", "") => self.lines_written = self.wanted.written.len(),
            ("stopped", "") => self.outside.stopped = true,
            ("counted", "") => self.wanted.counted = true,
            ("each", "read") => self.sweep = Sweep::Reads,
            ("each", "write") => self.sweep = Sweep::Writes,
            ("each", "byte") => self.sweep = Sweep::Bytes,
            _ => return false,
        }
        true
    }

    /// Sets a number of the row. It answers whether there is such a number.
    pub(crate) fn set(&mut self, head: &str, number: u32) -> bool {
        match head {
            "=" => self.wanted.status = number,
            "rest" => self.wanted.rest = number,
            "most" => self.wanted.most_taken = Some(number),
            "least" => self.wanted.least_taken = number,
            "piece" => self.outside.piece = number,
            "read" => self.outside.read = number,
            "write" => self.outside.write = number,
            "call" => self.outside.call = number,
            "room" => self.outside.room = Some(number),
            "stop" => self.outside.stop = number,
            _ => return false,
        }
        true
    }

    /// Takes bytes of a row. It answers whether there are such bytes.
    pub(crate) fn take(&mut self, head: &str, bytes: &[u8]) -> Result<bool, AllocError> {
        match head {
            "<" | "<x" | "<@" => self.give(bytes)?,
            ">" | ">x" | ">@" => self.want(bytes)?,
            "mask" => self.outside.mask = spread(bytes),
            _ => return Ok(false),
        }
        Ok(true)
    }

    /// Appends these bytes to the input.
    fn give(&mut self, bytes: &[u8]) -> Result<(), AllocError> {
        self.input.extend_from_slice(bytes)?;
        self.parts.push(Part {
            given: self.input.len(),
            written: self.wanted.written.len(),
        })?;
        Ok(())
    }

    /// Appends these bytes to what must be written.
    fn want(&mut self, bytes: &[u8]) -> Result<(), AllocError> {
        self.wanted.written.extend_from_slice(bytes)?;
        if let Some(part) = self.parts.last_mut() {
            part.written = self.wanted.written.len();
        }
        Ok(())
    }

    /// Runs the command over chips in a turn.
    pub(crate) fn play<R: Runner>(
        &self,
        alloc: Global,
        runner: &R,
        outside: &Outside,
        chips: &mut [Chip],
    ) -> Result<Came, AllocError> {
        if self.wanted.counted {
            self.play_counted(alloc, runner, outside, chips)
        } else {
            self.play_fused(alloc, runner, outside, chips)
        }
    }

    /// Runs it over chips that count how much of them is read.
    fn play_counted<R: Runner>(
        &self,
        alloc: Global,
        runner: &R,
        outside: &Outside,
        chips: &mut [Chip],
    ) -> Result<Came, AllocError> {
        let mut counted = Vec::new(alloc);
        let each = chips.iter_mut();
        for chip in each {
            counted.push(Counted::new(&mut chip.board))?;
        }
        let mut came = self.run_over(alloc, runner, outside, &mut counted)?;
        for board in counted.iter() {
            came.taken = came.taken.saturating_add(board.taken());
        }
        Ok(came)
    }

    /// Runs it over chips that stop where that is said.
    fn play_fused<R: Runner>(
        &self,
        alloc: Global,
        runner: &R,
        outside: &Outside,
        chips: &mut [Chip],
    ) -> Result<Came, AllocError> {
        let stop = if outside.stopped { 1 } else { outside.stop };
        let mask = &outside.mask;
        let mut fused = Vec::new(alloc);
        let each = chips.iter_mut();
        for chip in each {
            fused.push(Fused::new(&mut chip.board, stopping(stop), mask))?;
        }
        if outside.stopped {
            stop_all(&mut fused);
        }
        self.run_over(alloc, runner, outside, &mut fused)
    }

    /// Runs it over boards.
    fn run_over<R: Runner, N: Nor>(
        &self,
        alloc: Global,
        runner: &R,
        outside: &Outside,
        boards: &mut Vec<N>,
    ) -> Result<Came, AllocError> {
        let mut clock = StepClock::new(CLOCK_STEP);
        let mut link = outside.link(alloc)?;
        let mut input = outside.input(alloc, &self.input)?;
        let ample = self.wanted.written.len().saturating_add(MORE);
        let mut out = outside.output(alloc, ample)?;
        let words = &self.words;
        let status = runner.run(
            alloc, words, &mut input, &mut out, boards, &mut link, &mut clock,
        );
        Ok(Came {
            status: status.code(),
            written: Vec::from_slice(alloc, out.bytes())?,
            rest: rest(&mut input),
            taken: 0,
        })
    }
}

impl Wanted {
    /// Whether the outcome of a turn is the expected one, if the command before it read this many bytes of its chips.
    pub(crate) fn is_met(&self, turn: &Turn, came: &Came, before: u64) -> bool {
        let more = came.taken.saturating_sub(before);
        let most = match self.most_taken {
            Some(most) => u64::from(most),
            None => u64::MAX,
        };
        u32::from(came.status) == turn.status
            && (!self.seen || Some(came.written.as_slice()) == self.written.get(..turn.written))
            && came.rest >= self.rest as usize
            && more <= most
            && more >= u64::from(self.least_taken)
    }
}
