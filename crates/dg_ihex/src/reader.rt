//! Reads the records and the lines of HEX files.
ghost use Rattle.std.specs.Prelude.{◌≡◌, ℕ, ◌≤◌, ◌≢◌, List, [], ◌∷◌, ◌++◌, length, take, IfErr, false, ⊤};
ghost use Rattle.std.specs.Str.Lines.{strip_carriage_return};
ghost use Rattle.dg_ihex.specs.Files.{cause_behind, cause_of, ended, first_cause, records_of};
ghost use Rattle.dg_ihex.specs.Reading.{ReadsFile, ReaderSteps};
ghost use Rattle.dg_ihex.specs.Causes.{out_of_memory};
ghost use Rattle.dg_ihex.specs.Sizes.{most_text, highest_base};

use crate::faults::{HexCause, HexFileFault};
use crate::record::{Record, SEGMENT, read_record};
use crate::window::{LONGEST_IMAGE, Window};
use dg_base::MOST_INPUT;
use std::alloc::Global;

/// The most bytes of a HEX file that is read.
pub const MOST_TEXT: usize = MOST_INPUT;

/// The bytes of a unit of an extended segment address.
pub(crate) const PARAGRAPH: usize = 16;

/// The highest base, that of the last segment below 2 ^ 32.
pub(crate) const HIGHEST_BASE: usize = 4_294_901_760;

/// What the records so far say.
#[derive(Debug, Drop)]
pub struct Reader {
    window: Window,
    base: usize,
    has_ended: bool,

    ghost based: { base ≤ highest_base },
}

impl Reader {
    ghost use Rattle.dg_ihex.specs.Readers.{ReaderStands};
    ghost use Rattle.dg_ihex.specs.declared.record.Record.{Record};
    ghost use Rattle.dg_ihex.specs.declared.record.Record.TheVariants as records;

    // A reader before the first record.
    fn new(alloc: Global) -> Reader
        ensures { ReaderStands result [] }
    {
        Reader {
            window: Window::new(alloc),
            base: 0,
            has_ended: false,
        }
    }

    // The next record.
    fn take(&mut self, next: Record) -> Result<(), HexCause>
        ensures { (before : List Record) → ReaderStands self.old before
            → ReaderSteps result (cause_behind before next) (ReaderStands self.new (before ++ next ∷ [])) }
    {
        match next {
            Record::Data { offset, bytes } => self.take_data(offset, bytes.as_slice()),
            Record::End => self.take_end(),
            Record::Segment(units) => self.take_segment(units),
            Record::Linear(units) => self.take_linear(units),
            Record::Start => self.take_start(),
        }
    }

    fn take_data(&mut self, offset: u16, bytes: &[u8]) -> Result<(), HexCause>
        ensures { (before : List Record) → ReaderStands self.old before
            → ReaderSteps result (cause_behind before (records.Data offset bytes.now))
            (ReaderStands self.new (before ++ records.Data offset bytes.now ∷ [])) }
    {
        if bytes.is_empty() {
            // Data of no bytes has no address.
            return self.check_open();
        }
        let address = self.base + usize::from(offset);
        if self.window.overlaps(address, bytes) {
            return Err(HexCause::Overlap);
        }
        if self.window.span_with(address, bytes) > LONGEST_IMAGE {
            return Err(HexCause::Span);
        }
        self.check_open()?;
        self.window.give(address, bytes)?;
        Ok(())
    }

    // What is wrong with any record after the end.
    fn check_open(&self) -> Result<(), HexCause>
        ensures { ReaderSteps result (first_cause false false self.now.has_ended) ⊤ }
    {
        if self.has_ended {
            return Err(HexCause::End);
        }
        Ok(())
    }

    fn take_end(&mut self) -> Result<(), HexCause>
        ensures { (before : List Record) → ReaderStands self.old before
            → ReaderSteps result (cause_behind before records.End) (ReaderStands self.new (before ++ records.End ∷ [])) }
    {
        self.check_open()?;
        self.has_ended = true;
        Ok(())
    }

    fn take_segment(&mut self, units: u16) -> Result<(), HexCause>
        ensures { (before : List Record) → ReaderStands self.old before
            → ReaderSteps result (cause_behind before (records.Segment units))
            (ReaderStands self.new (before ++ records.Segment units ∷ [])) }
    {
        self.check_open()?;
        self.base = usize::from(units) * PARAGRAPH;
        Ok(())
    }

    fn take_linear(&mut self, units: u16) -> Result<(), HexCause>
        ensures { (before : List Record) → ReaderStands self.old before
            → ReaderSteps result (cause_behind before (records.Linear units))
            (ReaderStands self.new (before ++ records.Linear units ∷ [])) }
    {
        self.check_open()?;
        self.base = usize::from(units) * SEGMENT;
        Ok(())
    }

    fn take_start(&self) -> Result<(), HexCause>
        ensures { (before : List Record) → ReaderStands self.now before
            → ReaderSteps result (cause_behind before records.Start) (ReaderStands self.now (before ++ records.Start ∷ [])) }
    {
        self.check_open()
    }

    // The next line.
    fn take_line(&mut self, alloc: Global, text: &[u8]) -> Result<(), HexCause>
        ensures { (before : List (List ℕ)) → ReaderStands self.old (records_of before)
            → ReaderSteps result (cause_of before text.now) (ReaderStands self.new (records_of (before ++ text.now ∷ []))) }
    {
        if text.is_empty() {
            return Ok(());
        }
        let record = read_record(alloc, text)?;
        self.take(record)
    }
}

/// Reads lines, and counts them.
#[derive(Debug, Drop)]
pub struct Numbered {
    reader: Reader,
    // The number of the next line, counted from 1.
    line: u32,
}

impl Numbered {
    ghost use Rattle.dg_ihex.specs.Readers.{Behind, Judges};

    /// A reader before the first line.
    pub fn new(alloc: Global) -> Numbered
        ensures { Behind result [] }
    {
        Numbered {
            reader: Reader::new(alloc),
            line: 1,
        }
    }

    /// The next line.
    pub fn take_line(&mut self, alloc: Global, text: &[u8]) -> Result<(), HexFileFault>
        ensures { (before : List (List ℕ)) → Behind self.old before → length before ≤ most_text
            → Judges result before text.now (Behind self.new (before ++ text.now ∷ [])) }
    {
        if let Err(cause) = self.reader.take_line(alloc, text) {
            return Err(fault_at(self.line, cause));
        }
        self.line = self.line.saturating_add(1);
        Ok(())
    }

    /// The next line, as it was before its LF.
    pub fn take_ended(&mut self, alloc: Global, line: &[u8]) -> Result<(), HexFileFault>
        ensures { (before : List (List ℕ)) → Behind self.old before → length before ≤ most_text
            → Judges result before (strip_carriage_return line.now)
            (Behind self.new (before ++ strip_carriage_return line.now ∷ [])) }
    {
        self.take_line(alloc, &line[..text_end(line)])
    }

    /// The image after the last line.
    pub fn image(&self, alloc: Global) -> Result<Vec<u8>, HexFileFault>
        ensures read { (before : List (List ℕ)) → Behind self.now before
            → ReadsFile (λ image. image.items) result (ended before) }
        ensures memory { IfErr result (λ fault. fault.cause ≡ HexCause.Memory → fault.line ≡ 0) }
    {
        if !self.reader.has_ended {
            return Err(fault_at(self.line, HexCause::End));
        }
        Ok(self.reader.window.image(alloc)?)
    }
}

// The end of the text of a line, without one CR at its end.
fn text_end(line: &[u8]) -> usize
    ensures within { result ≤ length line.now }
    ensures text { take result line.now ≡ strip_carriage_return line.now }
{
    if line.is_empty() {
        return 0;
    }
    let last = line.len() - 1;
    if line[last] == b'\r' {
        last
    } else {
        line.len()
    }
}

// A fault in a line. Running out of memory is reported at line 0.
fn fault_at(line: u32, cause: HexCause) -> HexFileFault
    ensures memory { cause ≡ HexCause.Memory → result ≡ out_of_memory }
    ensures fault { cause ≢ HexCause.Memory → result ≡ record { line = line; cause = cause } }
{
    if cause == HexCause::Memory {
        return HexFileFault { line: 0, cause };
    }
    HexFileFault { line, cause }
}
