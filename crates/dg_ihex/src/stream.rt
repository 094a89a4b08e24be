//! Reads HEX files that come in pieces.
ghost use Rattle.std.specs.Prelude.{◌≡◌, ◌≢◌, ℕ, ◌+◌, ◌≤◌, ◌<◌, ◌%◌, ◌==◌, ◌↔◌, List, [], ◌∷◌, ◌++◌, length, take, All, IfOk};
ghost use Rattle.std.specs.Prelude.{IfErr, OnOk, false};
ghost use Rattle.std.specs.List.{list_all};
ghost use Rattle.dg_base.specs.Hexadecimal.{is_hex_digit};
ghost use Rattle.dg_ihex.specs.Files.{hex_file};
ghost use Rattle.dg_ihex.specs.Reading.{ReadsFile};
ghost use Rattle.dg_ihex.specs.Streams.{Advances, AdvancesTo, ReadsAlike, Stays};
ghost use Rattle.dg_ihex.specs.Sizes.{most_text, longest_record};

use crate::faults::{HexCause, HexFileFault};
use crate::reader::Numbered;
use dg_base::next_line;
use std::alloc::{AllocError, Global};
use std::mem;

/// The bytes of the longest line of a record: `:`, and two digits for each of 260 bytes.
pub(crate) const LONGEST_RECORD: usize = 521;

// The open line is shortened once it has this many bytes.
const LONG_LINE: usize = 1024;

/// The lines of a file so far, and the line that has not ended.
#[derive(Debug, Drop)]
pub struct Stream {
    numbered: Numbered,
    // What is kept of the open line. In place of a line that is too long for a record, a shorter one is kept that is refused
    // for the same cause, whatever comes after.
    kept: Vec<u8>,
}

impl Stream {
    ghost use Rattle.dg_ihex.specs.Streams.{Going};

    // A stream of no bytes.
    fn new(alloc: Global) -> Stream
        ensures { Going result [] }
    {
        Stream {
            numbered: Numbered::new(alloc),
            kept: Vec::new(alloc),
        }
    }

    // Takes the next bytes, which an LF follows.
    fn end_line(&mut self, alloc: Global, bytes: &[u8]) -> Result<(), HexFileFault>
        ensures { (input : List ℕ) → Going self.old input → length input ≤ most_text → All (λ b. (b == 10) ≡ false) bytes.now
            → Advances result (input ++ bytes.now ++ 10 ∷ []) (Going self.new (input ++ bytes.now ++ 10 ∷ [])) }
    {
        if self.kept.is_empty() {
            return self.numbered.take_ended(alloc, bytes);
        }
        let mut line = mem::replace(&mut self.kept, Vec::new(alloc));
        line.extend_from_slice(bytes)?;
        self.numbered.take_ended(alloc, &line)
    }

    // Takes the bytes of a piece from an offset to the end of their first line, and returns where that is.
    fn take_from(&mut self, alloc: Global, piece: &[u8], from: usize) -> Result<usize, HexFileFault>
        requires { from < length piece.now }
        ensures on { IfOk result (λ next. (from < next) × (next ≤ length piece.now)) }
        ensures goes { (input : List ℕ) → Going self.old (input ++ take from piece.now)
            → length input + length piece.now ≤ most_text + 1
            → AdvancesTo result input piece.now (λ next. Going self.new (input ++ take next piece.now)) }
    {
        let (end, next) = next_line(piece, from);
        if end == next {
            self.kept.extend_from_slice(&piece[from..next])?;
            return Ok(next);
        }
        self.end_line(alloc, &piece[from..next - 1])?;
        Ok(next)
    }

    // Takes the next bytes.
    fn take_piece(&mut self, alloc: Global, piece: &[u8]) -> Result<(), HexFileFault>
        ensures { (input : List ℕ) → Going self.old input → length input + length piece.now ≤ most_text + 1
            → Advances result (input ++ piece.now) (Going self.new (input ++ piece.now)) }
    {
        let mut from = 0;
        while from < piece.len() {
            from = self.take_from(alloc, piece, from)?;
        }
        Ok(())
    }

    // Keeps no more of the open line than shows what is wrong with it.
    fn shorten(&mut self, alloc: Global) -> Result<(), AllocError>
        ensures { (input : List ℕ) → Going self.old input → OnOk result (Going self.new input) }
    {
        if self.kept.len() < LONG_LINE {
            return Ok(());
        }
        self.kept = shortened(alloc, &self.kept)?;
        Ok(())
    }

    // The image of a file that ends here.
    fn finish(&mut self, alloc: Global) -> Result<Vec<u8>, HexFileFault>
        ensures read { (input : List ℕ) → Going self.old input → length input ≤ most_text
            → ReadsFile (λ image. image.items) result (hex_file input) }
        ensures memory { (input : List ℕ) → Going self.old input → length input ≤ most_text
            → IfErr result (λ fault. fault.cause ≡ HexCause.Memory → fault.line ≡ 0) }
    {
        if self.kept.is_empty() {
            return self.numbered.image(alloc);
        }
        self.numbered.take_line(alloc, &self.kept)?;
        self.numbered.image(alloc)
    }
}

// A shorter line, in place of one that is too long for a record.
fn shortened(alloc: Global, line: &[u8]) -> Result<Vec<u8>, AllocError>
    requires { longest_record + 3 < length line.now }
    ensures { IfOk result (λ short. Stays short.items line.now) }
{
    // `:` and pairs of digits. What follows may end in a CR that is not part of the text.
    let front = (line.len() - 2) / 2 * 2 + 1;
    let mut short = short_front(alloc, &line[..front])?;
    short.extend_from_slice(&line[front..])?;
    Ok(short)
}

// A shorter text, in place of this prefix of a line that is too long for a record.
fn short_front(alloc: Global, front: &[u8]) -> Result<Vec<u8>, AllocError>
    requires long { longest_record + 1 < length front.now }
    requires pairs { length front.now % 2 ≡ 1 }
    ensures { IfOk result (λ short. ReadsAlike short.items front.now) }
{
    if are_digits(&front[1..]) {
        return bytes_of(alloc, &front[..LONGEST_RECORD + 2]);
    }
    bytes_of(alloc, &[front[0], b'x'])
}

fn are_digits(bytes: &[u8]) -> bool
    ensures { result ≡ list_all is_hex_digit bytes.now }
{
    bytes.iter().all(|byte| is_digit(*byte))
}

#[tactic(auto, using(crate::proofs::LongLemmas::hexdigit))]
fn is_digit(byte: u8) -> bool
    ensures { result ≡ is_hex_digit byte }
{
    byte.is_ascii_hexdigit()
}

fn bytes_of(alloc: Global, bytes: &[u8]) -> Result<Vec<u8>, AllocError>
    ensures { IfOk result (λ short. short.items ≡ bytes.now) }
{
    bytes.to_vec(alloc)
}

/// Reads a HEX file that comes in pieces. It keeps the line that has not ended, and what the records so far gave.
///
/// Its contracts hold for files of at most 16,777,217 bytes.
#[derive(Debug, Drop)]
pub struct HexReader {
    stream: Stream,
    fault: Option<HexFileFault>,
    count: usize,
}

impl HexReader {
    ghost use Rattle.dg_ihex.specs.Streams.{Fed};

    /// A reader of no bytes.
    pub fn new(alloc: Global) -> HexReader
        ensures { Fed result [] }
    {
        HexReader {
            stream: Stream::new(alloc),
            fault: None,
            count: 0,
        }
    }

    /// The number of bytes so far.
    pub fn count(&self) -> usize
        ensures { (input : List ℕ) → Fed self.now input → result ≡ length input }
    {
        self.count
    }

    /// Reads the next bytes.
    pub fn feed(&mut self, alloc: Global, bytes: &[u8]) -> Result<(), AllocError>
        ensures { (input : List ℕ) → Fed self.old input → length input + length bytes.now ≤ most_text + 1
            → OnOk result (Fed self.new (input ++ bytes.now)) }
    {
        self.count = self.count.saturating_add(bytes.len());
        if self.fault.is_some() {
            return Ok(());
        }
        if let Err(fault) = self.stream.take_piece(alloc, bytes) {
            return self.keep(fault);
        }
        self.stream.shorten(alloc)
    }

    // Keeps the first fault.
    fn keep(&mut self, fault: HexFileFault) -> Result<(), AllocError>
        ensures kept { OnOk result ((self.new ≡ record self.old { fault = Some fault }) × (fault.cause ≢ HexCause.Memory)) }
    {
        if fault.cause == HexCause::Memory {
            return Err(AllocError);
        }
        self.fault = Some(fault);
        Ok(())
    }

    /// The image of the file. All of its bytes have come.
    pub fn finish(&mut self, alloc: Global) -> Result<Vec<u8>, HexFileFault>
        ensures read { (input : List ℕ) → Fed self.old input → length input ≤ most_text
            → ReadsFile (λ image. image.items) result (hex_file input) }
        ensures memory { (input : List ℕ) → Fed self.old input → length input ≤ most_text
            → IfErr result (λ fault. fault.cause ≡ HexCause.Memory → fault.line ≡ 0) }
    {
        match self.fault {
            Some(fault) => Err(fault),
            None => self.stream.finish(alloc),
        }
    }
}

/// The image of a HEX file.
///
/// A line ends at LF, or at CR and LF, and a blank line is ignored. The image begins at the lowest
/// address that a record gives a byte, and ends at the highest; what lies between and is not given
/// is 0xFF. If something is wrong, the first line with a fault is reported, with the first fault
/// there.
pub fn read_ihex(alloc: Global, bytes: &[u8]) -> Result<Vec<u8>, HexFileFault>
    requires { length bytes.now ≤ most_text }
    ensures read { ReadsFile (λ image. image.items) result (hex_file bytes.now) }
    ensures memory { IfErr result (λ fault. fault.cause ≡ HexCause.Memory → fault.line ≡ 0) }
{
    let mut reader = HexReader::new(alloc);
    reader.feed(alloc, bytes)?;
    reader.finish(alloc)
}
