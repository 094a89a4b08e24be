//! Reads the lines of an input one after another.
ghost use Rattle.std.specs.Prelude.{⊤, ◌≡◌, ◌≢◌, ℕ, ◌+◌, ◌-◌, ◌<◌, ◌≤◌, List, [], ◌++◌, length, take, slice_range, vec_capacity};
ghost use Rattle.std.specs.Prelude.{Some, IfOk};
ghost use Rattle.std.specs.Prelude.{OnOk, OnErr, Ok, Err};
ghost use Rattle.std.specs.Str.Lines.{strip_carriage_return};
ghost use Rattle.dg_words.specs.Counts.{Rose};
ghost use Rattle.dg_base.specs.Outside.{Takes, AtEnd};
ghost use Rattle.dg_lines.specs.LineReading.{most_kept, most_used_bytes, HasNoEnd, NextAnswer, FillAnswer, PassAnswer, EndsAt};

use dg_base::{ReadFailed, Source};
use dg_script::{KEPT, LONGEST, USED};
use memchr::memchr;
use std::alloc::{AllocError, Global};
use std::marker::Model;

/// The length of the buffer at first, in bytes, and by how much it grows when a line needs more.
const WINDOW: usize = 65_536;

/// Why no further line is read. The reader is not used again.
#[derive(Clone, Copy, Debug, PartialEq, Eq)]
pub enum ReadStop {
    /// A read failed.
    ReadFault,
    /// The next line, which has this number, is longer than a line may be.
    Long { line: u32 },
    /// There are more bytes than are used, and no further line ends among those that are used.
    TooLong,
}

/// The lines of an input. No more bytes are taken than the next line needs, except for those that the same read
/// returns: at most 300,002 past the line that was given.
#[derive(Drop)]
pub struct LineReader {
    /// The bytes from `from` to `to` were taken, but belong to no line that was given yet. It has the capacity for the
    /// longest line.
    buffer: Vec<u8>,
    from: usize,
    to: usize,
    /// How many bytes were taken.
    taken: usize,
    /// The lines that were given.
    number: u32,
    /// Where the text of the last line is.
    text_from: usize,
    text_to: usize,
}

impl Model for LineReader {
    ghost use Rattle.std.specs.Prelude.{◌==◌, ◌+◌, ◌-◌, ◌≤◌, length, slice_range, vec_capacity};
    ghost use Rattle.dg_lines.specs.LineReading.{Reading, most_kept, most_used_bytes};

    ghost Value = { Reading };

    ghost view = { λ r. record {
      ahead = slice_range r.buffer.items r.from r.to;
      passed = r.taken - (r.to - r.from);
      number = r.number;
      text = slice_range r.buffer.items r.text_from r.text_to;
      last = r.text_to == r.from;
    } };

    ghost invariant = { λ r. (length r.buffer.items ≤ most_kept) × (r.from ≤ r.to) × (r.to ≤ length r.buffer.items)
        × (r.number + (r.to - r.from) ≤ r.taken)
        × (r.taken ≤ most_used_bytes) × (r.text_from ≤ r.text_to) × (r.text_to ≤ length r.buffer.items)
        × (most_kept ≤ vec_capacity r.buffer) };
}

impl LineReader {
    /// Reads an input from its beginning.
    pub fn new(alloc: Global) -> Result<LineReader, AllocError>
        ensures { IfOk result (λ r. (r.ahead ≡ []) × (r.passed ≡ 0) × (r.number ≡ 0)) }
    {
        let mut buffer = Vec::with_capacity(alloc, KEPT)?;
        buffer.resize(WINDOW, 0)?;
        Ok(LineReader {
            buffer,
            from: 0,
            to: 0,
            taken: 0,
            number: 0,
            text_from: 0,
            text_to: 0,
        })
    }

    /// The text of the line that was given last.
    pub fn text(&self) -> &[u8]
        ensures { result.now ≡ self.now.text }
    {
        &self.buffer[self.text_from..self.text_to]
    }

    /// Whether the line that was given last ends with the input, and not with LF. No line comes after it then, even if the
    /// source had more bytes when it was asked again.
    pub fn is_last(&self) -> bool
        ensures { result ≡ self.now.last }
    {
        self.text_to == self.from
    }

    /// The number of the next line, or None at the end of the input. After an `Err` the reader is not used again.
    #[inline(always)]
    pub fn next<S: Source>(&mut self, input: &mut S) -> Result<Option<u32>, ReadStop>
        ensures answer { (more : List ℕ) × Takes (S.left input.old) (S.left input.new) more
            × NextAnswer result (self.old.ahead ++ more) self.old self.new (AtEnd (S.left input.new))
            (Rose (S.faults input.old) (S.faults input.new)) }
        ensures counts { S.faults input.old ≤ S.faults input.new }
        ensures unfailed { result ≢ Err ReadStop.ReadFault → S.faults input.new ≡ S.faults input.old }
    {
        let _ = &self.buffer;
        match self.find(0) {
            Some(at) => self.give(at),
            None => self.next_far(input),
        }
    }

    /// The same, where no line ends among the bytes that are kept.
    #[inline(never)]
    fn next_far<S: Source>(&mut self, input: &mut S) -> Result<Option<u32>, ReadStop>
        ensures answer { (more : List ℕ) × Takes (S.left input.old) (S.left input.new) more
            × NextAnswer result (self.old.ahead ++ more) self.old self.new (AtEnd (S.left input.new))
            (Rose (S.faults input.old) (S.faults input.new)) }
        ensures counts { S.faults input.old ≤ S.faults input.new }
        ensures unfailed { result ≢ Err ReadStop.ReadFault → S.faults input.new ≡ S.faults input.old }
    {
        let _ = &self.buffer;
        let mut looked = 0;
        loop {
            if let Some(at) = self.find(looked) {
                return self.give(at);
            }
            looked = self.to - self.from;
            if looked == KEPT {
                return Err(self.skip(input));
            }
            if self.fill(input)? == 0 {
                return self.give_rest();
            }
        }
    }

    /// Where the next LF is among the bytes that are kept. The first of them are known to have no LF.
    fn find(&self, looked: usize) -> Option<usize>
        requires within { looked ≤ length self.now.ahead }
        requires none { HasNoEnd (take looked self.now.ahead) }
        ensures { EndsAt result self.now.ahead }
    {
        match memchr(b'\n', &self.buffer[self.from + looked..self.to]) {
            Some(at) => Some(looked + at),
            None => None,
        }
    }

    /// Gives the line that ends with the LF at this place.
    fn give(&mut self, at: usize) -> Result<Option<u32>, ReadStop>
        requires { EndsAt (Some at) self.old.ahead }
        ensures { NextAnswer result self.old.ahead self.old self.new ⊥ ⊥ }
    {
        let end = self.from + at;
        let text_to = text_end(&self.buffer, self.from, end);
        if text_to - self.from > LONGEST {
            return Err(ReadStop::Long {
                line: self.number + 1,
            });
        }
        self.number += 1;
        self.text_from = self.from;
        self.text_to = text_to;
        self.from = end + 1;
        Ok(Some(self.number))
    }

    /// Gives the last line of an input that is at its end, if a line is left.
    fn give_rest(&mut self) -> Result<Option<u32>, ReadStop>
        requires { HasNoEnd self.old.ahead }
        ensures { NextAnswer result self.old.ahead self.old self.new ⊤ ⊥ }
    {
        if self.from == self.to {
            return Ok(None);
        }
        if self.to - self.from > LONGEST {
            return Err(ReadStop::Long {
                line: self.number + 1,
            });
        }
        self.number += 1;
        self.text_from = self.from;
        self.text_to = self.to;
        self.from = self.to;
        Ok(Some(self.number))
    }

    /// Takes bytes after those that are kept, and returns how many came.
    fn fill<S: Source>(&mut self, input: &mut S) -> Result<usize, ReadStop>
        requires { length self.old.ahead < most_kept }
        ensures answer { (more : List ℕ) × Takes (S.left input.old) (S.left input.new) more
            × FillAnswer result more self.old self.new (AtEnd (S.left input.new))
            (Rose (S.faults input.old) (S.faults input.new)) }
        ensures counts { S.faults input.old ≤ S.faults input.new }
        ensures unfailed { result ≢ Err ReadStop.ReadFault → S.faults input.new ≡ S.faults input.old }
    {
        if self.taken == USED {
            return end_of(input);
        }
        let (from, to) = (self.from, self.to);
        make_room(&mut self.buffer, from, to);
        self.to = to - from;
        self.from = 0;
        let at = self.to;
        let most = (self.buffer.len() - at).min(USED - self.taken);
        match read_behind(input, &mut self.buffer, at, most) {
            Ok(count) => {
                self.to += count;
                self.taken += count;
                Ok(count)
            }
            Err(stop) => Err(stop),
        }
    }

    /// Reads a line that is too long to its end, and keeps nothing of it.
    fn skip<S: Source>(&mut self, input: &mut S) -> ReadStop
        requires full { length self.old.ahead ≡ most_kept }
        requires used { self.old.passed + length self.old.ahead ≤ most_used_bytes }
        requires none { HasNoEnd self.old.ahead }
        ensures answer { (more : List ℕ) × Takes (S.left input.old) (S.left input.new) more
            × NextAnswer (Err result) (self.old.ahead ++ more) self.old self.new (AtEnd (S.left input.new))
            (Rose (S.faults input.old) (S.faults input.new)) }
        ensures counts { S.faults input.old ≤ S.faults input.new }
        ensures unfailed { result ≢ ReadStop.ReadFault → S.faults input.new ≡ S.faults input.old }
    {
        loop {
            if let Some(stop) = self.pass_over(input) {
                return stop;
            }
        }
    }

    /// Takes further bytes of a line that is too long, and drops those that are kept. None if the line goes on.
    fn pass_over<S: Source>(&mut self, input: &mut S) -> Option<ReadStop>
        ensures answer { (more : List ℕ) × Takes (S.left input.old) (S.left input.new) more
            × PassAnswer result more self.old self.new (AtEnd (S.left input.new))
            (Rose (S.faults input.old) (S.faults input.new)) }
        ensures counts { S.faults input.old ≤ S.faults input.new }
        ensures unfailed { result ≢ Some ReadStop.ReadFault → S.faults input.new ≡ S.faults input.old }
    {
        self.from = self.to;
        match self.fill(input) {
            Err(stop) => Some(stop),
            Ok(0) => Some(ReadStop::Long {
                line: self.number + 1,
            }),
            Ok(_) => match self.find(0) {
                Some(_) => Some(ReadStop::Long {
                    line: self.number + 1,
                }),
                None => None,
            },
        }
    }
}

/// Moves these bytes to the beginning, and grows the buffer if they fill it.
fn make_room(buffer: &mut Vec<u8>, from: usize, to: usize)
    requires ordered { from ≤ to }
    requires within { to ≤ length buffer.old.items }
    requires few { to - from < most_kept }
    requires most { length buffer.old.items ≤ most_kept }
    requires capacity { most_kept ≤ vec_capacity buffer.old }
    ensures moved { take (to - from) buffer.new.items ≡ slice_range buffer.old.items from to }
    ensures room { to - from < length buffer.new.items }
    ensures longer { length buffer.old.items ≤ length buffer.new.items }
    ensures most { length buffer.new.items ≤ most_kept }
    ensures capacity { most_kept ≤ vec_capacity buffer.new }
{
    close_up(buffer, from, to);
    if to - from < buffer.len() {
        return;
    }
    let longer = KEPT.min(buffer.len() + WINDOW);
    lengthen(buffer, longer);
}

/// Makes a buffer this long. It has the capacity, so nothing is allocated.
#[inline(never)]
fn lengthen(buffer: &mut Vec<u8>, longer: usize)
    requires order { length buffer.old.items ≤ longer }
    requires capacity { longer ≤ vec_capacity buffer.old }
    ensures long { length buffer.new.items ≡ longer }
    ensures kept { take (length buffer.old.items) buffer.new.items ≡ buffer.old.items }
    ensures capacity { vec_capacity buffer.old ≤ vec_capacity buffer.new }
{
    let _ = buffer.resize(longer, 0);
}

/// Moves these bytes to the beginning.
fn close_up(bytes: &mut [u8], from: usize, to: usize)
    requires ordered { from ≤ to }
    requires within { to ≤ length bytes.old }
    ensures moved { take (to - from) bytes.new ≡ slice_range bytes.old from to }
    ensures long { length bytes.new ≡ length bytes.old }
{
    bytes.copy_within(from..to, 0);
}

/// Takes at most this many bytes, and puts them at this place.
fn read_behind<S: Source>(
    input: &mut S,
    bytes: &mut [u8],
    at: usize,
    most: usize,
) -> Result<usize, ReadStop>
    requires within { at + most ≤ length bytes.old }
    requires some { 0 < most }
    ensures answer { (more : List ℕ) × Takes (S.left input.old) (S.left input.new) more × (length more ≤ most)
        × IfOk result (λ n. (n ≡ length more) × (take (at + n) bytes.new ≡ take at bytes.old ++ more)
        × (n ≡ 0 → AtEnd (S.left input.new)))
        × OnErr result (more ≡ []) }
    ensures long { length bytes.new ≡ length bytes.old }
    ensures failed { OnErr result ((result ≡ Err ReadStop.ReadFault) × Rose (S.faults input.old) (S.faults input.new)) }
    ensures counts { S.faults input.old ≤ S.faults input.new }
    ensures unfailed { result ≢ Err ReadStop.ReadFault → S.faults input.new ≡ S.faults input.old }
{
    match input.read(&mut bytes[at..at + most]) {
        Ok(count) => Ok(count),
        Err(ReadFailed) => Err(ReadStop::ReadFault),
    }
}

/// The end of a text, without one CR at its end.
fn text_end(bytes: &[u8], from: usize, to: usize) -> usize
    requires ordered { from ≤ to }
    requires within { to ≤ length bytes.now }
    ensures start { from ≤ result }
    ensures end { result ≤ to }
    ensures text { slice_range bytes.now from result ≡ strip_carriage_return (slice_range bytes.now from to) }
{
    if from < to && bytes[to - 1] == b'\r' {
        to - 1
    } else {
        to
    }
}

/// Returns 0 if the input is at its end after the bytes that are used. Otherwise it is too long.
fn end_of<S: Source>(input: &mut S) -> Result<usize, ReadStop>
    ensures ended { OnOk result ((result ≡ Ok 0) × AtEnd (S.left input.new) × (S.left input.new ≡ S.left input.old)) }
    ensures over { result ≡ Err ReadStop.TooLong → (more : List ℕ) × (length more ≡ 1)
        × Takes (S.left input.old) (S.left input.new) more }
    ensures failed { result ≡ Err ReadStop.ReadFault → Rose (S.faults input.old) (S.faults input.new)
        × (S.left input.new ≡ S.left input.old) }
    ensures never { (line : ℕ) → result ≡ Err (ReadStop.Long line) → ⊥ }
    ensures counts { S.faults input.old ≤ S.faults input.new }
    ensures unfailed { result ≢ Err ReadStop.ReadFault → S.faults input.new ≡ S.faults input.old }
{
    match input.read(&mut [0]) {
        Ok(0) => Ok(0),
        Ok(_) => Err(ReadStop::TooLong),
        Err(ReadFailed) => Err(ReadStop::ReadFault),
    }
}
