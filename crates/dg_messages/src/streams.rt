//! Standard input and output, or any other reader and writer of std, that keep why they failed.
ghost use Rattle.std.specs.Prelude.{◌≡◌, ◌≤◌, ℕ, List, None, OnOk, OnErr};
ghost use Rattle.dg_words.specs.Counts.{Rose};
ghost use Rattle.dg_end.specs.Texts.{line};
ghost use Rattle.dg_messages.specs.Keeping.{MayEnd, kept_of};

use crate::causes::{InputFault, OutputFault};
use arrayvec::ArrayVec;
use dg_base::{ReadFailed, Sink, Source, WriteFailed};
use std::io::{ErrorKind, Read, Write};

/// A reader as a source that does not expose its bytes. It keeps why its last read failed.
#[derive(Drop)]
pub struct Input<R> {
    reader: R,
    fault: InputFault,
    faults: u64,
}

impl<R: Read> Input<R> {
    /// A source that reads from `reader`, without faults so far.
    pub fn new(reader: R) -> Input<R>
        ensures { result.faults ≡ 0 }
    {
        Input {
            reader,
            fault: InputFault::Failed,
            faults: 0,
        }
    }

    /// Why the last read failed, if one did.
    pub fn fault(&self) -> InputFault
        ensures { result ≡ self.now.fault }
    {
        self.fault
    }
}

impl<R: Read> Source for Input<R> {
    ghost left = { λ _. None };

    ghost faults = { λ input. input.faults };

    fn read(&mut self, into: &mut [u8]) -> Result<usize, ReadFailed> {
        match self.reader.read(into) {
            Ok(count) => Ok(count),
            Err(error) => {
                self.fault = input_fault(error.kind());
                self.faults = self.faults.saturating_add(1);
                Err(ReadFailed)
            }
        }
    }
}

fn input_fault(kind: ErrorKind) -> InputFault {
    match kind {
        ErrorKind::IsADirectory => InputFault::NoStream,
        _ => InputFault::Failed,
    }
}

/// More bytes than a last line has.
const MOST: usize = 192;

/// A writer as a sink that does not expose its bytes. It keeps why its last write failed, and the line that it wrote last.
/// Each last line of a command is written by itself, is shorter than 192 bytes, and does not begin with `s`, as most lines
/// of a report do: those are not kept.
#[derive(Drop)]
pub struct Output<W> {
    writer: W,
    fault: OutputFault,
    faults: u64,
    kept: ArrayVec<u8, MOST>,
}

impl<W: Write> Output<W> {
    /// A sink that writes to `writer`, without faults so far.
    pub fn new(writer: W) -> Output<W>
        ensures { result.faults ≡ 0 }
    {
        Output {
            writer,
            fault: OutputFault::Failed,
            faults: 0,
            kept: ArrayVec::new(),
        }
    }

    /// Why the last write failed, if one did.
    pub fn fault(&self) -> OutputFault
        ensures { result ≡ self.now.fault }
    {
        self.fault
    }

    /// The line that is kept, without its LF.
    pub fn last_line(&self) -> &[u8]
        ensures { (text : List ℕ) → kept_of self.now ≡ line text → result.now ≡ text }
    {
        match self.kept.split_last() {
            Some((b'\n', text)) => text,
            _ => self.kept.as_slice(),
        }
    }

    /// Keeps what was written, if it may be a last line.
    fn keep(&mut self, bytes: &[u8])
        ensures kept { MayEnd bytes.now → kept_of self.new ≡ bytes.now }
        ensures faults { self.new.faults ≡ self.old.faults }
    {
        if bytes.first() == Some(&b's') {
            return;
        }
        self.kept.clear();
        let _ = self.kept.try_extend_from_slice(bytes);
    }
}

impl<W: Write> Sink for Output<W> {
    ghost written = { λ _. None };

    ghost faults = { λ output. output.faults };

    fn write(&mut self, bytes: &[u8]) -> Result<(), WriteFailed>
        ensures counts { self.old.faults ≤ self.new.faults }
        ensures failed { OnErr result (Rose self.old.faults self.new.faults) }
        ensures unfailed { OnOk result (self.new.faults ≡ self.old.faults) }

        // What may be a last line is kept.
        ensures kept { OnOk result (MayEnd bytes.now → kept_of self.new ≡ bytes.now) }
    {
        match self.writer.write_all(bytes) {
            Ok(()) => {
                self.keep(bytes);
                Ok(())
            }
            Err(error) => {
                self.fault = output_fault(error.kind());
                self.faults = self.faults.saturating_add(1);
                Err(WriteFailed)
            }
        }
    }
}

fn output_fault(kind: ErrorKind) -> OutputFault {
    match kind {
        ErrorKind::StorageFull | ErrorKind::QuotaExceeded => OutputFault::Full,
        ErrorKind::BrokenPipe => OutputFault::NoReader,
        _ => OutputFault::Failed,
    }
}
