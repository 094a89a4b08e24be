//! Standard input and output as a source and a sink, or any other reader and writer of std.
ghost use Rattle.std.specs.Prelude.{◌≡◌, ◌<◌, ◌≤◌, length, None, IfOk, OnOk, OnErr};
ghost use Rattle.std.specs.Io.KnownBytes.{Appends, ReadConsumes};
ghost use Rattle.std.specs.Bool.{OnTrue, OnFalse};
ghost use Rattle.dg_words.specs.Counts.{Rose};
ghost use Rattle.dg_base.specs.Standard.{reader_of, writer_of, faults_read, faults_written, AppendsPrefix};

use crate::outside::{ReadFailed, Sink, Source, WriteFailed};
use std::io::{Read, Write};

/// A reader of std as a source that does not expose its bytes, such as standard input.
#[derive(Drop)]
pub struct StdSource<R> {
    reader: R,
    faults: u64,
}

impl<R: Read> StdSource<R> {
    /// A source that reads from `reader`, without faults so far.
    pub fn new(reader: R) -> StdSource<R>
        ensures reader { reader_of result ≡ reader }
        ensures faults { faults_read result ≡ 0 }
    {
        StdSource { reader, faults: 0 }
    }
}

impl<R: Read> Source for StdSource<R> {
    ghost left = { λ _. None };

    ghost faults = { faults_read };

    fn read(&mut self, into: &mut [u8]) -> Result<usize, ReadFailed>
        requires { 0 < length into.old }
        ensures count { IfOk result (λ n. n ≤ length into.old) }
        ensures counts { faults_read self.old ≤ faults_read self.new }
        ensures failed { OnErr result (Rose (faults_read self.old) (faults_read self.new)) }

        // What the reader exposes of its bytes.
        ensures reader { ReadConsumes (R.remaining (reader_of self.old)) (R.remaining (reader_of self.new)) result into.new }
        ensures unfailed { OnOk result (faults_read self.new ≡ faults_read self.old) }
    {
        match self.reader.read(into) {
            Ok(count) => Ok(count),
            Err(_) => {
                self.faults = self.faults.saturating_add(1);
                Err(ReadFailed)
            }
        }
    }
}

/// A writer of std as a sink that does not expose its bytes, such as standard output.
#[derive(Drop)]
pub struct StdSink<W> {
    writer: W,
    faults: u64,
}

impl<W: Write> StdSink<W> {
    /// A sink that writes to `writer`, without faults so far.
    pub fn new(writer: W) -> StdSink<W>
        ensures writer { writer_of result ≡ writer }
        ensures faults { faults_written result ≡ 0 }
    {
        StdSink { writer, faults: 0 }
    }
}

impl<W: Write> Sink for StdSink<W> {
    ghost written = { λ _. None };

    ghost faults = { faults_written };

    /// Continues after a short write. A write that accepts nothing is a fault.
    fn write(&mut self, bytes: &[u8]) -> Result<(), WriteFailed>
        ensures counts { faults_written self.old ≤ faults_written self.new }
        ensures failed { OnErr result (Rose (faults_written self.old) (faults_written self.new)) }

        // What the writer exposes of its bytes.
        ensures whole { OnOk result (Appends (W.contents (writer_of self.old)) (W.contents (writer_of self.new)) bytes.now) }
        ensures front { OnErr result (AppendsPrefix (W.contents (writer_of self.old)) (W.contents (writer_of self.new))
            bytes.now) }
        ensures unfailed { OnOk result (faults_written self.new ≡ faults_written self.old) }
    {
        if write_whole(&mut self.writer, bytes) {
            return Ok(());
        }
        self.faults = self.faults.saturating_add(1);
        Err(WriteFailed)
    }
}

// Writes all of `bytes`. It gives up, and returns false, at an error and at a write that accepts
// nothing.
fn write_whole<W: Write>(writer: &mut W, bytes: &[u8]) -> bool
    ensures whole { OnTrue result (Appends (W.contents writer.old) (W.contents writer.new) bytes.now) }
    ensures front { OnFalse result (AppendsPrefix (W.contents writer.old) (W.contents writer.new) bytes.now) }
{
    let mut done = 0;
    while done < bytes.len() {
        match writer.write(&bytes[done..]) {
            Ok(count) if count > 0 => done += count,
            _ => return false,
        }
    }
    true
}
