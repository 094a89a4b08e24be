//! What is written if the command line is invalid, or asks for help or the version.
ghost use Rattle.std.specs.Prelude.{◌≡◌, ◌≢◌, ◌≤◌, [], Some, codes};
ghost use Rattle.dg_outside.specs.Outside.{output_of};
ghost use Rattle.dg_end.specs.Texts.{line};
ghost use Rattle.dg_end.specs.Writes.{WritesLast};

use dg_base::{Sink, Status, WriteFailed};

/// Reports that the command line is invalid.
pub(crate) fn tell_usage<K: Sink>(out: &mut K) -> Status
    ensures written { WritesLast result Status.Usage (Some (line (codes "usage"))) (output_of (K.Sink, out.old))
        (output_of (K.Sink, out.new)) }
    ensures room { result ≢ Status.Memory }
    ensures counts { K.faults out.old ≤ K.faults out.new }
{
    match out.write(b"usage\n") {
        Ok(()) => Status::Usage,
        Err(WriteFailed) => Status::WriteFault,
    }
}

/// Writes a text of help.
pub(crate) fn tell_help<K: Sink>(out: &mut K, text: &str) -> Status
    requires some { text.now ≢ [] }
    ensures written { WritesLast result Status.Done (Some text.now) (output_of (K.Sink, out.old)) (output_of (K.Sink, out.new)) }
    ensures room { result ≢ Status.Memory }
    ensures counts { K.faults out.old ≤ K.faults out.new }
{
    match out.write(text.as_bytes()) {
        Ok(()) => Status::Done,
        Err(WriteFailed) => Status::WriteFault,
    }
}

/// Writes the line on the version.
pub(crate) fn tell_version<K: Sink>(out: &mut K) -> Status
    ensures written { WritesLast result Status.Done (Some (line (codes "deluge 0.9"))) (output_of (K.Sink, out.old))
        (output_of (K.Sink, out.new)) }
    ensures room { result ≢ Status.Memory }
    ensures counts { K.faults out.old ≤ K.faults out.new }
{
    match out.write(b"deluge 0.9\n") {
        Ok(()) => Status::Done,
        Err(WriteFailed) => Status::WriteFault,
    }
}
