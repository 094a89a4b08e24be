//! Writes what a mote sends to its line.
ghost use Rattle.std.specs.Prelude.{◌≡◌, ◌≤◌, IfSome, IfOk, OnOk, length};
ghost use Rattle.dg_base.specs.Sizes.{longest_frame};
ghost use Rattle.dg_mote.specs.Motes.{sent_in};
ghost use Rattle.dg_serial.specs.Line.{stuffed, stuffed_line, IsOnLine};
ghost use Rattle.dg_serial_base.specs.inner.Standing.{SendEnds, WriteCounts, one_if};

use dg_base::{Sink, WriteFailed};
use dg_end::End;
use dg_mote::Outbox;
use dg_serial::stuff;

/// Writes a frame as it is on the line. `text` is used for it.
fn write_frame<K: Sink>(frame: &[u8], text: &mut Vec<u8>, out: &mut K) -> Result<(), End>
    requires some { 1 ≤ length frame.now }
    requires most { length frame.now ≤ longest_frame }
    ensures sends { SendEnds result (stuffed frame.now) (K.written out.old) (K.written out.new) }
    ensures counts { WriteCounts result (K.faults out.old) (K.faults out.new) }
{
    text.clear();
    stuff(frame, text)?;
    match out.write(text.as_slice()) {
        Ok(()) => Ok(()),
        Err(WriteFailed) => Err(End::WriteFault),
    }
}

/// Writes the frame of an outbox as it is on the line, if there is one. `text` is used for it.
pub(crate) fn send<K: Sink>(outbox: &Outbox, text: &mut Vec<u8>, out: &mut K) -> Result<(), End>
    requires { IfSome (sent_in outbox.now) (λ frame. 1 ≤ length frame) }
    ensures sends { SendEnds result (stuffed_line (one_if (sent_in outbox.now))) (K.written out.old) (K.written out.new) }
    ensures counts { WriteCounts result (K.faults out.old) (K.faults out.new) }
    ensures fits { IfSome (sent_in outbox.now) IsOnLine }
{
    match outbox.frame() {
        None => Ok(()),
        Some(frame) => write_frame(frame.as_slice(), text, out),
    }
}
