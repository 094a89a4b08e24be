//! The bytes of the line, played one after the other.
ghost use Rattle.std.specs.Prelude.{◌≡◌, ℕ, ◌+◌, ◌*◌, ◌^◌, ◌<◌, ◌≤◌, List, [], ◌∷◌, ◌++◌, length, OnOk};
ghost use Rattle.dg_base.specs.Sizes.{longest_frame};
ghost use Rattle.dg_serial.specs.Reading.{items_told};
ghost use Rattle.dg_serial_base.specs.BaseEvents.{BaseEvent, Hears, Ticks};
ghost use Rattle.dg_serial_base.specs.inner.Standing.{base_events_of_items};
ghost use Rattle.dg_serial_base.specs.inner.Standing.{Counts, WriteCounts, ReadCounts, Outset, code_at, code_on_line};
ghost use Rattle.dg_serial_base.specs.inner.Standing.{IsStood, CompletedOn, ContinueEnds, StreamPlayed, StreamEnds};

use crate::running::Running;
use crate::sending::send;
use dg_base::Sink;
use dg_end::End;
use dg_mote::Outbox;
use dg_nor::Nor;
use dg_serial::{Fed, Unstuff, streams_go_on};

/// A base mote, what is known of its line, and the text that is written next.
#[derive(Drop)]
pub(crate) struct Player {
    pub(crate) running: Running,
    pub(crate) line: Unstuff,
    pub(crate) text: Vec<u8>,
}

impl Player {
    /// The mote ticks, and what it sends is written.
    fn pass<N: Nor, K: Sink>(&mut self, nor: &mut N, out: &mut K) -> Result<(), End>
        requires stood { IsStood self.old.running (N.device nor.old).image }
        requires early { self.old.running.timeline.moment < 2 ^ 61 }
        requires little { self.old.running.timeline.step ≤ 60000 }
        ensures ends { (a : Outset) (done : List BaseEvent)
            → CompletedOn a done (code_at (K.written out.old) self.old.running (N.device nor.old))
            → ContinueEnds result a (done ++ Ticks ∷ []) (code_at (K.written out.new) self.new.running (N.device nor.new)) }
        ensures stood { OnOk result (IsStood self.new.running (N.device nor.new).image) }
        ensures counts { Counts result (N.device nor.old) (N.device nor.new) }
        ensures writes { WriteCounts result (K.faults out.old) (K.faults out.new) }
        ensures reads { (n : ℕ) → ReadCounts result n n }
        ensures moment { self.new.running.timeline.moment ≤ self.old.running.timeline.moment + 60000 }
        ensures step { self.new.running.timeline.step ≡ self.old.running.timeline.step }
        ensures line { self.new.line ≡ self.old.line }
    {
        let mut outbox = Outbox::new();
        match self.running.tick(nor, &mut outbox) {
            Ok(()) => send(&outbox, &mut self.text, out),
            Err(end) => Err(end),
        }
    }

    /// The mote hears a frame, and ticks.
    fn play_frame<N: Nor, K: Sink>(
        &mut self,
        bytes: &[u8],
        nor: &mut N,
        out: &mut K,
    ) -> Result<(), End>
        requires stood { IsStood self.old.running (N.device nor.old).image }
        requires early { self.old.running.timeline.moment < 2 ^ 60 }
        requires little { self.old.running.timeline.step ≤ 60000 }
        ensures ends { (a : Outset) (done : List BaseEvent)
            → CompletedOn a done (code_at (K.written out.old) self.old.running (N.device nor.old))
            → ContinueEnds result a (done ++ Hears bytes.now ∷ Ticks ∷ [])
            (code_at (K.written out.new) self.new.running (N.device nor.new)) }
        ensures stood { OnOk result (IsStood self.new.running (N.device nor.new).image) }
        ensures counts { Counts result (N.device nor.old) (N.device nor.new) }
        ensures writes { WriteCounts result (K.faults out.old) (K.faults out.new) }
        ensures reads { (n : ℕ) → ReadCounts result n n }
        ensures moment { self.new.running.timeline.moment ≤ self.old.running.timeline.moment + 120000 }
        ensures step { self.new.running.timeline.step ≡ self.old.running.timeline.step }
        ensures line { self.new.line ≡ self.old.line }
    {
        match self.running.hear(nor, bytes) {
            Ok(()) => self.pass(nor, out),
            Err(end) => Err(end),
        }
    }

    /// Plays what a byte of the line gives.
    fn play<N: Nor, K: Sink>(&mut self, fed: &Fed, nor: &mut N, out: &mut K) -> Result<(), End>
        requires stood { IsStood self.old.running (N.device nor.old).image }
        requires early { self.old.running.timeline.moment < 2 ^ 60 }
        requires little { self.old.running.timeline.step ≤ 60000 }
        ensures ends { (a : Outset) (done : List BaseEvent)
            → CompletedOn a done (code_at (K.written out.old) self.old.running (N.device nor.old))
            → ContinueEnds result a (done ++ base_events_of_items (items_told fed.now))
            (code_at (K.written out.new) self.new.running (N.device nor.new)) }
        ensures stood { OnOk result (IsStood self.new.running (N.device nor.new).image) }
        ensures counts { Counts result (N.device nor.old) (N.device nor.new) }
        ensures writes { WriteCounts result (K.faults out.old) (K.faults out.new) }
        ensures reads { (n : ℕ) → ReadCounts result n n }
        ensures moment { self.new.running.timeline.moment ≤ self.old.running.timeline.moment + 120000 }
        ensures step { self.new.running.timeline.step ≡ self.old.running.timeline.step }
        ensures line { self.new.line ≡ self.old.line }
    {
        match fed {
            Fed::More => Ok(()),
            Fed::Frame(bytes) => self.play_frame(bytes.as_slice(), nor, out),
            Fed::Escape => self.pass(nor, out),
            Fed::Long => self.pass(nor, out),
        }
    }

    /// Plays a byte of the line.
    fn play_byte<N: Nor, K: Sink>(&mut self, byte: u8, nor: &mut N, out: &mut K) -> Result<(), End>
        requires stood { IsStood self.old.running (N.device nor.old).image }
        requires early { self.old.running.timeline.moment < 2 ^ 60 }
        requires little { self.old.running.timeline.step ≤ 60000 }
        ensures ends { (a : Outset) (stream : List ℕ)
            → StreamPlayed a stream (code_on_line (K.written out.old) self.old.running self.old.line (N.device nor.old))
            → StreamEnds result a (stream ++ byte ∷ [])
            (code_on_line (K.written out.new) self.new.running self.new.line (N.device nor.new)) }
        ensures stood { OnOk result (IsStood self.new.running (N.device nor.new).image) }
        ensures counts { Counts result (N.device nor.old) (N.device nor.new) }
        ensures writes { WriteCounts result (K.faults out.old) (K.faults out.new) }
        ensures reads { (n : ℕ) → ReadCounts result n n }
        ensures moment { self.new.running.timeline.moment ≤ self.old.running.timeline.moment + 120000 }
        ensures step { self.new.running.timeline.step ≡ self.old.running.timeline.step }
    {
        let fed = self.line.feed(byte);
        self.play(&fed, nor, out)
    }

    /// Plays bytes of the line.
    pub(crate) fn play_bytes<N: Nor, K: Sink>(
        &mut self,
        bytes: &[u8],
        nor: &mut N,
        out: &mut K,
    ) -> Result<(), End>
        requires stood { IsStood self.old.running (N.device nor.old).image }
        requires early { self.old.running.timeline.moment + 120000 * length bytes.now < 2 ^ 60 }
        requires little { self.old.running.timeline.step ≤ 60000 }
        ensures ends { (a : Outset) (stream : List ℕ)
            → StreamPlayed a stream (code_on_line (K.written out.old) self.old.running self.old.line (N.device nor.old))
            → StreamEnds result a (stream ++ bytes.now)
            (code_on_line (K.written out.new) self.new.running self.new.line (N.device nor.new)) }
        ensures stood { OnOk result (IsStood self.new.running (N.device nor.new).image) }
        ensures counts { Counts result (N.device nor.old) (N.device nor.new) }
        ensures writes { WriteCounts result (K.faults out.old) (K.faults out.new) }
        ensures reads { (n : ℕ) → ReadCounts result n n }
        ensures moment { OnOk result (self.new.running.timeline.moment
            ≤ self.old.running.timeline.moment + 120000 * length bytes.now) }
        ensures step { OnOk result (self.new.running.timeline.step ≡ self.old.running.timeline.step) }
    {
        streams_go_on();
        for byte in bytes {
            self.play_byte(*byte, nor, out)?;
        }
        Ok(())
    }
}
