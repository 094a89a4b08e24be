//! A link in memory.
ghost use Rattle.std.specs.Prelude.{◌≡◌, ◌↔◌, ◌<◌, ◌≤◌, ◌++◌, [], length, take, drop, replicate, slice_get, option_map, Ok, None};
ghost use Rattle.std.specs.Prelude.{Some, IsOk, IfOk, IfErr, IfSome, OnOk, OnErr, Contains, refl};
ghost use Rattle.circular_buffer.specs.Buffer.{buffer};
ghost use Rattle.dg_base.specs.Sizes.{longest_frame, most_motes, greatest_port};
ghost use Rattle.dg_link.specs.Inboxes.{inbox_of, with_inbox, emptied, delivered, ReceivesFrame};

use crate::link::{Link, LinkFailed, OpenFault};
use circular_buffer::HeapCircularBuffer;
use dg_base::{FrameBytes, LONGEST_FRAME};
use std::alloc::{AllocError, Global};
use std::marker::Model;

/// A link in memory, with an inbox for each mote. If an inbox is full, a frame that arrives replaces the oldest.
/// The link never fails, and its count of faults stays at 0.
#[derive(Drop)]
pub struct MemLink {
    capacity: usize,
    rings: Vec<HeapCircularBuffer<FrameBytes>>,
}

impl Model for MemLink {
    ghost use Rattle.std.specs.Prelude.{◌≡◌, ◌≤◌, map, All};
    ghost use Rattle.dg_link.specs.Inboxes.{Inboxes};

    ghost Value = { Inboxes };

    ghost view = { λ l. record { capacity = l.capacity; frames = map (λ ring. ring.items) l.rings.items } };

    ghost invariant = { λ l. (1 ≤ l.capacity) × All (λ ring. ring.capacity ≡ l.capacity) l.rings.items };
}

impl MemLink {
    /// A link without motes, whose inboxes will hold `room` frames each.
    pub fn new(alloc: Global, room: usize) -> MemLink
        requires { 1 ≤ room }
        ensures capacity { result.capacity ≡ room }
        ensures motes { result.frames ≡ [] }
    {
        MemLink {
            capacity: room,
            rings: Vec::new(alloc),
        }
    }

    // Takes the oldest frame that waits at a mote.
    fn take_oldest(&mut self, at: u16) -> Option<FrameBytes>
        requires { at < length self.old.frames }
        ensures frame { result ≡ slice_get (inbox_of self.old at) 0 }
        ensures rest { self.new ≡ with_inbox at (drop 1 (inbox_of self.old at)) self.old }
    {
        self.rings[usize::from(at)].pop_front()
    }
}

impl Link for MemLink {
    ghost inboxes = { λ l. Some l };

    ghost mote_count = { λ l. length l.frames };

    ghost faults = { λ _. 0 };

    ghost first_port = { λ _. None };

    fn open(&mut self, alloc: Global, _port: u16, motes: u16) -> Result<(), OpenFault>
        requires some { 1 ≤ motes }
        requires most { motes ≤ most_motes }
        requires ports { _port ≤ greatest_port }
        ensures ok { OnOk result (self.new ≡ emptied motes self.old) }
        ensures err { OnErr result (self.new ≡ emptied 0 self.old) }
        ensures memory { IfErr result (λ e. e ≡ OpenFault.Memory) }
    {
        self.rings.clear();
        self.rings = empty_rings(alloc, self.capacity, motes)?;
        Ok(())
    }

    fn send(&mut self, from: u16, to: u16, bytes: &[u8]) -> Result<(), LinkFailed>
        requires fits { length bytes.now ≤ longest_frame }
        requires sender { from < length self.old.frames }
        requires receiver { to < length self.old.frames }
        ensures ok { IsOk result }
        ensures delivered { self.new ≡ delivered to bytes.now self.old }
        ensures waits { Contains (inbox_of self.new to) bytes.now }
    {
        self.rings[usize::from(to)].push_back(FrameBytes::new(bytes));
        Ok(())
    }

    fn receive(
        &mut self,
        at: u16,
        into: &mut [u8; LONGEST_FRAME],
    ) -> Result<Option<usize>, LinkFailed>
        requires { at < length self.old.frames }
        ensures ok { IsOk result }
        ensures none { (result ≡ Ok None) ↔ (inbox_of self.old at ≡ []) }
        ensures fits { IfOk result (λ r. IfSome r (λ n. n ≤ longest_frame)) }
        ensures received { IfOk result (λ r. ReceivesFrame at into.new r (Some self.old) (Some self.new)) }
    {
        let frame = self.take_oldest(at);
        Ok(hand_over(frame, into))
    }

    ghost has_inboxes = { λ _. refl };
}

// Rings without frames, one for each of this many motes.
fn empty_rings(
    alloc: Global,
    capacity: usize,
    motes: u16,
) -> Result<Vec<HeapCircularBuffer<FrameBytes>>, AllocError>
    ensures { IfOk result (λ v. v.items ≡ replicate motes (buffer [] capacity)) }
{
    let mut rings = Vec::with_capacity(alloc, usize::from(motes))?;
    for _ in 0..motes {
        rings.push(HeapCircularBuffer::with_capacity(alloc, capacity)?)?;
    }
    Ok(rings)
}

// Copies a frame, if there is one, to the beginning of `into`, and returns its length in bytes.
fn hand_over(frame: Option<FrameBytes>, into: &mut [u8; LONGEST_FRAME]) -> Option<usize>
    ensures fits { IfSome result (λ n. n ≤ longest_frame) }
    ensures front { option_map (λ n. take n into.new) result ≡ frame }
{
    match frame {
        Some(frame) => Some(copy_prefix(frame.as_slice(), into)),
        None => None,
    }
}

// Copies a frame to the beginning of `into`, and returns its length in bytes.
fn copy_prefix(frame: &[u8], into: &mut [u8; LONGEST_FRAME]) -> usize
    requires { length frame.now ≤ longest_frame }
    ensures fits { result ≤ longest_frame }
    ensures front { take result into.new ≡ frame.now }
{
    let count = frame.len();
    into[..count].copy_from_slice(frame);
    count
}
