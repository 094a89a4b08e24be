//! A link in memory that fails in chosen calls.
ghost use Rattle.std.specs.Prelude.{◌≡◌, ◌↔◌, ℕ, ◌+◌, ◌-◌, ◌^◌, ◌<◌, ◌≤◌, IsTrue, length, min, option_map, None, Some, IsErr};
ghost use Rattle.std.specs.Prelude.{IfOk, IfErr, IfSome, OnOk, OnErr, Contains, refl};
ghost use Rattle.dg_words.specs.Counts.{Rose};
ghost use Rattle.dg_base.specs.Sizes.{longest_frame, most_motes, greatest_port};
ghost use Rattle.dg_link.specs.Inboxes.{emptied, delivered, ReceivesFrame};

use crate::{Link, LinkFailed, MemLink, OpenFault};
use dg_base::LONGEST_FRAME;
use std::alloc::Global;
use std::marker::Model;

/// A link in memory. Of its sends and receives exactly those with the listed numbers fail, and change nothing.
///
/// Sends and receives are numbered together from 1. The numbers end at 4,294,967,295, and a later call has no number.
#[derive(Drop)]
pub struct FailLink {
    inner: MemLink,
    failing: Vec<u32>,
    calls: u32,
    faults: u64,
}

impl Model for FailLink {
    ghost use Rattle.dg_link.specs.Failing.{FailBoxes};

    ghost Value = { FailBoxes };

    ghost view = { λ l. record { boxes = l.inner; failing = l.failing.items; calls = l.calls; faults = l.faults } };
}

impl FailLink {
    /// The link, whose sends and receives with the numbers `failing` fail.
    pub fn new(inner: MemLink, failing: Vec<u32>) -> FailLink
        ensures boxes { result.boxes ≡ inner }
        ensures failing { result.failing ≡ failing.items }
        ensures calls { result.calls ≡ 0 }
        ensures faults { result.faults ≡ 0 }
    {
        FailLink {
            inner,
            failing,
            calls: 0,
            faults: 0,
        }
    }

    // Counts a call, and returns whether it fails.
    fn fails(&mut self) -> bool
        ensures told { IsTrue result ↔ Contains self.old.failing (self.old.calls + 1) }
        ensures boxes { self.new.boxes ≡ self.old.boxes }
        ensures listed { self.new.failing ≡ self.old.failing }
        ensures numbered { self.new.calls ≡ min (self.old.calls + 1) (2 ^ 32 - 1) }
        ensures counted { IsTrue result → Rose self.old.faults self.new.faults }
        ensures uncounted { (IsTrue result → ⊥) → self.new.faults ≡ self.old.faults }
        ensures counts { self.old.faults ≤ self.new.faults }
    {
        let failed = is_failing(&self.failing, self.calls);
        self.calls = self.calls.saturating_add(1);
        if failed {
            self.faults = self.faults.saturating_add(1);
        }
        failed
    }
}

impl Link for FailLink {
    ghost inboxes = { λ l. Some l.boxes };

    ghost mote_count = { λ l. length l.boxes.frames };

    ghost faults = { λ l. l.faults };

    ghost first_port = { λ _. None };

    fn open(&mut self, alloc: Global, port: u16, motes: u16) -> Result<(), OpenFault>
        requires some { 1 ≤ motes }
        requires most { motes ≤ most_motes }
        requires ports { port ≤ greatest_port }
        ensures ok { OnOk result (self.new.boxes ≡ emptied motes self.old.boxes) }
        ensures err { OnErr result (self.new.boxes ≡ emptied 0 self.old.boxes) }
        ensures memory { IfErr result (λ e. e ≡ OpenFault.Memory) }
        ensures numbered { self.new.calls ≡ self.old.calls }
        ensures listed { self.new.failing ≡ self.old.failing }
        ensures unfailed { self.new.faults ≡ self.old.faults }
    {
        self.inner.open(alloc, port, motes)
    }

    fn send(&mut self, from: u16, to: u16, bytes: &[u8]) -> Result<(), LinkFailed>
        requires fits { length bytes.now ≤ longest_frame }
        requires sender { from < length self.old.boxes.frames }
        requires receiver { to < length self.old.boxes.frames }
        ensures fails { IsErr result ↔ Contains self.old.failing (self.old.calls + 1) }
        ensures numbered { self.new.calls ≡ min (self.old.calls + 1) (2 ^ 32 - 1) }
        ensures listed { self.new.failing ≡ self.old.failing }
        ensures delivered { OnOk result (self.new.boxes ≡ delivered to bytes.now self.old.boxes) }
        ensures nothing { OnErr result (self.new.boxes ≡ self.old.boxes) }
        ensures counts { self.old.faults ≤ self.new.faults }
        ensures failed { OnErr result (Rose self.old.faults self.new.faults) }
        ensures unfailed { OnOk result (self.new.faults ≡ self.old.faults) }
    {
        if self.fails() {
            return Err(LinkFailed);
        }
        self.inner.send(from, to, bytes)
    }

    fn receive(
        &mut self,
        at: u16,
        into: &mut [u8; LONGEST_FRAME],
    ) -> Result<Option<usize>, LinkFailed>
        requires { at < length self.old.boxes.frames }
        ensures fails { IsErr result ↔ Contains self.old.failing (self.old.calls + 1) }
        ensures numbered { self.new.calls ≡ min (self.old.calls + 1) (2 ^ 32 - 1) }
        ensures listed { self.new.failing ≡ self.old.failing }
        ensures fits { IfOk result (λ r. IfSome r (λ n. n ≤ longest_frame)) }
        ensures received { IfOk result (λ r. ReceivesFrame at into.new r (Some self.old.boxes) (Some self.new.boxes)) }
        ensures nothing { OnErr result (self.new.boxes ≡ self.old.boxes) }
        ensures counts { self.old.faults ≤ self.new.faults }
        ensures failed { OnErr result (Rose self.old.faults self.new.faults) }
        ensures unfailed { OnOk result (self.new.faults ≡ self.old.faults) }
    {
        if self.fails() {
            return Err(LinkFailed);
        }
        self.inner.receive(at, into)
    }

    ghost has_inboxes = { λ _. refl };
}

// Whether the call after `calls` ones is among the failing ones.
fn is_failing(failing: &[u32], calls: u32) -> bool
    ensures { IsTrue result ↔ Contains failing.now (calls + 1) }
{
    match calls.checked_add(1) {
        Some(number) => failing.contains(&number),
        None => false,
    }
}
