//! An input and an output in memory, whose chosen calls fail.
ghost use Rattle.std.specs.Prelude.{◌≡◌, IsTrue, ◌+◌, ◌-◌, ◌^◌, ◌<◌, ◌≤◌, ◌↔◌, ◌⊎◌, min, [], length, take, drop, Ok, Some, IsErr};
ghost use Rattle.std.specs.Prelude.{IfOk, OnOk, OnErr, MatchResult, Contains, vec_len};
ghost use Rattle.dg_words.specs.Counts.{Rose};
ghost use Rattle.dg_base.specs.Outside.{Takes, Puts, PutsPrefix, AtEnd};

use crate::outside::{ReadFailed, Sink, Source, WriteFailed};
use std::alloc::{AllocError, Global};
use std::marker::Model;

/// An input in memory. Exactly its reads with the listed numbers fail.
///
/// Reads are numbered from 1. The numbers end at 4,294,967,295: a later read has no number.
#[derive(Drop)]
pub struct MemSource {
    bytes: Vec<u8>,
    at: usize,
    failing: Vec<u32>,
    calls: u32,
    faults: u64,
}

impl Model for MemSource {
    ghost use Rattle.std.specs.Prelude.{◌≤◌, drop, vec_len};
    ghost use Rattle.dg_base.specs.Memory.{Input};

    ghost Value = { Input };

    ghost view = { λ s. record {
      left = drop s.at s.bytes.items;
      failing = s.failing.items;
      calls = s.calls;
      faults = s.faults;
    } };

    ghost invariant = { λ s. s.at ≤ vec_len s.bytes };
}

impl MemSource {
    /// The input of `bytes`, whose reads with the numbers `failing` fail.
    pub fn new(bytes: Vec<u8>, failing: Vec<u32>) -> MemSource
        ensures left { result.left ≡ bytes.items }
        ensures failing { result.failing ≡ failing.items }
        ensures calls { result.calls ≡ 0 }
        ensures faults { result.faults ≡ 0 }
    {
        MemSource {
            bytes,
            at: 0,
            failing,
            calls: 0,
            faults: 0,
        }
    }
}

impl Source for MemSource {
    ghost left = { λ s. Some s.left };

    ghost faults = { λ s. s.faults };

    fn read(&mut self, into: &mut [u8]) -> Result<usize, ReadFailed>
        requires { 0 < length into.old }
        ensures count { IfOk result (λ n. n ≤ length into.old) }
        ensures bytes { MatchResult result (λ n. Takes (Some self.old.left) (Some self.new.left) (take n into.new))
            (λ _. Some self.new.left ≡ Some self.old.left) }
        ensures end { result ≡ Ok 0 → AtEnd (Some self.old.left) }
        ensures counts { self.old.faults ≤ self.new.faults }
        ensures failed { OnErr result (Rose self.old.faults self.new.faults) }

        // As many bytes as there are and fit.
        ensures most { IfOk result (λ n. n ≡ min (length into.old) (length self.old.left)) }
        // The calls with a listed number fail, and no other calls do.
        ensures fails { IsErr result ↔ Contains self.old.failing (self.old.calls + 1) }
        ensures listed { self.new.failing ≡ self.old.failing }
        ensures numbered { self.new.calls ≡ min (self.old.calls + 1) (2 ^ 32 - 1) }
        ensures unfailed { OnOk result (self.new.faults ≡ self.old.faults) }
        ensures one_fault { OnErr result (self.new.faults ≡ min (self.old.faults + 1) (2 ^ 64 - 1)) }
    {
        let failed = is_failing(&self.failing, self.calls);
        self.calls = self.calls.saturating_add(1);
        if failed {
            self.faults = self.faults.saturating_add(1);
            return Err(ReadFailed);
        }
        let count = copy_prefix(into, &self.bytes[self.at..]);
        self.at += count;
        Ok(count)
    }
}

/// An output in memory of `limit` bytes at most, which are allocated when it is made.
///
/// A write fails exactly if its number is listed or the piece does not fit into the rest of the
/// limit, and then appends nothing. Writes are numbered like the reads of [`MemSource`].
#[derive(Drop)]
pub struct MemSink {
    bytes: Vec<u8>,
    limit: usize,
    failing: Vec<u32>,
    calls: u32,
    faults: u64,
}

impl Model for MemSink {
    ghost use Rattle.std.specs.Prelude.{◌≤◌, vec_len, vec_capacity};
    ghost use Rattle.dg_base.specs.Memory.{Output};

    ghost Value = { Output };

    ghost view = { λ s. record {
      written = s.bytes.items;
      limit = s.limit;
      failing = s.failing.items;
      calls = s.calls;
      faults = s.faults;
    } };

    ghost invariant = { λ s. (vec_len s.bytes ≤ s.limit) × (s.limit ≤ vec_capacity s.bytes) };
}

impl MemSink {
    /// An empty output of `room` bytes at most, whose writes with the numbers `failing` fail.
    pub fn new(alloc: Global, room: usize, failing: Vec<u32>) -> Result<MemSink, AllocError>
        ensures written { IfOk result (λ sink. sink.written ≡ []) }
        ensures limit { IfOk result (λ sink. sink.limit ≡ room) }
        ensures failing { IfOk result (λ sink. sink.failing ≡ failing.items) }
        ensures calls { IfOk result (λ sink. sink.calls ≡ 0) }
        ensures faults { IfOk result (λ sink. sink.faults ≡ 0) }
    {
        Ok(MemSink {
            bytes: Vec::with_capacity(alloc, room)?,
            limit: room,
            failing,
            calls: 0,
            faults: 0,
        })
    }

    /// The bytes that were written.
    pub fn bytes(&self) -> &[u8]
        ensures { result.now ≡ self.now.written }
    {
        &self.bytes
    }
}

impl Sink for MemSink {
    ghost written = { λ s. Some s.written };

    ghost faults = { λ s. s.faults };

    fn write(&mut self, bytes: &[u8]) -> Result<(), WriteFailed>
        ensures ok { OnOk result (Puts (Some self.old.written) (Some self.new.written) bytes.now) }
        ensures err { OnErr result (PutsPrefix (Some self.old.written) (Some self.new.written) bytes.now) }
        ensures counts { self.old.faults ≤ self.new.faults }
        ensures failed { OnErr result (Rose self.old.faults self.new.faults) }

        // The calls with a listed number fail, and those whose piece does not fit. No other calls do.
        ensures fails { IsErr result ↔ (Contains self.old.failing (self.old.calls + 1)
            ⊎ (self.old.limit < length self.old.written + length bytes.now)) }
        ensures nothing { OnErr result (self.new.written ≡ self.old.written) }
        ensures limit { self.new.limit ≡ self.old.limit }
        ensures listed { self.new.failing ≡ self.old.failing }
        ensures numbered { self.new.calls ≡ min (self.old.calls + 1) (2 ^ 32 - 1) }
        ensures unfailed { OnOk result (self.new.faults ≡ self.old.faults) }
        ensures one_fault { OnErr result (self.new.faults ≡ min (self.old.faults + 1) (2 ^ 64 - 1)) }
    {
        let failed = is_failing(&self.failing, self.calls);
        self.calls = self.calls.saturating_add(1);
        let fits = !failed && bytes.len() <= self.limit - self.bytes.len();
        if fits && self.bytes.extend_from_slice(bytes).is_ok() {
            return Ok(());
        }
        self.faults = self.faults.saturating_add(1);
        Err(WriteFailed)
    }
}

// Whether the call after `calls` calls has a listed number.
fn is_failing(failing: &[u32], calls: u32) -> bool
    ensures { IsTrue result ↔ Contains failing.now (calls + 1) }
{
    match calls.checked_add(1) {
        Some(number) => failing.contains(&number),
        None => false,
    }
}

// Copies as many bytes as there are and fit, and returns how many.
fn copy_prefix(into: &mut [u8], bytes: &[u8]) -> usize
    ensures count { result ≡ min (length into.old) (length bytes.now) }
    ensures front { take result into.new ≡ take result bytes.now }
    ensures rest { drop result into.new ≡ drop result into.old }
{
    let count = into.len().min(bytes.len());
    into[..count].copy_from_slice(&bytes[..count]);
    count
}
