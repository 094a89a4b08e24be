//! Inputs and outputs of bytes.
//!
//! Each trait counts its faults. A call returns an error only if the count rose in that call, and a
//! call that returns Ok leaves the count unchanged. The count saturates at the greatest `u64`.
ghost use Rattle.std.specs.Prelude.{◌≡◌, ℕ, Option, ◌<◌, ◌≤◌, List, length, take, Ok, Some, IfOk, OnOk, OnErr, MatchResult};
ghost use Rattle.std.specs.Prelude.{codes};
ghost use Rattle.dg_words.specs.Counts.{Rose};
ghost use Rattle.dg_base.specs.Outside.{Takes, Puts, PutsPrefix, AtEnd};

use std::error::Error;
use std::fmt;

/// A read failed. No byte was taken.
#[derive(Clone, Copy, PartialEq, Eq, Debug)]
pub struct ReadFailed;

impl fmt::Display for ReadFailed {
    ghost output = { λ _. Some (codes "a read failed") };

    fn fmt<W: fmt::Write>(&self, f: &mut fmt::Formatter<W>) -> fmt::Result {
        f.write_str("a read failed")
    }
}

impl Error for ReadFailed {}

/// A write failed. A prefix of the piece, maybe an empty one, was written.
#[derive(Clone, Copy, PartialEq, Eq, Debug)]
pub struct WriteFailed;

impl fmt::Display for WriteFailed {
    ghost output = { λ _. Some (codes "a write failed") };

    fn fmt<W: fmt::Write>(&self, f: &mut fmt::Formatter<W>) -> fmt::Result {
        f.write_str("a write failed")
    }
}

impl Error for WriteFailed {}

/// An input of bytes.
pub trait Source {
    // The bytes that are left, if the source exposes them.
    ghost left: { Self → Option (List ℕ) };

    // How many reads failed.
    ghost faults: { Self → ℕ };

    /// Reads the next bytes into the beginning of `into`, and returns how many. It returns 0 only
    /// at the end of the input.
    fn read(&mut self, into: &mut [u8]) -> Result<usize, ReadFailed>
        requires { 0 < length into.old }
        ensures count { IfOk result (λ n. n ≤ length into.old) }
        ensures bytes { MatchResult result (λ n. Takes (left self.old) (left self.new) (take n into.new))
            (λ _. left self.new ≡ left self.old) }
        ensures end { result ≡ Ok 0 → AtEnd (left self.old) }
        ensures counts { faults self.old ≤ faults self.new }
        ensures failed { OnErr result (Rose (faults self.old) (faults self.new)) }
        ensures unfailed { OnOk result (faults self.new ≡ faults self.old) };
}

/// An output of bytes.
pub trait Sink {
    // The bytes that were written, if the sink exposes them.
    ghost written: { Self → Option (List ℕ) };

    // How many writes failed.
    ghost faults: { Self → ℕ };

    /// Writes all of `bytes` after what was written.
    fn write(&mut self, bytes: &[u8]) -> Result<(), WriteFailed>
        ensures ok { OnOk result (Puts (written self.old) (written self.new) bytes.now) }
        ensures err { OnErr result (PutsPrefix (written self.old) (written self.new) bytes.now) }
        ensures counts { faults self.old ≤ faults self.new }
        ensures failed { OnErr result (Rose (faults self.old) (faults self.new)) }
        ensures unfailed { OnOk result (faults self.new ≡ faults self.old) };
}
