//! What a link between motes offers, and what is known of it.
//!
//! A link counts its faults. A call returns its failure only if the count rose in that call, and a call that returns Ok
//! leaves the count unchanged. The count saturates at the largest `u64`.
ghost use Rattle.std.specs.Prelude.{◌≡◌, ℕ, ◌<◌, ◌≤◌, length, Option, Some, Err, option_map, IfOk, IfSome, OnOk, OnErr, codes};
ghost use Rattle.dg_words.specs.Counts.{Rose};
ghost use Rattle.dg_base.specs.Sizes.{longest_frame, most_motes, greatest_port};
ghost use Rattle.dg_link.specs.Inboxes.{Inboxes, emptied, delivered, ReceivesFrame, HasInboxes};

use dg_base::LONGEST_FRAME;
use std::alloc::{AllocError, Global};
use std::error::Error;
use std::fmt;

/// A send or a receive failed.
#[derive(Clone, Copy, PartialEq, Eq, Debug)]
pub struct LinkFailed;

impl fmt::Display for LinkFailed {
    ghost output = { λ _. Some (codes "the link failed") };

    fn fmt<W: fmt::Write>(&self, f: &mut fmt::Formatter<W>) -> fmt::Result {
        f.write_str("the link failed")
    }
}

impl Error for LinkFailed {}

/// Why a link could not be opened.
#[derive(Clone, Copy, PartialEq, Eq, Debug)]
pub enum OpenFault {
    /// Memory ran out.
    Memory,
    /// The link failed.
    LinkFailed,
}

impl fmt::Display for OpenFault {
    ghost use Rattle.std.specs.Prelude.{Some};
    ghost use Rattle.dg_link.specs.Faults.{open_fault_text};

    ghost output = { λ fault. Some (open_fault_text fault) };

    fn fmt<W: fmt::Write>(&self, f: &mut fmt::Formatter<W>) -> fmt::Result {
        match self {
            OpenFault::Memory => f.write_str("out of memory"),
            OpenFault::LinkFailed => f.write_str("the link failed"),
        }
    }
}

impl Error for OpenFault {}

impl From<AllocError> for OpenFault {
    ghost use Rattle.std.specs.Prelude.{◌≡◌};
    ghost use Rattle.dg_link.specs.declared.link.OpenFault.{OpenFault};

    ghost from_gives = { λ _ e. e ≡ OpenFault.Memory };

    fn from(_error: AllocError) -> OpenFault {
        OpenFault::Memory
    }
}

/// A link between motes. One that was not opened has no motes.
pub trait Link {
    // The inboxes of its motes, if the link exposes them.
    ghost inboxes: { Self → Option Inboxes };

    // How many motes it has. Their numbers begin at 0.
    ghost mote_count: { Self → ℕ };

    // How many calls failed.
    ghost faults: { Self → ℕ };

    // The port of its first mote, if the link exposes it.
    ghost first_port: { Self → Option ℕ };

    /// Opens the link with this many motes, from 1 to 16, at which no frame waits. If the link uses ports, the first mote
    /// has `port`, at most 65,500, and the others have those that follow. After a failure the link has no motes, and the
    /// port that it exposes is still `port`.
    fn open(&mut self, alloc: Global, port: u16, motes: u16) -> Result<(), OpenFault>
        requires some { 1 ≤ motes }
        requires most { motes ≤ most_motes }
        requires ports { port ≤ greatest_port }

        ensures opened { OnOk result (mote_count self.new ≡ motes) }
        ensures empty { OnOk result (inboxes self.new ≡ option_map (emptied motes) (inboxes self.old)) }
        ensures at_port { first_port self.new ≡ option_map (λ _. port) (first_port self.old) }

        ensures closed { OnErr result (mote_count self.new ≡ 0) }
        ensures none { OnErr result (inboxes self.new ≡ option_map (emptied 0) (inboxes self.old)) }

        ensures counts { faults self.old ≤ faults self.new }
        ensures failed { result ≡ Err OpenFault.LinkFailed → Rose (faults self.old) (faults self.new) }
        ensures unfailed { OnOk result (faults self.new ≡ faults self.old) }
        ensures memory { result ≡ Err OpenFault.Memory → faults self.new ≡ faults self.old };

    /// Sends a frame from a mote to another.
    fn send(&mut self, from: u16, to: u16, bytes: &[u8]) -> Result<(), LinkFailed>
        requires fits { length bytes.now ≤ longest_frame }
        requires sender { from < mote_count self.old }
        requires receiver { to < mote_count self.old }

        ensures delivered { OnOk result (inboxes self.new ≡ option_map (delivered to bytes.now) (inboxes self.old)) }
        ensures nothing { OnErr result (inboxes self.new ≡ inboxes self.old) }
        ensures same_motes { mote_count self.new ≡ mote_count self.old }
        ensures same_port { first_port self.new ≡ first_port self.old }

        ensures counts { faults self.old ≤ faults self.new }
        ensures failed { OnErr result (Rose (faults self.old) (faults self.new)) }
        ensures unfailed { OnOk result (faults self.new ≡ faults self.old) };

    /// Receives a frame at a mote into the beginning of `into`, and returns its length in bytes. It returns None only if
    /// no frame waited there when the call checked.
    fn receive(
        &mut self,
        at: u16,
        into: &mut [u8; LONGEST_FRAME],
    ) -> Result<Option<usize>, LinkFailed>
        requires { at < mote_count self.old }

        ensures fits { IfOk result (λ r. IfSome r (λ n. n ≤ longest_frame)) }
        ensures received { IfOk result (λ r. ReceivesFrame at into.new r (inboxes self.old) (inboxes self.new)) }
        ensures nothing { OnErr result (inboxes self.new ≡ inboxes self.old) }
        ensures same_motes { mote_count self.new ≡ mote_count self.old }
        ensures same_port { first_port self.new ≡ first_port self.old }

        ensures counts { faults self.old ≤ faults self.new }
        ensures failed { OnErr result (Rose (faults self.old) (faults self.new)) }
        ensures unfailed { OnOk result (faults self.new ≡ faults self.old) };

    // If the inboxes are exposed, each mote has one.
    ghost has_inboxes: { (l : Self) → HasInboxes (inboxes l) (mote_count l) };
}
