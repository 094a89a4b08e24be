//! What is counted of the bytes that come to motes from outside.
ghost use Rattle.std.specs.Prelude.{◌≡◌, ◌∷◌, ◌++◌, [], List, slice_index_or};
ghost use Rattle.dg_rules.specs.Events.{mote_of};
ghost use Rattle.dg_rules.specs.Runs.{Played};
ghost use Rattle.dg_events.specs.FrameCounters.{HasFrames, IsBringingBytes, no_outside, with_outside, with_outside_at};
ghost use Rattle.dg_events.specs.FrameShares.{with_fault};

use crate::counting::{add_share, bytes_kind};
use crate::fault_kinds::fault_kind;
use crate::frame_counter::{FrameCounter, is_refused};
use dg_frame::FrameFault;
use dg_meter::Share;
use dg_rules::Event;
use dg_script::Report;

/// How many frames came to a mote from outside.
#[derive(Clone, Copy)]
pub struct OutsideCounts {
    /// By kind: adverts, requests, packets, wide adverts, and bytes whose first one names none.
    pub came: [Share; 5],
    /// Those that it refused, by cause.
    pub refused: [Share; 5],
}

impl OutsideCounts {
    /// Nothing came.
    pub fn none() -> OutsideCounts
        ensures { result ≡ no_outside }
    {
        OutsideCounts {
            came: [Share::none(); 5],
            refused: [Share::none(); 5],
        }
    }

    /// These bytes came, which the mote refuses if there is a fault.
    fn take(&mut self, bytes: &[u8], fault: Option<FrameFault>)
        ensures { self.new ≡ with_outside bytes.now fault self.old }
    {
        add_share(&mut self.came, bytes_kind(bytes), bytes.len());
        add_refused(&mut self.refused, fault, bytes.len());
    }
}

/// Counts so many bytes under their fault, if there is one.
fn add_refused(shares: &mut [Share], fault: Option<FrameFault>, bytes: usize)
    ensures { shares.new ≡ with_fault fault bytes shares.old }
{
    match fault {
        Some(fault) => add_share(shares, fault_kind(fault), bytes),
        None => {}
    }
}

/// These bytes came to a mote, which refuses them if there is a fault.
fn add_outside(motes: &mut [OutsideCounts], mote: u8, bytes: &[u8], fault: Option<FrameFault>)
    ensures { motes.new ≡ with_outside_at mote bytes.now fault motes.old }
{
    let mote = usize::from(mote);
    if mote < motes.len() {
        motes[mote].take(bytes, fault);
    }
}

impl FrameCounter {
    /// What was counted of what came to a mote from outside.
    pub fn outside_at(&self, mote: usize) -> OutsideCounts
        ensures { result ≡ slice_index_or self.now.outside mote no_outside }
    {
        if mote < self.outside.len() {
            return self.outside[mote];
        }
        OutsideCounts::none()
    }

    /// Counts these bytes, which an event brought to this mote from outside, unless these lines report that the event was
    /// refused. The mote refuses the bytes if there is a fault.
    #[cold]
    #[inline(never)]
    pub fn take(
        &mut self,
        event: &Event,
        mote: u8,
        bytes: &[u8],
        fault: Option<FrameFault>,
        reports: &[Report],
    )
        requires mote { mote ≡ mote_of event.now }
        ensures { (past : List Played) (p : Played) → IsBringingBytes event.now reports.now bytes.now fault past p
            → HasFrames self.old past → HasFrames self.new (past ++ p ∷ []) }
    {
        if is_refused(reports) {
            return;
        }
        add_outside(&mut self.outside, mote, bytes, fault);
    }
}
