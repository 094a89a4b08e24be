//! What is counted of the frames of motes.
ghost use Rattle.std.specs.Prelude.{◌≡◌, ◌<◌, ◌∷◌, ◌++◌, true, false, [], List, slice_index_or, is_some, vec_len, vec_capacity};
ghost use Rattle.dg_base.specs.declared.events.Event.{Event};
ghost use Rattle.dg_rules.specs.Events.{mote_of};
ghost use Rattle.dg_rules.specs.Runs.{Played};
ghost use Rattle.dg_script.specs.declared.report.Report.{Report};
ghost use Rattle.dg_events.specs.Told.{told_by};
ghost use Rattle.dg_events.specs.FrameCounters.{HasFrames, KeepsFrames, IsFrameless, IsSending, IsBringing, no_frames};
ghost use Rattle.dg_events.specs.FrameCounters.{with_heard, with_heard_at, with_sent_at, HearsIn, KeepsKinds};
ghost use Rattle.dg_events.specs.FrameShares.{with_fault, with_one};
ghost use Rattle.dg_events.specs.RefusedFrames.{fault_number};
ghost use Rattle.dg_events.specs.Frames.{frame_size};

use crate::counting::{add_one, add_share};
use crate::fault_kinds::fault_kind;
use crate::outside_counts::OutsideCounts;
use crate::sent_frame::{HeardFrame, SentFrame};
use crate::told::told_by;
use dg_base::MOST_MOTES;
use dg_frame::FrameFault;
use dg_meter::Share;
use dg_rules::Event;
use dg_script::Report;
use std::alloc::Global;

/// How many kinds of frames motes send.
pub const SENT_KINDS: usize = 4;

/// How many frames a mote sent and heard, by kind: adverts, requests, packets and wide adverts.
#[derive(Clone, Copy)]
pub struct FrameCounts {
    pub sent: [u64; SENT_KINDS],
    pub heard: [u64; SENT_KINDS],
    /// The frames that it heard and refused, by cause.
    pub refused: [Share; 5],
}

/// The bytes of a frame of this kind.
#[inline(always)]
pub fn frame_bytes(kind: usize) -> usize
    ensures { result ≡ frame_size kind }
{
    match kind {
        0 => 38,
        1 => 19,
        2 => 35,
        _ => 62,
    }
}

impl FrameCounts {
    /// No frame was sent or heard.
    pub fn none() -> FrameCounts
        ensures { result ≡ no_frames }
    {
        FrameCounts {
            sent: [0; SENT_KINDS],
            heard: [0; SENT_KINDS],
            refused: [Share::none(); 5],
        }
    }

    /// The mote heard one more frame of this kind, which it refuses if there is a fault.
    #[inline(always)]
    fn hear(&mut self, kind: usize, fault: Option<FrameFault>)
        ensures { self.new ≡ with_heard kind fault self.old }
    {
        add_one(&mut self.heard, kind);
        add_refused(&mut self.refused, fault, kind);
    }
}

/// Counts a frame of this kind under its fault, if there is one. Most frames have none.
#[inline(always)]
fn add_refused(shares: &mut [Share], fault: Option<FrameFault>, kind: usize)
    ensures { shares.new ≡ with_fault fault (frame_size kind) shares.old }
{
    match fault {
        Some(fault) => add_fault(shares, fault, kind),
        None => {}
    }
}

/// Counts a frame of this kind under its fault.
#[cold]
#[inline(never)]
fn add_fault(shares: &mut [Share], fault: FrameFault, kind: usize)
    ensures { shares.new ≡ with_one (fault_number fault) (frame_size kind) shares.old }
{
    add_share(shares, fault_kind(fault), frame_bytes(kind));
}

/// What is counted of the frames of motes.
#[derive(Drop)]
pub struct FrameCounter {
    /// The frames that were sent, the first one first. The first has number 1.
    pub sent: Vec<SentFrame>,
    /// The counts of each mote that a script may have, by its number.
    pub motes: [FrameCounts; MOST_MOTES as usize],
    /// The same of what came to each from outside.
    pub outside: [OutsideCounts; MOST_MOTES as usize],
    /// Memory ran out: no count is valid.
    pub lost: bool,
}

/// Whether these lines report that an event was refused. Of most events nothing is reported.
#[inline(always)]
pub(crate) fn is_refused(reports: &[Report]) -> bool
    ensures { result ≡ is_some (told_by reports.now).refused }
{
    !reports.is_empty() && is_told_refused(reports)
}

/// The same of some lines.
#[inline(never)]
fn is_told_refused(reports: &[Report]) -> bool
    ensures { result ≡ is_some (told_by reports.now).refused }
{
    told_by(reports).refused.is_some()
}

/// A mote hears the frame with this number. Answers what is known of it, None if there is no such frame.
#[inline(always)]
fn hear_in(sent: &mut [SentFrame], number: usize, mote: u8) -> Option<HeardFrame>
    ensures { HearsIn number sent.old sent.new result }
{
    if number == 0 || sent.len() < number {
        return None;
    }
    Some(sent[number - 1].hear(mote))
}

/// Adds to the outcome of the frame with this number, if there is one. Answers what it was before.
#[inline(always)]
fn mark_in(sent: &mut [SentFrame], number: usize, traced: u16, state: u8) -> Option<SentFrame>
    ensures { KeepsKinds sent.old sent.new }
{
    if number == 0 || sent.len() < number {
        return None;
    }
    Some(sent[number - 1].mark(traced, state))
}

/// A mote heard one more frame of this kind, which it refuses if there is a fault.
#[inline(always)]
fn add_heard(motes: &mut [FrameCounts], mote: u8, kind: u8, fault: Option<FrameFault>)
    ensures { motes.new ≡ with_heard_at mote kind fault motes.old }
{
    let mote = usize::from(mote);
    if mote < motes.len() {
        motes[mote].hear(usize::from(kind), fault);
    }
}

/// A mote sent one more frame of this kind.
#[inline(always)]
fn add_sent(motes: &mut [FrameCounts], mote: u8, kind: u8)
    ensures { motes.new ≡ with_sent_at mote kind motes.old }
{
    let mote = usize::from(mote);
    if mote < motes.len() {
        add_one(&mut motes[mote].sent, usize::from(kind));
    }
}

/// Reserves capacity for one more frame. Answers false if memory runs out.
#[cold]
#[inline(never)]
fn grow(sent: &mut Vec<SentFrame>) -> bool
    ensures room { result ≡ true → vec_len sent.new < vec_capacity sent.new }
    ensures items { sent.new.items ≡ sent.old.items }
{
    match sent.reserve(1) {
        Ok(()) => true,
        Err(_) => false,
    }
}

impl FrameCounter {
    /// Nothing was played.
    pub fn new(alloc: Global) -> FrameCounter
        ensures { HasFrames result [] }
    {
        FrameCounter {
            sent: Vec::new(alloc),
            motes: [FrameCounts::none(); MOST_MOTES as usize],
            outside: [OutsideCounts::none(); MOST_MOTES as usize],
            lost: false,
        }
    }

    /// What was counted of the frames of a mote.
    pub fn at(&self, mote: usize) -> FrameCounts
        ensures { result ≡ slice_index_or self.now.motes mote no_frames }
    {
        if mote < self.motes.len() {
            return self.motes[mote];
        }
        FrameCounts::none()
    }

    /// The frame with this number.
    pub fn get(&self, number: usize) -> Option<SentFrame> {
        if number == 0 || self.sent.len() < number {
            return None;
        }
        Some(self.sent[number - 1])
    }

    /// An event that neither sent a frame nor brought one counts for nothing here.
    #[inline(always)]
    pub fn skip(&self)
        ensures { (e : Event) (lines : List Report) (past : List Played) (p : Played) → IsFrameless e lines past p
            → HasFrames self.now past → HasFrames self.now (past ++ p ∷ []) }
    {}

    /// Counts a frame of this kind that an event at this mote sent, which gets the next number.
    #[inline(always)]
    pub fn send(&mut self, event: &Event, mote: u8, kind: u8)
        requires mote { mote ≡ mote_of event.now }
        ensures frames { (lines : List Report) (past : List Played) (p : Played) → IsSending event.now lines kind past p
            → HasFrames self.old past → HasFrames self.new (past ++ p ∷ []) }
        ensures lost { self.new.lost ≡ false → self.old.lost ≡ false }
    {
        if !self.make_room() {
            self.lost = true;
            return;
        }
        self.sent.push_reserved(SentFrame::new(mote, kind));
        add_sent(&mut self.motes, mote, kind);
    }

    /// Makes room for one more frame. Answers false if memory runs out.
    #[inline(always)]
    fn make_room(&mut self) -> bool
        ensures room { result ≡ true → vec_len self.new.sent < vec_capacity self.new.sent }
        ensures sent { self.new.sent.items ≡ self.old.sent.items }
        ensures motes { self.new.motes ≡ self.old.motes }
        ensures outside { self.new.outside ≡ self.old.outside }
        ensures lost { self.new.lost ≡ self.old.lost }
    {
        if self.sent.len() < self.sent.capacity() {
            return true;
        }
        grow(&mut self.sent)
    }

    /// Counts the frame with this number, which an event brought to this mote, unless these lines report that the event was
    /// refused. The mote refuses the frame if there is a fault. Answers what is known of the frame.
    #[inline(always)]
    pub fn hear(
        &mut self,
        event: &Event,
        mote: u8,
        number: usize,
        fault: Option<FrameFault>,
        reports: &[Report],
    ) -> Option<HeardFrame>
        requires mote { mote ≡ mote_of event.now }
        ensures { (past : List Played) (p : Played) → IsBringing event.now reports.now number fault past p
            → HasFrames self.old past → HasFrames self.new (past ++ p ∷ []) }
    {
        if is_refused(reports) {
            return None;
        }
        match hear_in(&mut self.sent, number, mote) {
            None => None,
            Some(heard) => {
                add_heard(&mut self.motes, mote, heard.kind, fault);
                Some(heard)
            }
        }
    }

    /// Adds to the outcome of the frame with this number: the motes to which its bytes came from outside, by a bit for each, and
    /// a set of outcomes. Answers what the frame was before, None if there is none.
    #[inline(always)]
    pub fn mark(&mut self, number: usize, traced: u16, state: u8) -> Option<SentFrame>
        ensures { KeepsFrames self.old self.new }
    {
        mark_in(&mut self.sent, number, traced, state)
    }
}
