//! What is counted of a mote in many events, in arrays of which each mote that a script may have has its place.

use crate::kinds::answer_kind;
use crate::share::share_of;
use dg_base::MOST_MOTES;
use dg_events::{HeardFrame, SENT_KINDS, SentFrame, add_one};
use dg_meter::Share;
use dg_mote::Heard;
use dg_object::PACKETS;

/// How many motes there may be.
pub const MOTES: usize = MOST_MOTES as usize;

/// The packets of the page that a mote fills.
pub const FILL: usize = PACKETS;

/// A packet was put into a page.
pub const PUT: u8 = 1;

/// Its bytes came from outside and were put into a page.
pub const TRACED_PUT: u8 = 2;

/// It was put into a page that became complete.
pub const USED: u8 = 4;

/// What is counted of a mote in many events, besides these events and how many frames it sent and heard.
#[derive(Clone, Copy)]
pub struct HotCost {
    /// The frames that it heard, by the mote that sent them, and by kind.
    pub from: [[u64; SENT_KINDS]; MOTES],
    /// How many different frames it heard, by the mote that sent them.
    pub first: [u64; MOTES],
    /// Its answers to frames, by their numbers.
    pub answers: [u64; 12],
    /// The operations of its chip, by the kind of the event.
    pub flash_events: [u64; 7],
    /// The packets that it put into pages.
    pub puts: u64,
    /// The numbers of the frames that brought the packets of the page that is being filled.
    pub fill: [usize; FILL],
    pub filled: usize,
    /// The frames that it sent and a mote heard, by kind.
    pub heard: [u64; SENT_KINDS],
    /// The frames that it sent and no mote heard, of which the bytes came to one from outside.
    pub traced: u64,
    /// The packets that it sent and a mote put into a page.
    pub put: u64,
    /// The packets that it sent and no mote put into a page, of which the bytes came from outside and were.
    pub traced_put: u64,
    /// The packets that it sent and a mote put into a page that became complete.
    pub used: u64,
}

/// 1 if this holds.
#[inline(always)]
fn one_if(holds: bool) -> u64 {
    if holds { 1 } else { 0 }
}

/// Whether a packet was put into a page, but only as bytes from outside.
#[inline(always)]
fn is_traced_put(state: u8) -> bool {
    state & (PUT + TRACED_PUT) == TRACED_PUT
}

impl HotCost {
    /// Nothing was counted.
    pub fn none() -> HotCost {
        HotCost {
            from: [[0; SENT_KINDS]; MOTES],
            first: [0; MOTES],
            answers: [0; 12],
            flash_events: [0; 7],
            puts: 0,
            fill: [0; FILL],
            filled: 0,
            heard: [0; SENT_KINDS],
            traced: 0,
            put: 0,
            traced_put: 0,
            used: 0,
        }
    }

    /// The frames that it heard of a mote.
    pub fn heard_from(&self, by: usize) -> Share {
        let mut all = Share::none();
        if by < MOTES {
            for kind in 0..SENT_KINDS {
                all = all.with(share_of(kind, self.from[by][kind]));
            }
        }
        all
    }

    /// The mote with this bit hears this frame. Answers whether that is for the first time.
    #[inline(always)]
    pub fn hear(&mut self, bit: u16, heard: HeardFrame) -> bool {
        let by = usize::from(heard.by);
        let kind = usize::from(heard.kind);
        if MOTES <= by || SENT_KINDS <= kind {
            return false;
        }
        self.from[by][kind] = self.from[by][kind].wrapping_add(1);
        if heard.heard & bit != 0 {
            return false;
        }
        self.first[by] = self.first[by].wrapping_add(1);
        true
    }

    /// It gives this answer to a frame.
    #[inline(always)]
    pub fn answer(&mut self, heard: Heard) {
        add_one(&mut self.answers, answer_kind(heard));
    }

    /// A packet of the frame with this number, 0 if it came from outside, was put into the page that is being filled. Answers
    /// whether there was room for the number.
    #[inline(always)]
    pub fn fill_with(&mut self, number: usize) -> bool {
        self.puts = self.puts.wrapping_add(1);
        if FILL <= self.filled {
            return false;
        }
        self.fill[self.filled] = number;
        self.filled += 1;
        true
    }

    /// A mote hears this frame that it sent.
    #[inline(always)]
    pub fn reach(&mut self, heard: HeardFrame) {
        if heard.heard | heard.traced == 0 {
            add_one(&mut self.heard, usize::from(heard.kind));
            return;
        }
        if heard.heard == 0 {
            self.reach_late(heard);
        }
    }

    /// A mote hears this frame that it sent, of which the bytes came from outside before.
    #[cold]
    #[inline(never)]
    fn reach_late(&mut self, heard: HeardFrame) {
        add_one(&mut self.heard, usize::from(heard.kind));
        self.traced = self.traced.wrapping_sub(1);
    }

    /// The bytes of a frame that it sent came from outside.
    pub fn trace(&mut self, before: &SentFrame) {
        if before.heard == 0 && before.traced == 0 {
            self.traced = self.traced.wrapping_add(1);
        }
    }

    /// A packet that it sent has more outcomes.
    #[inline(always)]
    pub fn mark(&mut self, before: &SentFrame, more: u8) {
        if before.state == 0 {
            self.count(0, more);
            return;
        }
        self.count_more(before.state, before.state | more);
    }

    /// A packet that it sent had these outcomes, and now has those.
    #[inline(always)]
    fn count(&mut self, before: u8, after: u8) {
        self.put = self.put.wrapping_add(one_if(after & PUT > before & PUT));
        self.used = self.used.wrapping_add(one_if(after & USED > before & USED));
        self.traced_put = self
            .traced_put
            .wrapping_add(one_if(is_traced_put(after)))
            .wrapping_sub(one_if(is_traced_put(before)));
    }

    #[cold]
    #[inline(never)]
    fn count_more(&mut self, before: u8, after: u8) {
        self.count(before, after);
    }
}
