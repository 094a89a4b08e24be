//! The frames that were sent.
ghost use Rattle.std.specs.Prelude.{◌≡◌, true, ◌+◌, ◌<◌, ◌≤◌, ◌++◌, List, [], Some, None, length, vec_len, OnOk, option_map};
ghost use Rattle.std.specs.Vec.{vec_capacity};
ghost use Rattle.dg_frame.specs.Grammar.{in_range};
ghost use Rattle.dg_frame.specs.Spelling.{frame_of};
ghost use Rattle.dg_mote.specs.Motes.{sent_in};
ghost use Rattle.dg_rules.specs.Sizes.{most_motes};
ghost use Rattle.dg_rules.specs.World.{Sent, last_by};
ghost use Rattle.dg_shared.specs.Airs.{Carries, sent_of, sent_now, frame_in};

use crate::links::MOST_MOTES;
use crate::sent::SentFrame;
use dg_frame::Message;
use dg_mote::Outbox;
use std::alloc::{AllocError, Global};

/// The frames that were sent, the first one first. Each is found by its number, and the last one of a mote by the mote.
#[derive(Drop)]
pub struct Air {
    pub(crate) frames: Vec<SentFrame>,
    /// The number of each mote's last frame, counted from 1, and 0 where it sent none.
    pub(crate) last: [usize; MOST_MOTES],
}

impl Air {
    /// No frames.
    pub fn new(alloc: Global) -> Air
        ensures { Carries result [] }
    {
        Air {
            frames: Vec::new(alloc),
            last: [0; MOST_MOTES],
        }
    }

    /// Makes capacity for one more frame.
    pub fn reserve(&mut self) -> Result<(), AllocError>
        ensures same { (sent : List Sent) → Carries self.old sent → Carries self.new sent }
        ensures capacity { OnOk result (vec_len self.new.frames + 1 ≤ vec_capacity self.new.frames) }
    {
        if self.frames.len() < self.frames.capacity() {
            return Ok(());
        }
        self.grow()
    }

    /// Grows the capacity.
    #[inline(never)]
    fn grow(&mut self) -> Result<(), AllocError>
        ensures same { (sent : List Sent) → Carries self.old sent → Carries self.new sent }
        ensures capacity { OnOk result (vec_len self.new.frames + 1 ≤ vec_capacity self.new.frames) }
    {
        match self.frames.reserve(1) {
            Ok(()) => Ok(()),
            Err(_) => Err(AllocError),
        }
    }

    /// A mote sends the frame of its outbox, if there is one, which gets the next number. There is capacity for it.
    pub fn send(&mut self, by: u8, outbox: &Outbox)
        requires known { by < most_motes }
        requires capacity { vec_len self.old.frames + 1 ≤ vec_capacity self.old.frames }
        ensures { (before : List Sent) → Carries self.old before → Carries self.new (before ++ sent_now by (sent_in outbox.now)) }
    {
        if let Some(message) = outbox.message() {
            self.push(by, message);
        }
    }

    /// A mote sends the frame of a message. There is capacity for it.
    fn push(&mut self, by: u8, message: &Message)
        requires known { by < most_motes }
        requires range { in_range true message.now ≡ true }
        requires capacity { vec_len self.old.frames + 1 ≤ vec_capacity self.old.frames }
        ensures { (before : List Sent) → Carries self.old before
            → Carries self.new (before ++ sent_now by (Some (frame_of message.now))) }
    {
        self.frames.push_reserved(SentFrame {
            message: *message,
            by,
        });
        self.last[usize::from(by)] = self.frames.len();
    }

    /// How many frames were sent.
    pub fn count(&self) -> usize
        ensures { (sent : List Sent) → Carries self.now sent → result ≡ length sent }
    {
        self.frames.len()
    }

    /// The frame with this number.
    pub fn get(&self, number: usize) -> Option<&SentFrame>
        ensures { (sent : List Sent) → Carries self.now sent → option_map (λ f. sent_of f.now) result ≡ frame_in sent number }
    {
        if number == 0 || self.frames.len() < number {
            return None;
        }
        Some(&self.frames[number - 1])
    }

    /// The number of the last frame of a mote, 0 where it sent none.
    pub fn last_number(&self, by: u8) -> usize
        ensures { (sent : List Sent) → Carries self.now sent → frame_in sent result ≡ last_by by sent None }
    {
        let by = usize::from(by);
        if by < self.last.len() {
            self.last[by]
        } else {
            0
        }
    }

    /// The last frame of a mote.
    pub(crate) fn last_of(&self, by: u8) -> Option<&SentFrame>
        requires known { by < most_motes }
        ensures { (sent : List Sent) → Carries self.now sent → option_map (λ f. sent_of f.now) result ≡ last_by by sent None }
    {
        self.get(self.last[usize::from(by)])
    }
}
