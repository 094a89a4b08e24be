//! A frame that was sent, and its outcome.
ghost use Rattle.std.specs.Prelude.{◌≡◌};

use dg_base::MOST_MOTES;

/// A frame that was sent, and its outcome.
#[derive(Clone, Copy)]
pub struct SentFrame {
    pub by: u8,
    pub kind: u8,
    /// A bit for each mote that heard it.
    pub heard: u16,
    /// A bit for each mote to which its bytes came from outside.
    pub traced: u16,
    /// What else became of it, as a set of outcomes.
    pub state: u8,
}

/// A frame that a mote heard, as it was before.
#[derive(Clone, Copy)]
pub struct HeardFrame {
    pub by: u8,
    pub kind: u8,
    /// A bit for each mote that had heard it.
    pub heard: u16,
    /// A bit for each mote to which its bytes had come from outside.
    pub traced: u16,
}

/// The bit of a mote.
#[inline(always)]
pub fn bit(mote: u8) -> u16 {
    if mote < MOST_MOTES { 1_u16 << mote } else { 0 }
}

impl SentFrame {
    /// A frame of this kind that a mote just sent.
    #[inline(always)]
    pub fn new(by: u8, kind: u8) -> SentFrame
        ensures { result.kind ≡ kind }
    {
        SentFrame {
            by,
            kind,
            heard: 0,
            traced: 0,
            state: 0,
        }
    }

    /// A mote hears it.
    #[inline(always)]
    pub fn hear(&mut self, mote: u8) -> HeardFrame
        ensures kind { result.kind ≡ self.old.kind }
        ensures kept { self.new.kind ≡ self.old.kind }
    {
        let before = self.heard;
        self.heard |= bit(mote);
        HeardFrame {
            by: self.by,
            kind: self.kind,
            heard: before,
            traced: self.traced,
        }
    }

    /// Adds to its outcome: motes to which its bytes came from outside, by their bits, and a set of outcomes. Answers what it was
    /// before.
    #[inline(always)]
    pub fn mark(&mut self, traced: u16, state: u8) -> SentFrame
        ensures { self.new.kind ≡ self.old.kind }
    {
        let before = *self;
        self.traced |= traced;
        self.state |= state;
        before
    }
}
