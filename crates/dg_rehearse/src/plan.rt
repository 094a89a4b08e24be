//! What is rehearsed, and how it ended.
ghost use Rattle.std.specs.Prelude.{◌≡◌, ◌≤◌, true, length};
ghost use Rattle.dg_words.specs.Cells.{AreBytes};
ghost use Rattle.dg_script.specs.Sizes.{most_content};
ghost use Rattle.dg_script.specs.Ranges.{IsDeclared};
ghost use Rattle.dg_rehearse.specs.Rehearsed.{planned_row};

use dg_base::{Bytes, MOST_CONTENT, is_name};
use dg_script::MOST_IMAGE;

/// What is rehearsed: an image that is injected into one mote of a network, and the losses and cuts meanwhile.
#[derive(Debug, Drop)]
pub struct Plan {
    /// The number of the image, 1 to 6.
    pub image: u8,
    /// Its version, 1 or greater.
    pub version: u32,
    pub name: Bytes,
    /// The bytes of the image, 1 to 70,656.
    pub content: Bytes,
    /// The mote into which it is injected.
    pub at: u8,
    /// Whether it is ordered too, so that each mote starts it.
    pub ordered: bool,
    /// The probability, in percent, that a frame is lost on its way to one neighbour.
    pub loss: u8,
    /// The seed of all random draws: the same plan and seed give the same script.
    pub seed: u32,
    /// The longest that it lasts, in minutes of the schedule.
    pub minutes: u32,
    /// How many resets have their power cut within the start.
    pub cuts: u32,
}

impl Plan {
    /// Whether a script may declare its image: the number, the version, the name and the length are in their ranges.
    pub fn is_declarable(&self) -> bool
        ensures { result ≡ true → IsDeclared (planned_row self.now) }
    {
        if self.image == 0 || self.image > MOST_IMAGE {
            return false;
        }
        if self.version == 0 || !is_name(self.name.as_slice()) {
            return false;
        }
        is_content(self.content.as_slice())
    }
}

/// Whether a script may declare this many bytes.
fn is_content(bytes: &[u8]) -> bool
    ensures bytes { AreBytes bytes.now }
    ensures few { result ≡ true → length bytes.now ≤ most_content }
{
    bytes.len() <= MOST_CONTENT
}

/// How a rehearsal ended.
#[derive(Clone, Copy, Debug, PartialEq, Eq)]
pub enum Ending {
    /// Every mote keeps the whole image and, if it was ordered, runs it.
    Complete,
    /// The minutes ran out before that.
    OutOfTime,
    /// The script has a million events, the most that a script may have.
    TooMany,
    /// The script has too few bytes left for another turn.
    TooLong,
}

/// The script of a rehearsal, and how the rehearsal ended.
#[derive(Debug, Drop)]
pub struct Rehearsal {
    pub script: Vec<u8>,
    pub ending: Ending,
    /// The last moment, in milliseconds.
    pub moment: u64,
}
