//! The bounds of scripts, and what they are. The function does nothing: its contract is the law.
ghost use Rattle.std.specs.Prelude.{◌≡◌};
ghost use Rattle.dg_script.specs.Sizes.{most_image, most_events, most_sweeps, most_line, most_kept, most_written};
ghost use Rattle.dg_script.specs.Sizes.{most_used_bytes};

use dg_base::MOST_INPUT;
use dg_object::SLOTS;

/// The largest number of an image.
pub const MOST_IMAGE: u8 = SLOTS - 1;

/// The most events of a run.
pub const MOST_EVENTS: u32 = 1_000_000;

/// The most sweeps of one line.
pub const MOST_SWEEPS: u32 = 1_000;

/// The most bytes of a line's text.
pub const LONGEST: usize = 300_000;

/// The bytes that are kept at once: those of the longest line, with CR and LF after them.
pub const KEPT: usize = LONGEST + 2;

/// The most bytes of a content that is written, which then fits into a line.
pub const MOST_WRITTEN: usize = 149_000;

/// The most bytes of an input that are used.
pub const USED: usize = MOST_INPUT;

/// The bounds are those of this profile: images up to 6, 1,000,000 events in a run, 1,000 sweeps in a line, lines of 300,000
/// bytes, contents of 149,000 that are written, and inputs of 16,777,216.
pub fn a_script_has_these_bounds()
    ensures images { MOST_IMAGE ≡ most_image }
    ensures events { MOST_EVENTS ≡ most_events }
    ensures sweeps { MOST_SWEEPS ≡ most_sweeps }
    ensures line { LONGEST ≡ most_line }
    ensures kept { KEPT ≡ most_kept }
    ensures written { MOST_WRITTEN ≡ most_written }
    ensures used { USED ≡ most_used_bytes }
{}
