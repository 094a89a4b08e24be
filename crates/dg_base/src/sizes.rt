//! The bounds that the crates above share, and what they are. The function does nothing: its contract is the law.
ghost use Rattle.std.specs.Prelude.{◌≡◌};
ghost use Rattle.dg_base.specs.Sizes.{longest_frame, longest_mask, most_motes, greatest_port, most_content, most_input};

use crate::events::{LONGEST_FRAME, LONGEST_MASK};

/// The most motes of a network.
pub const MOST_MOTES: u8 = 16;

/// The greatest port of the first mote of a network. The others have those that follow, so it is below the greatest port of all.
pub const GREATEST_PORT: u16 = 65_500;

/// The most bytes of a content that a script or a file gives for an image.
pub const MOST_CONTENT: usize = 1_048_576;

/// The most bytes of an input that are used: of a script, or of the text of an image.
pub const MOST_INPUT: usize = 16_777_216;

/// The bounds are those of this profile: frames of at most 64 bytes, masks of at most 2,048, 16 motes, and
/// ports up to 65,500. Contents have at most 1,048,576 bytes, and inputs at most 16,777,216.
pub fn the_sizes_are_these()
    ensures frame { LONGEST_FRAME ≡ longest_frame }
    ensures mask { LONGEST_MASK ≡ longest_mask }
    ensures motes { MOST_MOTES ≡ most_motes }
    ensures port { GREATEST_PORT ≡ greatest_port }
    ensures content { MOST_CONTENT ≡ most_content }
    ensures input { MOST_INPUT ≡ most_input }
{}
