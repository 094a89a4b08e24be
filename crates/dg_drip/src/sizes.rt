//! The numbers of this profile. The function does nothing: its contract is the law.
ghost use Rattle.std.specs.Prelude.{◌≡◌};
ghost use Rattle.dg_drip.specs.Sizes.{key_count, drip_kind, drip_size};

use crate::KEYS;
use crate::frame::{DRIP, DRIP_BYTES};

/// There are eight keys, and a frame of kind 5 has 14 bytes.
pub fn the_numbers_are_these()
    ensures keys { KEYS ≡ key_count }
    ensures kind { DRIP ≡ drip_kind }
    ensures bytes { DRIP_BYTES ≡ drip_size }
{}
