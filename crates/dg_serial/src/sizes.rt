//! The special bytes of a line. The function does nothing: its contract is the law.
ghost use Rattle.std.specs.Prelude.{◌≡◌};
ghost use Rattle.dg_serial.specs.Sizes.{flag_byte, escape_byte, escaped_flag, escaped_escape};

use crate::{ESCAPE, ESCAPED_ESCAPE, ESCAPED_FLAG, FLAG};

/// The flag and the escape are those of RFC 1662, section 4.2, and after an escape each has its sixth bit complemented.
pub fn the_bytes_of_a_line_are_these()
    ensures flag { FLAG ≡ flag_byte }
    ensures escape { ESCAPE ≡ escape_byte }
    ensures second_flag { ESCAPED_FLAG ≡ escaped_flag }
    ensures second_escape { ESCAPED_ESCAPE ≡ escaped_escape }
{}
