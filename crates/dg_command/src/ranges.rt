//! The ranges of numbers in the words. Those that the layers below own are theirs.
ghost use Rattle.std.specs.Prelude.{◌≡◌};
ghost use Rattle.dg_command.specs.Sizes.{most_turns, least_motes, least_pages, most_step, root_bytes, root_digits};

/// The most turns that a service takes. It takes one at least.
pub const MOST_TURNS: u32 = 1_000_000;

/// The fewest motes of a trial.
pub const LEAST_MOTES: u8 = 2;

/// The fewest pages of a trial's image.
pub const LEAST_PAGES: u8 = 2;

/// The most milliseconds between two events of a base mote. There is one at least.
pub const MOST_STEP: u32 = 60_000;

/// The bytes of the root of a chain, a digest of SHA-256.
pub const ROOT_BYTES: usize = 32;

/// The hex digits of a root: two for each byte.
pub const ROOT_DIGITS: usize = 2 * ROOT_BYTES;

/// The numbers are those of this profile. A service takes 1,000,000 turns at most, and a trial has 2 motes and 2 pages at least.
/// A base mote takes steps of 60,000 milliseconds at most, and a root has 32 bytes.
pub fn the_ranges_are_these()
    ensures turns { MOST_TURNS ≡ most_turns }
    ensures motes { LEAST_MOTES ≡ least_motes }
    ensures pages { LEAST_PAGES ≡ least_pages }
    ensures step { MOST_STEP ≡ most_step }
    ensures root { (ROOT_BYTES ≡ root_bytes) × (ROOT_DIGITS ≡ root_digits) }
{}
