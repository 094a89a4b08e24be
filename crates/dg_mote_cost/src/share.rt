//! Counts by the number of a kind.
ghost use Rattle.std.specs.Prelude.{◌≡◌, ◌*◌, ◌-◌, ◌^◌, min};
ghost use Rattle.dg_events.specs.Frames.{frame_size};

use dg_events::frame_bytes;
use dg_meter::Share;

/// Counts `more` of the kind with this number.
#[inline(always)]
pub fn add(counts: &mut [u64], kind: usize, more: u64) {
    if kind < counts.len() {
        counts[kind] = counts[kind].saturating_add(more);
    }
}

/// The number of a mote, an image or a kind as a byte, which it fits.
pub fn narrow(number: usize) -> u8 {
    match u8::try_from(number) {
        Ok(number) => number,
        Err(_) => u8::MAX,
    }
}

/// `count` frames of a kind, with their bytes.
pub fn share_of(kind: usize, count: u64) -> Share
    ensures count { result.count ≡ count }
    ensures bytes { result.bytes ≡ min (count * frame_size kind) (2 ^ 64 - 1) }
{
    Share {
        count,
        bytes: count.saturating_mul(frame_bytes(kind) as u64),
    }
}
