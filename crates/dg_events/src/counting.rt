//! Counts by the number of a kind.
ghost use Rattle.std.specs.Prelude.{◌≡◌, ◌∷◌, ℕ, List};
ghost use Rattle.dg_events.specs.Frames.{frame_number};
ghost use Rattle.dg_events.specs.FrameShares.{with_one};
ghost use Rattle.dg_events.specs.Noted.{up_at};

use dg_meter::Share;

/// Counts one more of the kind with this number. No run has 2^64 of one kind.
#[inline(always)]
pub fn add_one(counts: &mut [u64], kind: usize)
    ensures { counts.new ≡ up_at kind counts.old }
{
    if kind < counts.len() {
        counts[kind] = counts[kind].wrapping_add(1);
    }
}

/// Counts one more of the kind with this number, of this many bytes.
#[inline(always)]
pub fn add_share(shares: &mut [Share], kind: usize, bytes: usize)
    ensures { shares.new ≡ with_one kind bytes shares.old }
{
    if kind < shares.len() {
        shares[kind] = shares[kind].and(bytes);
    }
}

/// The number of the kind of the frame that begins with this byte, and 4 if it names none.
fn first_kind(byte: u8) -> usize
    ensures { (rest : List ℕ) → result ≡ frame_number (byte ∷ rest) }
{
    match byte {
        1 => 0,
        2 => 1,
        3 => 2,
        4 => 3,
        _ => 4,
    }
}

/// The number of the kind that the first byte of a frame names, and 4 if it names none.
pub fn bytes_kind(bytes: &[u8]) -> usize
    ensures { result ≡ frame_number bytes.now }
{
    match bytes.first() {
        Some(byte) => first_kind(*byte),
        None => 4,
    }
}
