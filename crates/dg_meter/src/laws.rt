//! A law of the definitions alone. The function does nothing: its contract is the law.
ghost use Rattle.std.specs.Prelude.{◌≡◌, ◌≢◌, ℕ};
ghost use Rattle.dg_meter.specs.Shares.{one_more, share_at, share_noted};
ghost use Rattle.dg_meter.specs.declared.region.Region.{Region};
ghost use Rattle.dg_meter.specs.declared.shares.Shares.{Shares};

/// What is noted in a part of a chip counts there, once and with its bytes, and in no other part.
pub fn a_region_counts_alone()
    ensures here { (s : Shares) (r : Region) (bytes : ℕ) → share_at (share_noted s r bytes) r ≡ one_more (share_at s r) bytes }
    ensures others { (s : Shares) (r q : Region) (bytes : ℕ) → q ≢ r → share_at (share_noted s r bytes) q ≡ share_at s q }
{}
