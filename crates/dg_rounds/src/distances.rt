//! How far motes are from one of them, and how many sweeps are enough.
ghost use Rattle.std.specs.Prelude.{◌≡◌, ℕ, ◌+◌, ◌-◌, ◌<◌, ◌≤◌, All, IfOk, IsTrue, Option, Some, None, false, length, vec_len};
ghost use Rattle.std.specs.Prelude.{slice_index_or, slice_set};
ghost use Rattle.dg_rounds.specs.LinkPaths.{IsLevel, IsLinked};
ghost use Rattle.dg_rounds.specs.Marks.{Marks, Spreads, unmarked};

use std::alloc::{AllocError, Global};

/// For each of this many motes, the least number of links between it and `from`, or None if there is no path.
pub fn levels(
    alloc: Global,
    motes: u8,
    links: &[(u8, u8)],
    from: u8,
) -> Result<Vec<Option<u8>>, AllocError>
    requires inside { from < motes }
    requires linked { All (λ l. (l.0 < motes) × (l.1 < motes)) links.now }
    ensures len { IfOk result (λ v. vec_len v ≡ motes) }
    ensures each { IfOk result (λ v. (m : ℕ) → m < motes
        → IsLevel links.now from m (slice_index_or v.items m None)) }
{
    let mut levels = vec![in alloc; None; usize::from(motes)]?;
    levels[usize::from(from)] = Some(0);
    let mut level = 0;
    while spread(&mut levels, links, level) {
        level += 1;
    }
    Ok(levels)
}

/// Marks the unmarked motes that are one link away from those of this level. The answer says whether there were any.
fn spread(levels: &mut [Option<u8>], links: &[(u8, u8)], level: u8) -> bool
    requires bound { level < 255 }
    requires linked { All (λ l. (l.0 < length levels.old) × (l.1 < length levels.old)) links.now }
    ensures spreads { Spreads (IsLinked links.now) level levels.old levels.new }
    ensures more { IsTrue result → unmarked levels.new < unmarked levels.old }
    ensures none { result ≡ false → levels.new ≡ levels.old }
{
    let mut marked = false;
    for (a, b) in links {
        marked |= mark(levels, usize::from(*a), usize::from(*b), level);
        marked |= mark(levels, usize::from(*b), usize::from(*a), level);
    }
    marked
}

/// Marks a mote that is one link away from one of this level, if it isn't marked.
fn mark(levels: &mut [Option<u8>], near: usize, far: usize, level: u8) -> bool
    requires bound { level < 255 }
    requires near_inside { near < length levels.old }
    requires far_inside { far < length levels.old }
    ensures { Marks near far level levels.old levels.new result }
{
    if levels[near] == Some(level) && levels[far].is_none() {
        levels[far] = Some(level + 1);
        return true;
    }
    false
}

/// How many sweeps bring an image of `pages` pages to the motes that are `hops` links away.
pub fn enough(pages: u8, hops: u8) -> u32
    requires { 1 ≤ hops }
    ensures { result ≡ pages + hops - 1 }
{
    u32::from(pages) + u32::from(hops) - 1
}
