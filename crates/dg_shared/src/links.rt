//! Which motes are neighbours.
ghost use Rattle.std.specs.Prelude.{◌≡◌, ◌<◌, ◌∷◌, ◌++◌, [], ◌==◌, ◌&&◌, ◌||◌, ℕ, List};
ghost use Rattle.std.specs.FinSet as set;
ghost use Rattle.dg_rules.specs.Sizes.{most_motes};
ghost use Rattle.dg_script.specs.Places.{is_linked};
ghost use Rattle.dg_shared.specs.Neighbours.{KnowsLinks, is_noted};

use dg_bits::PageBits;

/// The most motes of a world.
pub const MOST_MOTES: usize = dg_base::MOST_MOTES as usize;

/// The neighbours of each mote.
#[derive(Drop)]
pub struct Links {
    pub(crate) neighbours: [PageBits<MOST_MOTES>; MOST_MOTES],
}

impl Links {
    /// No motes are neighbours.
    pub fn none() -> Links
        ensures { KnowsLinks result.neighbours [] }
    {
        Links {
            neighbours: [PageBits::none(); MOST_MOTES],
        }
    }

    /// Two motes become neighbours.
    pub fn join(&mut self, a: u8, b: u8)
        ensures { (pairs : List (ℕ × ℕ)) → KnowsLinks self.old.neighbours pairs
            → KnowsLinks self.new.neighbours (pairs ++ (a, b) ∷ []) }
    {
        note(&mut self.neighbours, a, b);
        note(&mut self.neighbours, b, a);
    }

    /// Whether two motes are neighbours.
    pub fn are_joined(&self, a: u8, b: u8) -> bool
        requires first { a < most_motes }
        requires second { b < most_motes }
        ensures { (pairs : List (ℕ × ℕ)) → KnowsLinks self.now.neighbours pairs → result ≡ is_linked pairs a b }
    {
        self.neighbours[usize::from(a)].has(b)
    }
}

/// The second mote is a neighbour of the first one. Numbers that no mote has are ignored.
fn note(neighbours: &mut [PageBits<MOST_MOTES>; MOST_MOTES], a: u8, b: u8)
    ensures { (x y : ℕ) → x < most_motes → y < most_motes
        → is_noted neighbours.new x y ≡ ((x == a && y == b) || is_noted neighbours.old x y) }
{
    if usize::from(a) < MOST_MOTES && usize::from(b) < MOST_MOTES {
        let mut of_first = neighbours[usize::from(a)];
        of_first.set(b);
        neighbours[usize::from(a)] = of_first;
    }
}
