//! Who hears whom.
ghost use Rattle.std.specs.Prelude.{◌≡◌, ◌<◌, ◌||◌, ℕ, false, slice_index_or};
ghost use Rattle.dg_script.specs.Places.{is_linked, joins};
ghost use Rattle.dg_script.specs.Sizes.{most_motes};
ghost use Rattle.dg_rehearse.specs.Along.{AreNeighbours};

use crate::progress::set;
use dg_base::MOST_MOTES;

/// Which motes are neighbours of one, by their numbers.
pub(crate) type Marks = [bool; MOST_MOTES as usize];

/// The motes that a link joins with this one.
pub(crate) fn neighbours_of(links: &[(u8, u8)], mote: u8) -> Marks
    ensures { AreNeighbours result links.now mote }
{
    let mut marks = [false; MOST_MOTES as usize];
    for link in links {
        mark_end(&mut marks, *link, mote);
    }
    marks
}

/// Marks the other end of a link, if this mote is one of its ends.
fn mark_end(marks: &mut Marks, link: (u8, u8), mote: u8)
    ensures { (other : ℕ) → other < most_motes
        → slice_index_or marks.new other false ≡ (slice_index_or marks.old other false || joins mote other link) }
{
    if link.0 == mote {
        set(marks, link.1, true);
    }
    if link.1 == mote {
        set(marks, link.0, true);
    }
}
