//! Pages of two chips beside each other.
ghost use Rattle.std.specs.Prelude.{◌≡◌, ◌↔◌, ◌+◌, ◌≤◌, IsTrue};
ghost use Rattle.dg_nor.specs.Sizes.{sectors};
ghost use Rattle.dg_inspect.specs.Chip.{still_device};
ghost use Rattle.dg_inspect.specs.Pages.{pages_from};
ghost use Rattle.dg_compare.specs.Alike.{PagesShared};
ghost use Rattle.dg_compare.specs.declared.results.SharedPages.TheVariants.{Equal};

use crate::results::SharedPages;
use dg_inspect::StillChip;

/// Whether each page that both have is equal.
pub(crate) fn is_equal(shared: SharedPages) -> bool
    ensures { IsTrue result ↔ (shared ≡ Equal) }
{
    matches!(shared, SharedPages::Equal)
}

/// Whether two pages are the same, byte for byte.
fn is_same(one: &[u8], other: &[u8]) -> bool
    ensures { IsTrue result ↔ (one.now ≡ other.now) }
{
    one == other
}

/// The first `count` pages from a sector on, of both chips.
pub(crate) fn compare_pages(
    one: &StillChip,
    other: &StillChip,
    first: u32,
    count: u8,
) -> SharedPages
    requires { first + count ≤ sectors }
    ensures { PagesShared (pages_from (still_device one.now).image first count)
        (pages_from (still_device other.now).image first count) result }
{
    for page in 0..count {
        let index = first + u32::from(page);
        let mine = one.page(index);
        let theirs = other.page(index);
        let same = is_same(mine, theirs);
        if !same {
            return SharedPages::Differ { page };
        }
    }
    SharedPages::Equal
}
