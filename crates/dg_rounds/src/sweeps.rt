//! The events of a sweep.
ghost use Rattle.std.specs.Prelude.{◌≡◌, ◌≢◌, false, [], IsTrue};
ghost use Rattle.dg_rounds.specs.Rounds.{sweep};
ghost use Rattle.dg_rounds.specs.Left.{left_of_round, left_of_sweep};

use crate::rounds::{ROUND_EVENTS, RoundEvents, round};
use dg_base::Event;

/// The events of one sweep, from first to last.
#[derive(Debug, Drop)]
pub struct SweepEvents<'a> {
    pub(crate) current: RoundEvents,
    /// The link over which the round back is still to come.
    pub(crate) back: Option<(u8, u8)>,
    /// The links whose rounds are still to come.
    pub(crate) links: &'a [(u8, u8)],
}

impl<'a> SweepEvents<'a> {
    /// Advances to the next round. At the end there is no next round.
    fn begin_round(&mut self) -> bool
        requires { left_of_round self.old.current ≡ [] }
        ensures more { IsTrue result → left_of_sweep self.new ≡ left_of_sweep self.old }
        ensures some { IsTrue result → left_of_round self.new.current ≢ [] }
        ensures none { result ≡ false → (left_of_sweep self.old ≡ []) × (left_of_sweep self.new ≡ []) }
    {
        if let Some((a, b)) = self.back {
            self.current = round(b, a);
            self.back = None;
            return true;
        }
        if let Some((link, others)) = self.links.split_first() {
            self.current = round(link.0, link.1);
            self.back = Some(*link);
            self.links = others;
            return true;
        }
        false
    }
}

impl<'a> Iterator for SweepEvents<'a> {
    type Item = Event;

    ghost use Rattle.std.specs.Iterator.{YieldsFirst, item_count};
    ghost use Rattle.dg_rounds.specs.Left.{left_of_sweep};

    ghost next_gives = { YieldsFirst left_of_sweep };

    ghost remaining = { item_count left_of_sweep };

    fn next(&mut self) -> Option<Event> {
        if let Some(event) = self.current.next() {
            return Some(event);
        }
        if self.begin_round() {
            self.current.next()
        } else {
            None
        }
    }
}

/// A round in each direction over each link, in the order of the links.
pub fn sweep(links: &[(u8, u8)]) -> SweepEvents<'_>
    ensures { left_of_sweep result ≡ sweep links.now }
{
    SweepEvents {
        current: RoundEvents {
            a: 0,
            b: 0,
            given: ROUND_EVENTS,
        },
        back: None,
        links,
    }
}
