//! An order is kept.
ghost use Rattle.std.specs.Prelude.{◌≡◌, ℕ, ◌^◌, ◌<◌, ◌≤◌, List, Option, None, IsTrue, IfSome, IfOk, option_map};
ghost use Rattle.dg_volume.specs.Sizes.{images};
ghost use Rattle.dg_volume.specs.Store.{Store};
ghost use Rattle.dg_volume.specs.Stands.{Stands, Mounted, NothingLent};
ghost use Rattle.dg_volume.specs.Changes.{order_refusal};
ghost use Rattle.dg_mote.specs.Model.{maintains};
ghost use Rattle.dg_node.specs.Acts.{NodeOrdered, order_effect, is_orderly_ordered};
ghost use Rattle.dg_node.specs.Hosts.{host};
ghost use Rattle.dg_node.specs.Known.{IsKnownChip, OrderReads, SeesOrder};
ghost use Rattle.dg_node.specs.Nodes.{IsTimelyNode, NodeStands, NodeRunning, running_mote, node_runs, node_image};

use crate::acts::{ActFault, Change, Ordered, order_failed};
use crate::mounting::mount_known;
use crate::node::Node;
use crate::report::report_chip;
use dg_control::Order;
use dg_nor::Nor;
use dg_volume::{Volume, a_volume_bounds_a_remount};

/// A node that is on continues with its board's new volume.
pub(crate) fn reload(runs: &mut Option<Node>, volume: Volume, now: u64, word: u32)
    requires node { (c : List ℕ) × IfSome runs.old (λ v. IsTimelyNode c v now) }
    requires free { NothingLent volume }
    requires moment { now < 2 ^ 62 }
    ensures { (c d : List ℕ) (s t : Store) (r : Option NodeRunning) → NodeStands c runs.old s r → Mounted d volume t
        → NodeStands d runs.new t
        (node_runs (option_map (λ m. maintains m now word) (running_mote r)) None (option_map node_image runs.old)) }
{
    if let Some(node) = runs {
        node.mote.reload(volume, now, word);
    }
}

impl Node {
    /// Keeps an order on a board, which is mounted again by binary search if it is a known board. A node that is on continues
    /// with the new volume.
    #[inline(never)]
    pub fn order<N: Nor>(
        runs: &mut Option<Node>,
        board: &mut N,
        known: bool,
        order: Order,
        now: u64,
        word: u32,
    ) -> Result<Ordered, ActFault>
        requires some_number { 1 ≤ order.number }
        requires known_image { order.image < images }
        requires some_version { 1 ≤ order.version }
        requires node { IfSome runs.old (λ v. IsTimelyNode (N.device board.old).image v now) }
        requires moment { now < 2 ^ 62 }
        requires known_chip { IsTrue known → IsKnownChip (N.device board.old).image }
        ensures done { (r : Option NodeRunning) (s : Store) → Stands (N.device board.old).image s
            → NodeStands (N.device board.old).image runs.old s r
            → NodeOrdered result (order_refusal s order) (order_effect (running_mote r) s order now word) s
            (host (N.device board.old) runs.old) (host (N.device board.new) runs.new) }
        // a known board is mounted again, and nothing else is read; it stays known
        ensures reads { OrderReads known (N.device board.old) (N.device board.new) }
        // it reports whether the chip is orderly afterwards
        ensures sees { IfOk result (λ x. SeesOrder (is_orderly_ordered x) (N.device board.new).image) }
        ensures same_reference { (N.device board.new).references ≡ (N.device board.old).references }
    {
        a_volume_bounds_a_remount();
        let mut volume = mount_known(board, known)?;
        let before = report_chip(&volume);
        match volume.order(board, order.number, order.image, order.version) {
            Ok(()) => {
                let change = Change {
                    before,
                    after: report_chip(&volume),
                    orderly: volume.orderly(),
                };
                reload(runs, volume, now, word);
                Ok(Ordered::Kept(change))
            }
            Err(why) => order_failed(why, before, volume.orderly()),
        }
    }
}
