//! An image is injected.
ghost use Rattle.std.specs.Prelude.{◌≡◌, ℕ, ◌^◌, ◌<◌, ◌≤◌, Option, IsTrue, IfSome, IfOk};
ghost use Rattle.dg_base.specs.Texts.{spells_name};
ghost use Rattle.dg_object.specs.Object.{row_of};
ghost use Rattle.dg_volume.specs.Sizes.{images};
ghost use Rattle.dg_volume.specs.Store.{Store};
ghost use Rattle.dg_volume.specs.Stands.{Stands};
ghost use Rattle.dg_volume.specs.Changes.{inject_refusal};
ghost use Rattle.dg_volume.specs.Remount.{RemountBytes};
ghost use Rattle.dg_node.specs.Acts.{NodeInjected, InjectTook, inject_effect, is_orderly_injected};
ghost use Rattle.dg_node.specs.Hosts.{host};
ghost use Rattle.dg_node.specs.Known.{IsKnownChip, SeesOrder};
ghost use Rattle.dg_node.specs.Nodes.{IsTimelyNode, NodeStands, NodeRunning, running_mote};

use crate::acts::{ActFault, Change, Injected, inject_failed};
use crate::mounting::mount_known;
use crate::node::Node;
use crate::order::reload;
use crate::report::report_chip;
use dg_base::ImageVersion;
use dg_nor::Nor;

/// A version of an image, with its name and its bytes.
#[derive(Clone, Copy)]
pub struct ImageBytes<'a> {
    pub image_version: ImageVersion,
    pub name: &'a [u8],
    pub bytes: &'a [u8],
}

impl Node {
    /// Injects an image into a board, which is mounted again by binary search if it is a known board. A node that is on
    /// continues with the new volume.
    #[inline(never)]
    pub fn inject<N: Nor>(
        runs: &mut Option<Node>,
        board: &mut N,
        known: bool,
        image: &ImageBytes<'_>,
        now: u64,
        word: u32,
    ) -> Result<Injected, ActFault>
        requires known_image { image.now.image_version.image < images }
        requires some_version { 1 ≤ image.now.image_version.version }
        requires named { IsTrue (spells_name image.now.name.now) }
        requires node { IfSome runs.old (λ v. IsTimelyNode (N.device board.old).image v now) }
        requires moment { now < 2 ^ 62 }
        requires known_chip { IsTrue known → IsKnownChip (N.device board.old).image }
        ensures done { (r : Option NodeRunning) (s : Store) → Stands (N.device board.old).image s
            → NodeStands (N.device board.old).image runs.old s r
            → let row = row_of image.now.image_version.image image.now.image_version.version image.now.name.now
            image.now.bytes.now in
            NodeInjected result (inject_refusal s row) (inject_effect (running_mote r) s row now word) s
            (host (N.device board.old) runs.old) (host (N.device board.new) runs.new) }
        // a refused injection mounts a known board again, and may read a page
        ensures reads { IsTrue known → (n : ℕ) → RemountBytes (N.device board.old).image n
            → InjectTook result n (N.device board.old) (N.device board.new) }
        // it reports whether the chip is orderly afterwards
        ensures sees { IfOk result (λ x. SeesOrder (is_orderly_injected x) (N.device board.new).image) }
        ensures same_reference { (N.device board.new).references ≡ (N.device board.old).references }
    {
        let mut volume = mount_known(board, known)?;
        let before = report_chip(&volume);
        let version = image.image_version;
        match volume.inject(
            board,
            version.image,
            version.version,
            image.name,
            image.bytes,
        ) {
            Ok(_) => {
                let change = Change {
                    before,
                    after: report_chip(&volume),
                    orderly: volume.orderly(),
                };
                reload(runs, volume, now, word);
                Ok(Injected::Kept(change))
            }
            Err(why) => inject_failed(why, before, volume.orderly()),
        }
    }
}
