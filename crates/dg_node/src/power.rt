//! A board powers on.
ghost use Rattle.std.specs.Prelude.{◌≡◌, ◌^◌, ◌<◌, Option, None};
ghost use Rattle.dg_volume.specs.Store.{Store};
ghost use Rattle.dg_volume.specs.Stands.{Stands, NothingLent};
ghost use Rattle.dg_mote.specs.Effects.{boots, reset_effect};
ghost use Rattle.dg_node.specs.Hosts.{host};
ghost use Rattle.dg_node.specs.Ends.{NodeDone, PowerFinds, power_end, powered_in};
ghost use Rattle.dg_node.specs.inner.Begins.{BeginsOver};

use crate::answers::{Powered, StartedImage};
use crate::node::{At, Node};
use dg_base::ImageVersion;
use dg_boot::{BootFault, Kind, Started, start};
use dg_mote::Mote;
use dg_nor::Nor;

impl Node {
    /// A board powers on: its chip starts, and its mote is created.
    pub fn power<N: Nor>(board: &mut N, at: At) -> Result<Powered, BootFault>
        requires moment { at.now < 2 ^ 62 }
        ensures done { (s : Store) (before : Option Node) → Stands (N.device board.old).image s
            → NodeDone (power_end result) None (reset_effect s at.id at.wide at.now at.word)
            (host (N.device board.old) before) (host (N.device board.new) (powered_in result)) }
        // it distinguishes a board that is a volume from one that is not, which keeps its bytes
        ensures finds { PowerFinds result (N.device board.old) (N.device board.new) }
    {
        begin(Kind::Power, at, board)
    }
}

/// Starts a board, and creates its node.
#[inline(never)]
pub(crate) fn begin<N: Nor>(cause: Kind, at: At, board: &mut N) -> Result<Powered, BootFault>
    requires moment { at.now < 2 ^ 62 }
    ensures done { (s : Store) (before : Option Node) → Stands (N.device board.old).image s
        → NodeDone (power_end result) None (boots cause s at.id at.wide at.now at.word)
        (host (N.device board.old) before) (host (N.device board.new) (powered_in result)) }
    ensures finds { PowerFinds result (N.device board.old) (N.device board.new) }
{
    match start(board, cause) {
        Ok(started) => Ok(node_of_start(started, at)),
        Err(fault) => Err(fault),
    }
}

/// The node of a board that was started.
fn node_of_start(started: Started, at: At) -> Powered
    requires moment { at.now < 2 ^ 62 }
    requires free { NothingLent started.volume }
    ensures { BeginsOver started at.id at.wide at.now at.word result }
{
    let image_version = ImageVersion {
        image: started.image,
        version: started.version,
    };
    let image = StartedImage {
        image_version,
        length: started.length,
        crc: started.crc,
    };
    Powered {
        node: Node {
            image_version,
            mote: Mote::new(started.volume, at.id, at.wide, at.now, at.word),
        },
        image,
    }
}
