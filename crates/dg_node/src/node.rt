//! A node: a mote that is on, and the image that it runs.
ghost use Rattle.std.specs.Prelude.{◌≡◌, ℕ, ◌<◌, List};
ghost use Rattle.dg_volume.specs.Store.{Store};
ghost use Rattle.dg_mote.specs.Model.{MoteState};
ghost use Rattle.dg_mote.specs.Dues.{due_of};
ghost use Rattle.dg_mote.specs.Effects.{tick_effect};
ghost use Rattle.dg_mote.specs.Motes.{IsMote, volume_of};
ghost use Rattle.dg_node.specs.Nodes.{node_image, node_mote, rest_effect};

use dg_base::ImageVersion;
use dg_mote::Mote;
use dg_volume::Volume;

/// A mote that is on, and the image that it runs. It does not contain its board.
#[derive(Drop)]
pub struct Node {
    pub(crate) image_version: ImageVersion,
    pub(crate) mote: Mote,
}

/// The number and the width of a mote, and when and with which random number it powers on.
#[derive(Clone, Copy, Debug, PartialEq, Eq)]
pub struct At {
    pub id: u16,
    /// Whether its radio is wide.
    pub wide: bool,
    /// The time, in milliseconds.
    pub now: u64,
    /// A random number.
    pub word: u32,
}

impl Node {
    /// The image that it runs.
    pub fn image_version(&self) -> ImageVersion
        ensures { result ≡ node_image self.now }
    {
        self.image_version
    }

    /// The time before which a tick changes nothing and sends nothing. The chip is not read.
    pub fn due(&self) -> u64
        ensures rests { (c : List ℕ) (m : MoteState) (s : Store) (now word : ℕ) → IsMote c (node_mote self.now) m s → now < result
            → tick_effect m s now word ≡ rest_effect m s }
        ensures value { (c : List ℕ) (m : MoteState) (s : Store) → IsMote c (node_mote self.now) m s → result ≡ due_of m s }
    {
        self.mote.due()
    }

    /// The volume of its board.
    pub fn volume(&self) -> &Volume
        ensures { result.now ≡ volume_of (node_mote self.now) }
    {
        self.mote.volume()
    }
}
