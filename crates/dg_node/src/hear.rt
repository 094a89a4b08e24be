//! A node hears a frame.
ghost use Rattle.std.specs.Prelude.{◌≡◌, ◌^◌, ◌<◌, true, None, Some, IfOk};
ghost use Rattle.dg_frame.specs.Grammar.{in_range};
ghost use Rattle.dg_frame.specs.Spelling.{frame_of};
ghost use Rattle.dg_volume.specs.Store.{Store};
ghost use Rattle.dg_mote.specs.Model.{MoteState};
ghost use Rattle.dg_mote.specs.Hears.{heard_of};
ghost use Rattle.dg_mote.specs.Effects.{frame_effect};
ghost use Rattle.dg_mote.specs.Hearing.{StaysIf};
ghost use Rattle.dg_mote.specs.Motes.{IsMote};
ghost use Rattle.dg_node.specs.Hosts.{host};
ghost use Rattle.dg_node.specs.Nodes.{IsTimelyNode, node_mote};
ghost use Rattle.dg_node.specs.Ends.{NodeDone, hear_end};

use crate::node::Node;
use dg_frame::Message;
use dg_mote::Heard;
use dg_nor::{Nor, Stopped};

impl Node {
    /// Hears the bytes of a frame. The answer says what the mote did.
    #[inline(always)]
    pub fn hear<N: Nor>(
        &mut self,
        board: &mut N,
        now: u64,
        word: u32,
        bytes: &[u8],
    ) -> Result<Heard, Stopped>
        requires node { IsTimelyNode (N.device board.old).image self.old now }
        requires moment { now < 2 ^ 62 }
        ensures done { (m : MoteState) (s : Store) → IsMote (N.device board.old).image (node_mote self.old) m s
            → NodeDone (hear_end result) None (frame_effect m s now word bytes.now)
            (host (N.device board.old) (Some self.old)) (host (N.device board.new) (Some self.new)) }
        ensures answers { IfOk result (λ heard. (m : MoteState) (s : Store)
            → IsMote (N.device board.old).image (node_mote self.old) m s → heard ≡ (heard_of m s now word bytes.now).answer) }
        // a frame that is refused or dropped changes nothing
        ensures unchanged { IfOk result (λ heard. StaysIf heard
            ((N.device board.new ≡ N.device board.old) × (self.new ≡ self.old))) }
    {
        match self.mote.hear(board, now, word, bytes) {
            Ok(heard) => Ok(heard),
            Err(Stopped) => Err(Stopped),
        }
    }

    /// Hears the frame of a message, which was sent in the same memory, as [`Node::hear`] hears its bytes. The fields of the
    /// message are in the ranges of a wide reader.
    #[inline(always)]
    pub fn hear_sent<N: Nor>(
        &mut self,
        board: &mut N,
        now: u64,
        word: u32,
        message: &Message,
    ) -> Result<Heard, Stopped>
        requires node { IsTimelyNode (N.device board.old).image self.old now }
        requires moment { now < 2 ^ 62 }
        requires range { in_range true message.now ≡ true }
        ensures done { (m : MoteState) (s : Store) → IsMote (N.device board.old).image (node_mote self.old) m s
            → NodeDone (hear_end result) None (frame_effect m s now word (frame_of message.now))
            (host (N.device board.old) (Some self.old)) (host (N.device board.new) (Some self.new)) }
        ensures answers { IfOk result (λ heard. (m : MoteState) (s : Store)
            → IsMote (N.device board.old).image (node_mote self.old) m s
            → heard ≡ (heard_of m s now word (frame_of message.now)).answer) }
        // a frame that is refused or dropped changes nothing
        ensures unchanged { IfOk result (λ heard. StaysIf heard
            ((N.device board.new ≡ N.device board.old) × (self.new ≡ self.old))) }
    {
        match self.mote.hear_sent(board, now, word, message) {
            Ok(heard) => Ok(heard),
            Err(Stopped) => Err(Stopped),
        }
    }
}
