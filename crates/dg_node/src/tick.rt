//! A node ticks.
ghost use Rattle.std.specs.Prelude.{◌≡◌, ◌^◌, ◌<◌, Option, None, Some};
ghost use Rattle.dg_volume.specs.Store.{Store};
ghost use Rattle.dg_volume.specs.Stands.{Stands};
ghost use Rattle.dg_mote.specs.Model.{MoteState};
ghost use Rattle.dg_mote.specs.Effects.{boots, tick_effect};
ghost use Rattle.dg_mote.specs.Motes.{IsMote, sent_in};
ghost use Rattle.dg_node.specs.Hosts.{host};
ghost use Rattle.dg_node.specs.Nodes.{IsTimelyNode, node_mote};
ghost use Rattle.dg_node.specs.Ends.{NodeDone, tick_end};
ghost use Rattle.dg_node.specs.inner.Faults.{restart_fault};

use crate::answers::{Powered, TickFault, Ticked};
use crate::node::{At, Node};
use crate::power::begin;
use dg_boot::{BootFault, Kind};
use dg_mote::{Did, Outbox, a_restart_is_for_the_order};
use dg_nor::{Nor, Stopped};

impl Node {
    /// Does what is due now: the first action that applies. If an order is pending and nothing else is due, the chip
    /// starts for it. A frame is put into the outbox exactly if the answer is `Sent`.
    #[inline(always)]
    pub fn tick<N: Nor>(
        &mut self,
        board: &mut N,
        now: u64,
        word: u32,
        out: &mut Outbox,
    ) -> Result<Ticked, TickFault>
        requires node { IsTimelyNode (N.device board.old).image self.old now }
        requires moment { now < 2 ^ 62 }
        requires empty { sent_in out.old ≡ None }
        ensures { (m : MoteState) (s : Store) → IsMote (N.device board.old).image (node_mote self.old) m s
            → NodeDone (tick_end result) (sent_in out.new) (tick_effect m s now word)
            (host (N.device board.old) (Some self.old)) (host (N.device board.new) (Some self.new)) }
    {
        a_restart_is_for_the_order();
        match self.mote.tick(board, now, word, out) {
            Ok(Did::Idle) => Ok(Ticked::Idle),
            Ok(Did::Sent) => Ok(Ticked::Sent),
            Ok(Did::Restart) => self.restart(board, now, word),
            Err(Stopped) => Err(TickFault::Stopped),
        }
    }

    /// Starts a board for its order, and creates its node again.
    #[inline(never)]
    fn restart<N: Nor>(&mut self, board: &mut N, now: u64, word: u32) -> Result<Ticked, TickFault>
        requires moment { now < 2 ^ 62 }
        requires stands { (s : Store) × Stands (N.device board.old).image s }
        ensures { (s : Store) (before : Option Node) → Stands (N.device board.old).image s
            → NodeDone (tick_end result) None
            (boots Kind.Order s (node_mote self.old).id (node_mote self.old).wide now word)
            (host (N.device board.old) before) (host (N.device board.new) (Some self.new)) }
    {
        let at = At {
            id: self.mote.id(),
            wide: self.mote.wide(),
            now,
            word,
        };
        match begin(Kind::Order, at, board) {
            Ok(Powered { node, image }) => {
                *self = node;
                Ok(Ticked::Restarted(image))
            }
            Err(fault) => Err(restart_fault(fault)),
        }
    }
}

/// Why a restart failed. A board over which a mote runs is a volume.
fn restart_fault(fault: BootFault) -> TickFault
    ensures { result ≡ restart_fault fault }
{
    match fault {
        BootFault::NoImage => TickFault::NoImage,
        BootFault::Stopped | BootFault::NotAVolume => TickFault::Stopped,
    }
}
