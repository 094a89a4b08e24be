//! A base mote over its chip.
ghost use Rattle.std.specs.Prelude.{◌≡◌, ℕ, ◌+◌, ◌^◌, ◌<◌, ◌≤◌, [], None, IfOk, IfSome, OnOk, length, List};
ghost use Rattle.dg_volume.specs.Store.{Store};
ghost use Rattle.dg_volume.specs.Stands.{Stands, IsNoVolume};
ghost use Rattle.dg_mote.specs.Motes.{sent_in};
ghost use Rattle.dg_serial_base.specs.BaseEvents.{Base, At as Place, BaseEvent, Hears, Ticks};
ghost use Rattle.dg_serial_base.specs.Based.{RefusedBy};
ghost use Rattle.dg_serial_base.specs.inner.Ends.{end_of_tick};
ghost use Rattle.dg_serial_base.specs.inner.Standing.{PowerEnds, BaseEventEnds, base_event_left};
ghost use Rattle.dg_serial_base.specs.inner.Standing.{Counts, WriteCounts, ReadCounts, Stood, IsStood};

use crate::timeline::Timeline;
use dg_end::End;
use dg_mote::{Outbox, a_mote_stays_timely};
use dg_node::{At, Node, TickFault, a_node_stays_timely};
use dg_nor::Nor;

/// A node, and its time.
#[derive(Drop)]
pub(crate) struct Running {
    pub(crate) node: Node,
    pub(crate) timeline: Timeline,
}

/// How a tick that fails ends a base mote.
fn end_of_tick(fault: TickFault) -> End
    ensures { result ≡ end_of_tick fault }
{
    match fault {
        TickFault::Stopped => End::FlashFault,
        TickFault::NoImage => End::NoImage,
    }
}

impl Running {
    /// A chip powers on: it starts, and its mote, which is wide, is made.
    pub(crate) fn power<N: Nor>(nor: &mut N, id: u16, step: u32, seed: u32) -> Result<Running, End>
        requires little { step ≤ 60000 }
        ensures ends { (s : Store) → Stands (N.device nor.old).image s
            → PowerEnds result (record { id = id; step = step; seed = seed }) s (N.device nor.new) }
        ensures none { IsNoVolume (N.device nor.old).image → RefusedBy result (N.device nor.old) (N.device nor.new) }
        ensures stood { IfOk result (λ v. IsStood v (N.device nor.new).image) }
        ensures counts { Counts result (N.device nor.old) (N.device nor.new) }
        ensures writes { (n : ℕ) → WriteCounts result n n }
        ensures reads { (n : ℕ) → ReadCounts result n n }
        ensures moment { IfOk result (λ v. v.timeline.moment ≤ 60000) }
        ensures step { IfOk result (λ v. v.timeline.step ≡ step) }
    {
        a_node_stays_timely();
        let mut timeline = Timeline::begin(step, seed);
        let timing = timeline.next();
        let at = At {
            id,
            wide: true,
            now: timing.now,
            word: timing.word,
        };
        let powered = Node::power(nor, at)?;
        Ok(Running {
            node: powered.node,
            timeline,
        })
    }

    /// The mote hears a frame.
    pub(crate) fn hear<N: Nor>(&mut self, nor: &mut N, bytes: &[u8]) -> Result<(), End>
        requires stood { IsStood self.old (N.device nor.old).image }
        requires early { self.old.timeline.moment < 2 ^ 61 }
        requires little { self.old.timeline.step ≤ 60000 }
        ensures ends { (b : Base) (s : Store) (done : List BaseEvent) (before : Place)
            → Stood b s done self.old (N.device nor.old).image before
            → BaseEventEnds result b s done (Hears bytes.now) before (base_event_left self.new (N.device nor.new) None) }
        ensures stood { OnOk result (IsStood self.new (N.device nor.new).image) }
        ensures counts { Counts result (N.device nor.old) (N.device nor.new) }
        ensures moment { self.new.timeline.moment ≤ self.old.timeline.moment + 60000 }
        ensures step { self.new.timeline.step ≡ self.old.timeline.step }
    {
        a_mote_stays_timely();
        a_node_stays_timely();
        let timing = self.timeline.next();
        self.node.hear(nor, timing.now, timing.word, bytes)?;
        Ok(())
    }

    /// The mote ticks. What it sends is then in the outbox.
    pub(crate) fn tick<N: Nor>(&mut self, nor: &mut N, outbox: &mut Outbox) -> Result<(), End>
        requires stood { IsStood self.old (N.device nor.old).image }
        requires early { self.old.timeline.moment < 2 ^ 61 }
        requires little { self.old.timeline.step ≤ 60000 }
        requires empty { sent_in outbox.old ≡ None }
        ensures ends { (b : Base) (s : Store) (done : List BaseEvent) (before : Place)
            → Stood b s done self.old (N.device nor.old).image before
            → BaseEventEnds result b s done Ticks before (base_event_left self.new (N.device nor.new) (sent_in outbox.new)) }
        ensures stood { OnOk result (IsStood self.new (N.device nor.new).image) }
        ensures frame { OnOk result (IfSome (sent_in outbox.new) (λ frame. 1 ≤ length frame)) }
        ensures counts { Counts result (N.device nor.old) (N.device nor.new) }
        ensures moment { self.new.timeline.moment ≤ self.old.timeline.moment + 60000 }
        ensures step { self.new.timeline.step ≡ self.old.timeline.step }
    {
        a_mote_stays_timely();
        a_node_stays_timely();
        let timing = self.timeline.next();
        match self.node.tick(nor, timing.now, timing.word, outbox) {
            Ok(_) => Ok(()),
            Err(fault) => Err(end_of_tick(fault)),
        }
    }
}
