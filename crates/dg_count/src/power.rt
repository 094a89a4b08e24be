//! The power of motes, by what is reported of events.

use crate::costs::Costs;
use dg_events::Told;
use dg_mote_cost::Work;
use dg_rules::Event;
use dg_world::World;

impl Costs {
    /// Counts starts and cuts by the outcome of an event.
    pub fn note_power(
        &mut self,
        world: &World,
        mote: u8,
        event: &Event,
        ms: u64,
        told: Told,
        work: Work,
    ) {
        let index = usize::from(mote);
        if self.motes.len() <= index {
            return;
        }
        let cost = &mut self.motes[index];
        if told.off {
            cost.cut(event, ms);
        } else if told.started.is_some() {
            if work.copied {
                cost.starts_copied = cost.starts_copied.saturating_add(1);
            }
            cost.started = ms;
            cost.gesture = match world.volume(mote) {
                Some(volume) => volume.snapshot().gesture,
                None => 0,
            };
        } else if let Event::Tick { .. } = event {
            if work.any {
                cost.gesture = 0;
            }
        }
    }
}
