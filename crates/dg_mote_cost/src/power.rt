//! The cuts of a mote's power.

use crate::mote::MoteCost;
use dg_rules::Event;

/// A mote that has run for this many milliseconds clears the count of short starts.
const CLEARS: u64 = 5_000;

impl MoteCost {
    /// A cut fired in an event. In a tick it interrupts a restart, unless the tick clears the count of short starts.
    pub fn cut(&mut self, event: &Event, ms: u64) {
        if let Event::Tick { .. } = event {
            let clears = 0 < self.gesture && CLEARS <= ms.saturating_sub(self.started);
            if !clears {
                self.cut_restarts = self.cut_restarts.saturating_add(1);
            }
        }
    }
}
