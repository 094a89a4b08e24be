//! When a mote ticks though no frame came.
use dg_node::Node;

/// The longest time between two ticks, in milliseconds, so that a day of a trace has at most one tick for each second in which
/// nothing happens.
const LONGEST_REST: u64 = 1_000;

/// The time since the last tick, by a clock other than that of the events. No event has its answers.
#[derive(Drop)]
pub(crate) struct Rest {
    /// Its answer at the last tick, in milliseconds.
    pub(crate) since: u64,
}

impl Rest {
    /// Whether a mote is to tick whose last event came at `moment`, where the watch answers `reading` now: something of it is
    /// due, or it did not tick for a second.
    pub(crate) fn is_over(
        &self,
        reading: u64,
        moment: u64,
        motes: &[Option<Node>],
        mote: u8,
    ) -> bool {
        let passed = reading.saturating_sub(self.since);
        passed >= LONGEST_REST || moment.saturating_add(passed) >= due_at(motes, mote)
    }
}

/// The moment before which a tick of a mote changes nothing and sends nothing.
fn due_at(motes: &[Option<Node>], mote: u8) -> u64 {
    match motes.get(usize::from(mote)) {
        Some(Some(node)) => node.due(),
        _ => 0,
    }
}
