//! How long a mote is idle.
ghost use Rattle.std.specs.Prelude.{◌≡◌, ℕ, ◌<◌, false, List};
ghost use Rattle.dg_volume.specs.Store.{Store};
ghost use Rattle.dg_volume.specs.Stands.{Tells};
ghost use Rattle.dg_mote.specs.Model.{MoteState};
ghost use Rattle.dg_mote.specs.Ticks.{clears, idle, mode_tick};
ghost use Rattle.dg_mote.specs.Dues.{RestsUntil, clears_at, mode_due, due_of};
ghost use Rattle.dg_mote.specs.Motes.{IsMote};

use crate::ticking::LONG_RUN;
use crate::{Mode, Mote};
use dg_boot::order_waits;

impl Mote {
    /// The time before which a tick changes nothing and sends nothing. It is 0 if an order is pending. The chip is not read.
    pub fn due(&self) -> u64
        ensures rests { (c : List ℕ) (m : MoteState) (s : Store) → IsMote c self.now m s → RestsUntil m s result }
        ensures value { (c : List ℕ) (m : MoteState) (s : Store) → IsMote c self.now m s → result ≡ due_of m s }
    {
        self.clearing_due().min(self.mode_due())
    }

    /// The time before which no short starts are cleared.
    fn clearing_due(&self) -> u64
        ensures rests { (m : MoteState) (s : Store) (now : ℕ) → self.now.since ≡ m.since → Tells self.now.volume s → now < result
            → clears m s now ≡ false }
        ensures value { (m : MoteState) (s : Store) → self.now.since ≡ m.since → Tells self.now.volume s
            → result ≡ clears_at m s }
    {
        if self.volume.snapshot().gesture >= 1 && self.volume.room() >= 1 {
            self.since.saturating_add(LONG_RUN)
        } else {
            u64::MAX
        }
    }

    /// The time before which the mode of the mote does nothing.
    fn mode_due(&self) -> u64
        ensures rests { (c : List ℕ) (m : MoteState) (s : Store) (now word : ℕ) → IsMote c self.now m s → now < result
            → mode_tick m.mode m s now word ≡ idle m s }
        ensures value { (c : List ℕ) (m : MoteState) (s : Store) → IsMote c self.now m s → result ≡ mode_due m.mode s }
    {
        match &self.mode {
            Mode::Maintain(trickle) => {
                if order_waits(&self.volume) {
                    0
                } else {
                    trickle.due()
                }
            }
            Mode::Receive { asking, .. } => asking.due(),
            Mode::Transmit { serving, .. } => serving.due(),
        }
    }
}
