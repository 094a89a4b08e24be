//! What a world exposes of the event that was applied last, and of its motes.
ghost use Rattle.std.specs.Prelude.{◌≡◌, ℕ, ◌<◌, true, List, length, slice_get, Some, option_map, IfSome};
ghost use Rattle.dg_nor.specs.Device.{Device};
ghost use Rattle.dg_frame.specs.Grammar.{in_range};
ghost use Rattle.dg_frame.specs.Spelling.{frame_of};
ghost use Rattle.dg_mote.specs.Effects.{tick_effect};
ghost use Rattle.dg_mote.specs.Motes.{sent_in};
ghost use Rattle.dg_node.specs.Nodes.{rest_effect};
ghost use Rattle.dg_rules.specs.World.{World as RuleWorld, Running, site, store_at, frame_at, last_frame};
ghost use Rattle.dg_world.specs.Due.{due_at};
ghost use Rattle.dg_world.specs.Worlds.{IsWorld};

use crate::world::World;
use dg_frame::Message;
use dg_mote::Heard;
use dg_shared::MOST_MOTES;
use dg_volume::Volume;

impl World {
    /// The message of the frame that the last event sent.
    pub fn sent(&self) -> Option<&Message>
        ensures value { option_map (λ m. frame_of m.now) result ≡ sent_in self.now.outcome.outbox }
        ensures range { IfSome result (λ m. in_range true m.now ≡ true) }
    {
        self.outcome.outbox.message()
    }

    /// What the mote that heard a frame last did.
    pub fn heard(&self) -> Heard
        ensures { result ≡ self.now.outcome.heard }
    {
        self.outcome.heard
    }

    /// The message of the frame with this number, counted from 1.
    pub fn frame(&self, number: usize) -> Option<&Message>
        ensures range { IfSome result (λ m. in_range true m.now ≡ true) }
        ensures sent { (boards : List Device) (w : RuleWorld) → IsWorld self.now boards w
            → option_map (λ m. frame_of m.now) result ≡ option_map (λ s. s.bytes) (frame_at w number) }
    {
        match self.shared.air.get(number) {
            Some(sent) => Some(&sent.message),
            None => None,
        }
    }

    /// The number of the last frame of a mote, 0 if it sent none.
    pub fn last_frame(&self, mote: u8) -> usize
        ensures { (boards : List Device) (w : RuleWorld) → IsWorld self.now boards w → frame_at w result ≡ last_frame w mote }
    {
        self.shared.air.last_number(mote)
    }

    /// Whether two motes are neighbours.
    pub fn are_joined(&self, a: u8, b: u8) -> bool {
        if usize::from(a) < MOST_MOTES && usize::from(b) < MOST_MOTES {
            return self.shared.links.are_joined(a, b);
        }
        false
    }

    /// The volume of a mote that is on.
    pub fn volume(&self, mote: u8) -> Option<&Volume> {
        match self.motes.get(usize::from(mote)) {
            Some(Some(node)) => Some(node.volume()),
            _ => None,
        }
    }

    /// The moment before which a tick of a mote changes nothing and sends nothing. None where it is off.
    pub fn due(&self, mote: u8) -> Option<u64>
        ensures rests { IfSome result (λ moment. (boards : List Device) (d : Device) (w : RuleWorld) (r : Running) (now word : ℕ)
            → IsWorld self.now boards w → mote < length w.sites → slice_get boards mote ≡ Some d → (site w mote).runs ≡ Some r
            → now < moment → tick_effect r.mote (store_at w mote) now word ≡ rest_effect r.mote (store_at w mote)) }
        ensures value { (boards : List Device) (w : RuleWorld) → IsWorld self.now boards w → mote < length w.sites
            → result ≡ due_at w mote }
    {
        match self.motes.get(usize::from(mote)) {
            Some(Some(node)) => Some(node.due()),
            Some(None) => None,
            None => None,
        }
    }
}
