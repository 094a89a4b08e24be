//! What a tick and a frame may change. These functions do nothing: their contracts are the laws.
ghost use Rattle.std.specs.Prelude.{◌≡◌, ◌⊎◌, ℕ, Bool, true, false, List, Ok};
ghost use Rattle.dg_nor.specs.Trail.{last, resting};
ghost use Rattle.dg_nor.specs.Through.{Through};
ghost use Rattle.dg_bits.specs.Sets.{Numbers};
ghost use Rattle.dg_control.specs.declared.snapshot.Order.{Order};
ghost use Rattle.dg_volume.specs.Store.{Store};
ghost use Rattle.dg_frame.specs.Grammar.{message_of};
ghost use Rattle.dg_frame.specs.declared.Entry.{Entry};
ghost use Rattle.dg_frame.specs.declared.Message.TheVariants as message;
ghost use Rattle.dg_mote.specs.Model.{MoteState};
ghost use Rattle.dg_mote.specs.Summary.{advert_by};
ghost use Rattle.dg_mote.specs.Ticks.{tick_of};
ghost use Rattle.dg_mote.specs.Hears.{heard_of};
ghost use Rattle.dg_mote.specs.Changes.{MayClear, TakesAdvert, Completes, IfReceives, Brings, IsBegun, Continues};

use dg_volume::{acts_end, trails_begin};

/// What a tick and a frame may change of what the chip keeps, also if power is lost during them.
///
/// A tick clears short starts at most. An advert may bring a better order, and restart one image for a newer version. A
/// request changes nothing. A packet may complete one page, if it is the last packet of that page to arrive.
pub fn what_a_mote_may_change()
    ensures ticked { (m : MoteState) (s : Store) (now word : ℕ) → Through (MayClear s) (tick_of m s now word).trail }
    ensures advert { (m : MoteState) (s : Store) (now word : ℕ) (bytes : List ℕ) (wide : Bool) (source : ℕ)
        (entries : List Entry) (order : Order)
        → message_of bytes m.wide ≡ Ok (advert_by wide source entries order)
        → Through (TakesAdvert entries order true s) (heard_of m s now word bytes).trail
        × TakesAdvert entries order false s (last (heard_of m s now word bytes).trail) }
    ensures request { (m : MoteState) (s : Store) (now word : ℕ) (bytes : List ℕ) (source to image version page : ℕ)
        (want : Numbers)
        → message_of bytes m.wide ≡ Ok (message.Request source to image version page want)
        → (heard_of m s now word bytes).trail ≡ resting s 0 }
    ensures packet { (m : MoteState) (s : Store) (now word : ℕ) (bytes : List ℕ) (source image version page q : ℕ)
        (content : List ℕ)
        → message_of bytes m.wide ≡ Ok (message.Packet source image version page q content)
        → Through (λ t. (t ≡ s) ⊎ Completes m.mode image version page q s t) (heard_of m s now word bytes).trail }
{
    acts_end();
    trails_begin();
}

/// A page that a mote asks for is not a page of golden, and its packets came in frames: a tick adds no packet, and a
/// frame adds only the packet that it spells.
pub fn packets_come_in_frames()
    ensures ticked { (m : MoteState) (s : Store) (now word : ℕ)
        → IfReceives (Continues m.mode (λ image version page q. ⊥)) (tick_of m s now word).mote.mode }
    ensures heard { (m : MoteState) (s : Store) (now word : ℕ) (bytes : List ℕ)
        → IfReceives (λ r. IsBegun r ⊎ Continues m.mode (Brings bytes m.wide) r) (heard_of m s now word bytes).mote.mode }
{}
