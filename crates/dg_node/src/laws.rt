//! What holds of nodes by their rules. These functions do nothing: their contracts are the laws.
ghost use Rattle.std.specs.Prelude.{ℕ, Bool, List, IfSome};
ghost use Rattle.dg_volume.specs.Store.{Store};
ghost use Rattle.dg_mote.specs.Model.{MoteState};
ghost use Rattle.dg_mote.specs.Effects.{reset_effect, tick_effect, frame_effect};
ghost use Rattle.dg_mote.specs.Timely.{Timely};

use dg_mote::a_mote_stays_timely;

/// The mote that an event leaves records no time later than that of the event, and what is due is due soon.
pub fn a_node_stays_timely()
    ensures powered { (s : Store) (id now word : ℕ) (wide : Bool)
        → IfSome (reset_effect s id wide now word).mote (λ m. Timely m now) }
    ensures ticked { (m : MoteState) (s : Store) (now word : ℕ) → Timely m now
        → IfSome (tick_effect m s now word).mote (λ x. Timely x now) }
    ensures heard { (m : MoteState) (s : Store) (now word : ℕ) (bytes : List ℕ) → Timely m now
        → IfSome (frame_effect m s now word bytes).mote (λ x. Timely x now) }
{
    a_mote_stays_timely();
}
