//! A mote alone over its board: it powers on, it ticks, or a frame comes to it. A service plays its motes this way.
ghost use Rattle.std.specs.Prelude.{◌≡◌, ◌+◌, ◌^◌, ◌<◌, true, length};
ghost use Rattle.dg_rules.specs.World.{World as RuleWorld, site, wide_at};
ghost use Rattle.dg_rules.specs.Events.{mote_of, dt_of};
ghost use Rattle.dg_world.specs.Alone.{IsAlone, IsReset, PlaysAlone, Powers};
ghost use Rattle.dg_world.specs.Worlds.{SiteStands, MayRun};

use crate::hearing::hear;
use crate::outcome::{Fault, Outcome};
use crate::starting::reset;
use crate::ticking::tick;
use dg_mote::Outbox;
use dg_node::Node;
use dg_nor::Nor;
use dg_rules::Event;

/// What an event does at a mote that takes part in it alone: a reset, a tick, or a frame that comes to it. The board of the
/// mote runs `runs`, and `now` is the moment of the event. A mote that starts is wide. What is sent is in the outbox of the
/// answer.
pub fn play_alone<N: Nor>(
    runs: &mut Option<Node>,
    now: u64,
    event: &Event,
    board: &mut N,
) -> Result<Outbox, Fault>
    requires alone { IsAlone event.now }
    requires mote { MayRun (N.device board.old).image now runs.old }
    requires moment { now < 2 ^ 62 }
    ensures plays { (w : RuleWorld) → SiteStands (N.device board.old) runs.old (site w (mote_of event.now))
        → mote_of event.now < length w.sites → now ≡ w.moment + dt_of event.now
        → wide_at w (mote_of event.now) ≡ true → PlaysAlone result w event.now runs.new (N.device board.old)
        (N.device board.new) }
    // a start distinguishes a board that is a volume from one that is not; the latter keeps its bytes
    ensures powers { IsReset event.now → Powers result (N.device board.old) (N.device board.new) }
{
    let mut outcome = Outcome::new();
    match event {
        Event::Tick { word, .. } => {
            tick(runs, now, *word, board, &mut outcome)?;
            Ok(outcome.outbox)
        }
        Event::Reset { mote, word, .. } => {
            let id = u16::from(*mote);
            reset(runs, id, true, now, *word, board, &mut outcome)?;
            Ok(outcome.outbox)
        }
        Event::Frame { word, bytes, .. } => {
            let frame = bytes.as_slice();
            hear(runs, now, *word, frame, board, &mut outcome)?;
            Ok(outcome.outbox)
        }
        // A network that runs over boards alone has none of these events. The type `Event` is that of a script.
        Event::Hear { .. } | Event::Last { .. } | Event::Inject { .. } | Event::Order { .. } => {
            unreachable!()
        }
    }
}
