//! What holds of services of one mote. The functions do nothing: their contracts are the laws.
ghost use Rattle.std.specs.Prelude.{◌≢◌, ◌<◌, ℕ, List};
ghost use Rattle.dg_base.specs.declared.answers.Status.{Status};
ghost use Rattle.dg_netcfg.specs.Readings.{IsAllowed};
ghost use Rattle.dg_netcfg.specs.declared.profile.NetProfile.{NetProfile};
ghost use Rattle.dg_object.specs.Object.{Row};
ghost use Rattle.dg_volume.specs.Store.{Store};
ghost use Rattle.dg_rules.specs.Begins.{AreShaped};
ghost use Rattle.dg_serve.specs.Endings.{StoresOf};
ghost use Rattle.dg_outside.specs.Outside.{Outside};
ghost use Rattle.dg_serve.specs.Promised.{KeepsRules, StoresKeepGolden, ReplaysTo};
ghost use Rattle.dg_serve.specs.Traces.{IsScript, trace, trace_lines};
ghost use Rattle.dg_single.specs.Singles.{OthersAreVolumes, MoteBegan};

use dg_rules::{agreement_is_kept, consistency_is_kept, golden_is_found, scripts_with_boards};

/// What is promised of a service of all motes holds of one of a single mote, whatever volumes the boards of the others are.
/// Its events are those of a run of the rules. If the boards agree with a table of images and each frame that came is honest
/// by it, each step is legal, no version falls, and what starts is a row of the table. Everything then agrees with the table,
/// also where a stop comes in the next event. Whatever bytes frames carry, consistent boards stay so. The trace is a script of
/// the events, and a replay of it over boards that stand for the same stores leads to the world that the service reached.
pub fn services_of_one_keep_the_rules()
    ensures kept { (answer : Status) (profile : NetProfile) (mote seed turns : ℕ) (a b : Outside)
        → IsAllowed profile
        → mote < profile.motes → (x : MoteBegan answer profile mote seed turns a b)
        → (table : List Row) (stores : List Store) → (fits : StoresOf profile.motes a.boards stores)
        → (others : OthersAreVolumes profile.motes mote a.boards) → AreShaped stores
        → KeepsRules a.link.inboxes table stores profile.links profile.motes x.run.events
        (x.run.came table stores fits others).came.last }
    ensures script { (answer : Status) (profile : NetProfile) (mote seed turns : ℕ) (a b : Outside)
        → IsAllowed profile
        → mote < profile.motes → (x : MoteBegan answer profile mote seed turns a b)
        → (stores : List Store) → StoresOf profile.motes a.boards stores
        → OthersAreVolumes profile.motes mote a.boards
        → IsScript (trace profile x.run.events) (trace_lines profile x.run.events) }
    ensures golden { (answer : Status) (profile : NetProfile) (mote seed turns : ℕ) (a b : Outside)
        → IsAllowed profile
        → mote < profile.motes → (x : MoteBegan answer profile mote seed turns a b)
        → (stores : List Store) → StoresOf profile.motes a.boards stores
        → OthersAreVolumes profile.motes mote a.boards → StoresKeepGolden stores → answer ≢ Status.NoImage }
    ensures replayed { (answer : Status) (profile : NetProfile) (mote seed turns : ℕ) (a b : Outside)
        → IsAllowed profile → mote < profile.motes → (x : MoteBegan answer profile mote seed turns a b)
        → (table : List Row) (stores : List Store) → (fits : StoresOf profile.motes a.boards stores)
        → (others : OthersAreVolumes profile.motes mote a.boards)
        → ReplaysTo (trace profile x.run.events) (trace_lines profile x.run.events) profile.motes table stores
        (x.run.came table stores fits others).came.last.world }
{
    agreement_is_kept();
    consistency_is_kept();
    golden_is_found();
    scripts_with_boards();
}
