//! What holds of services. The functions do nothing: their contracts are the laws.
ghost use Rattle.std.specs.Prelude.{◌≢◌, ℕ, List};
ghost use Rattle.dg_base.specs.declared.answers.Status.{Status};
ghost use Rattle.dg_netcfg.specs.Readings.{IsAllowed};
ghost use Rattle.dg_netcfg.specs.declared.profile.NetProfile.{NetProfile};
ghost use Rattle.dg_object.specs.Object.{Row};
ghost use Rattle.dg_volume.specs.Store.{Store};
ghost use Rattle.dg_rules.specs.Begins.{AreShaped};
ghost use Rattle.dg_serve.specs.Endings.{StoresOf};
ghost use Rattle.dg_outside.specs.Outside.{Outside};
ghost use Rattle.dg_serve.specs.Served.{Began};
ghost use Rattle.dg_serve.specs.Promised.{KeepsRules, StoresKeepGolden, ReplaysTo};
ghost use Rattle.dg_serve.specs.Traces.{IsScript, trace, trace_lines};

use dg_rules::{agreement_is_kept, consistency_is_kept, golden_is_found, scripts_with_boards};

/// Whatever a service did, this holds of it and of each prefix of what it served. If the boards agree with a table of images
/// and each frame that came is honest by it, each step is legal, no version falls, and what starts is a row of the table. The
/// chips, the motes that are on and the frames that were sent then agree with the table. So does the store of each half-done
/// chip, wherever a stop comes in the next event. Over a link that exposes its inboxes each frame that came, or that the next
/// event takes, was sent by a mote of the link, and so it is honest. The stores have the shape that whatever a chip stands for
/// has. Whatever bytes frames carry: boards that are consistent stay so, and what starts is golden, or fits its own
/// descriptor. Boards that keep golden whole still do: a start finds it, and no service ends for lack of an image. The trace
/// of its events is a script of them. A replay of that script over boards that stand for what those of the service stood for
/// leads to the world that the service reached, so that it leaves the same stores.
pub fn services_keep_the_rules()
    ensures kept { (answer : Status) (profile : NetProfile) (seed turns : ℕ) (a b : Outside) → IsAllowed profile
        → (x : Began answer profile seed turns a b)
        → (table : List Row) (stores : List Store) → (fits : StoresOf profile.motes a.boards stores) → AreShaped stores
        → KeepsRules a.link.inboxes table stores profile.links profile.motes x.ran.events (x.ran.came table stores fits).last }
    ensures script { (answer : Status) (profile : NetProfile) (seed turns : ℕ) (a b : Outside) → IsAllowed profile
        → (x : Began answer profile seed turns a b)
        → (stores : List Store) → StoresOf profile.motes a.boards stores
        → IsScript (trace profile x.ran.events) (trace_lines profile x.ran.events) }
    ensures golden { (answer : Status) (profile : NetProfile) (seed turns : ℕ) (a b : Outside) → IsAllowed profile
        → (x : Began answer profile seed turns a b)
        → (stores : List Store) → StoresOf profile.motes a.boards stores → StoresKeepGolden stores
        → answer ≢ Status.NoImage }
    ensures replayed { (answer : Status) (profile : NetProfile) (seed turns : ℕ) (a b : Outside)
        → IsAllowed profile
        → (x : Began answer profile seed turns a b)
        → (table : List Row) (stores : List Store) → (fits : StoresOf profile.motes a.boards stores)
        → ReplaysTo (trace profile x.ran.events) (trace_lines profile x.ran.events) profile.motes table stores
        (x.ran.came table stores fits).last.world }
{
    agreement_is_kept();
    consistency_is_kept();
    golden_is_found();
    scripts_with_boards();
}
