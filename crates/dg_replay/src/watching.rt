//! Who watches a replay.
ghost use Rattle.std.specs.Prelude.{List, [], ◌∷◌, ◌++◌, length, map};
ghost use Rattle.dg_nor.specs.Device.{Device};
ghost use Rattle.dg_rules.specs.Runs.{Played};
ghost use Rattle.dg_rules.specs.World.{World as RuleWorld};
ghost use Rattle.dg_volume.specs.Store.{Store};
ghost use Rattle.dg_world.specs.Applying.{step_of};
ghost use Rattle.dg_world.specs.Deployments.{deployed};
ghost use Rattle.dg_replay.specs.Shown.{Saw, HaveRested, IsPlaced, LeadTo, IsApplied, IsEnding};

use dg_nor::Nor;
use dg_rules::Event;
use dg_script::Report;
use dg_world::World;

/// Watches a replay: it is shown each event after the boards, and changes nothing of the replay. A method that does nothing
/// costs nothing.
pub trait Watcher<N: Nor> {
    // What the watcher saw of a replay that began with the boards `initial`, and has left them as `now`. It was shown exactly
    // these events, since the motes' chips began with these stores, and the replay goes on (`events`), or it ended there, since
    // this step found no image to start in this world (`ended`).
    ghost saw: { Self → (initial now : List Device) → Saw };

    // What was seen stays seen while nothing is made on the boards of the motes.
    ghost rests: { (w : Self) (initial old new : List Device) (stores : List Store) (events : List Played)
        → HaveRested (length stores) old new
        → (saw w initial old).events stores events → (saw w initial new).events stores events };

    /// The script has this many motes.
    fn begun(&mut self, motes: u8)
        ensures seen { (initial now : List Device) → (saw self.old initial now).events [] []
            → (saw self.new initial now).events [] [] };

    /// The boards of the motes are used from now on: they were formatted with this many commits counted as spent, or mounted as
    /// they are.
    fn placed(&mut self, motes: u8, used: Option<u32>, boards: &[N])
        ensures seen { (initial before : List Device) (stores : List Store)
            → IsPlaced motes used initial (map N.device boards.now) stores
            → (saw self.old initial before).events [] []
            → (saw self.new initial (map N.device boards.now)).events stores [] };

    /// An image was not declared, since its version was declared with another name or content. A line reports this.
    fn taken(&mut self)
        ensures seen { (initial now : List Device) (stores : List Store) (events : List Played)
            → (saw self.old initial now).events stores events → (saw self.new initial now).events stores events };

    /// An event was applied, also if it was refused or cut, and these lines are reported of it. A frame that it sent is reported
    /// only if `reported` is true: the frames of rounds and sweeps are not.
    fn applied(
        &mut self,
        world: &World,
        event: &Event,
        boards: &[N],
        reported: bool,
        reports: &[Report],
    )
        ensures seen { (initial : List Device) (stores : List Store) (events : List Played) (p : Played)
            → LeadTo stores events p.before
            → (x : IsApplied p event.now reported (deployed world.now (map N.device boards.now) reports.now))
            → (saw self.old initial x.before.boards).events stores events
            → (saw self.new initial (map N.device boards.now)).events stores (events ++ p ∷ []) };

    /// An event found no image to start, and ends the replay. It is not one of those that were applied.
    fn ended(&mut self, event: &Event, boards: &[N])
        ensures seen { (initial : List Device) (stores : List Store) (events : List Played) (w : RuleWorld)
            → LeadTo stores events w → (x : IsEnding w event.now (map N.device boards.now))
            → (saw self.old initial x.before).events stores events
            → (saw self.new initial (map N.device boards.now)).ended stores events w (step_of event.now x.cut) };
}

/// A watcher that does nothing.
#[derive(Clone, Copy, Debug, PartialEq, Eq)]
pub struct Unwatched;

impl<N: Nor> Watcher<N> for Unwatched {
    ghost use Rattle.dg_replay.specs.Shown.{unseen};

    ghost saw = { λ w initial now. unseen };

    ghost rests = { λ w initial old new stores events rested seen. tt };

    #[inline(always)]
    fn begun(&mut self, _motes: u8) {}

    #[inline(always)]
    fn placed(&mut self, _motes: u8, _used: Option<u32>, _boards: &[N]) {}

    #[inline(always)]
    fn taken(&mut self) {}

    #[inline(always)]
    fn applied(
        &mut self,
        _world: &World,
        _event: &Event,
        _boards: &[N],
        _reported: bool,
        _reports: &[Report],
    ) {}

    #[inline(always)]
    fn ended(&mut self, _event: &Event, _boards: &[N]) {}
}
